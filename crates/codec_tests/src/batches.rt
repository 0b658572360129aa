//! Batches as bytes: one worked batch, faults with their places, limits, and bytes of any kind.
use crate::told::{Form, are_told};
use codec_kit::{batch_text, marked, two_tables};
use geo_schema::Schema;
use set_codec::{CodecFault, batch_bytes, batch_size, read_batch};
use std::alloc::Global;
use std::test::Fail;

/// A batch of the two tables in GGB2, and what it says.
const BATCH: [u8; 88] = [
    0x47, 0x47, 0x42, 0x32, 2, 0, 0, 0, 5, 0, 0, 0, 2, 0, 0, 0, 4, 0, 0, 0, 2, 0, 1, 1, 0, 0, 0, 0,
    0, 0, 0, 1, 0, 1, 1, 1, 0, 0, 0, 0, 0, 0, 0, 7, 2, 0, 2, 0xc3, 0xa9, 4, 0, 0, 0, 3, 0, 0, 0, 2,
    1, 1, 1, 0xff, 0xff, 0xff, 0xff, 0xff, 0xff, 0xff, 0xff, 2, 0, 0, 3, 1, 2, 1, 0, 0, 0, 0, 0, 0,
    0, 0, 2, 0, 1, 0x61,
];

const BATCH_TEXT: &str = "\
region 2 epoch 5
start 4; 0(1) -> (1, NULL); 1(7, 'é') -> ('é', TRUE, 7)
start 3; 1(-1, '') -> ('', FALSE, -1); 1(0, 'a') removed";

/// Fails unless the bytes of the batch, with this digit in their mark, are read as what it says, and what is read has
/// its bytes in GGB2.
fn is_worked_batch(alloc: Global, schema: &Schema, digit: u8) -> Result<(), Fail> {
    let bytes = marked(alloc, &BATCH, digit)?;
    let batch = read_batch(alloc, schema, 3, bytes.as_slice());
    drop(bytes);
    let batch = batch?;
    let size = batch_size(&batch);
    let text = batch_text(alloc, &batch);
    let spelled = batch_bytes(alloc, schema, &batch);
    drop(batch);
    let text = text?;
    if size == 88 && text.as_str() == BATCH_TEXT && spelled?.as_slice() == BATCH.as_slice() {
        Ok(())
    } else {
        Err(Fail::new(text))
    }
}

fn are_worked_batches(alloc: Global, schema: &Schema) -> Result<(), Fail> {
    is_worked_batch(alloc, schema, b'1')?;
    is_worked_batch(alloc, schema, b'2')
}

#[test]
fn a_batch_is_read_in_both_formats(rt: HostRuntime) -> Result<(), Fail> {
    let schema = two_tables(rt.alloc())?;
    let are_worked = are_worked_batches(rt.alloc(), &schema);
    drop(schema);
    are_worked
}

/// The tables, the number of regions, bytes behind a mark, and what these are told in each of the two
/// formats. The order of a change is tested behind its key, and before its other cells. A hidden table is
/// that of the number 64.
const TOLD: &str = "\
numbers 1 0 #1 #1 #0 #1 0 1 @1 @10 => fits
numbers 1 0 #1 #0 => fits
numbers 1 1 #1 #0 => BadTag(4)
numbers 8 7 #1 #0 => fits
numbers 8 8 #1 #0 => BadTag(4)
numbers 1 0 #0 #0 => BadTag(5)
numbers 1 0 #4294967293 #0 => fits
numbers 1 0 #4294967294 #0 => BadTag(5)
numbers 1 0 #1 #4096 => Short(13)
numbers 1 0 #1 #4097 => OverLimit(9, Candidates)
numbers 1 0 #1 #1 #1 #1 0 2 @1 => BadStart(13)
numbers 1 0 #64 #1 #0 #1 0 2 @1 => fits
numbers 1 0 #65 #1 #0 #1 0 2 @1 => BadStart(13)
numbers 1 0 #65 #1 #1 #1 0 2 @1 => fits
numbers 1 0 #1 #1 #0 #0 => OverLimit(17, Rows)
numbers 1 0 #1 #1 #0 #1024 => Short(21)
numbers 1 0 #1 #1 #0 #1025 => OverLimit(17, Rows)
numbers 1 0 #1 #1 #0 #1 1 1 @1 @10 => BadRow(21)
numbers 1 0 #1 #1 #0 #1 0 0 @1 @10 => BadTag(22)
numbers 1 0 #1 #1 #0 #1 0 1 0 @10 => BadRow(23)
numbers 1 0 #1 #1 #0 #1 0 1 3 @10 => BadRow(23)
numbers 1 0 #1 #1 #0 #1 0 1 5 @10 => BadTag(23)
numbers 1 0 #1 #1 #0 #1 0 1 @1 0 => fits
numbers 1 0 #1 #1 #0 #1 0 1 @1 0 10 => Trailing(33)
numbers 1 0 #1 #1 #0 #1 0 1 @1 2 0 1 97 => BadRow(32)
numbers 1 0 #1 #1 #0 #1 0 1 @1 2 0 1 255 => BadUtf8(35)
numbers 1 0 #1 #1 #0 #2 0 2 @1 0 2 @2 => fits
numbers 1 0 #1 #1 #0 #2 0 2 @1 0 2 @1 => NotOrdered(32)
numbers 1 0 #1 #1 #0 #2 0 2 @2 0 2 @1 => NotOrdered(32)
numbers 1 0 #1 #1 #0 #1 0 2 0 => BadRow(23)
numbers 1 0 #1 #2 #0 #1 0 2 @1 #1 => BadStart(32)
texts 1 0 #1 #1 #0 #1 0 1 @1 2 0 1 97 => fits
texts 1 0 #1 #1 #0 #1 0 1 @1 2 0 1 255 => BadUtf8(35)
texts 1 0 #1 #1 #0 #1 0 1 @1 2 4 1 => OverLimit(33, TextBytes)
narrow 1 0 #1 #1 #0 #1 0 1 @1 @10 2 0 8 97 97 97 97 97 97 97 97 => fits
narrow 1 0 #1 #1 #0 #1 0 1 @1 @10 2 0 9 97 97 97 97 97 97 97 97 97 => BadRow(41)
narrow 1 0 #1 #1 #0 #1 0 1 @1 @10 0 => fits
narrow 1 0 #1 #1 #0 #1 0 1 @1 0 0 => BadRow(32)
two 1 0 #1 #1 #0 #2 0 2 @1 1 2 @1 2 0 1 97 => fits
two 1 0 #1 #1 #0 #2 1 2 @1 2 0 1 97 0 2 @1 => NotOrdered(36)
two 1 0 #1 #1 #0 #2 1 2 @1 2 0 1 97 0 2 0 => BadRow(38)
two 1 0 #1 #1 #0 #2 1 2 @1 2 0 1 97 0 1 @1 5 => NotOrdered(36)
unique 1 0 #1 #1 #0 #1 64 1 2 0 1 97 @1 => fits
unique 1 0 #1 #1 #0 #1 64 2 2 0 1 97 => fits
unique 1 0 #1 #1 #0 #1 64 1 0 @1 => BadRow(23)
unique 1 0 #1 #1 #0 #1 64 1 2 0 1 97 0 => BadRow(27)
unique 1 0 #1 #1 #0 #1 64 1 2 0 9 97 97 97 97 97 97 97 97 97 @1 => BadRow(23)
unique 1 0 #1 #1 #0 #1 65 1 2 0 1 97 @1 => BadRow(21)
unique 1 0 #1 #1 #0 #1 1 2 @1 => BadRow(21)
unique 1 0 #1 #1 #0 #2 0 2 @1 64 2 2 0 1 97 => fits
unique 1 0 #1 #1 #0 #2 64 2 2 0 1 97 0 2 @1 => NotOrdered(27)";

#[test]
fn bytes_of_batches_are_told(rt: HostRuntime) -> Result<(), Fail> {
    are_told(rt.alloc(), Form::Batch, "GGB1", TOLD)?;
    are_told(rt.alloc(), Form::Batch, "GGB2", TOLD)
}

/// The same where the format matters: GGB1 has no touches.
const TOLD_OF_FORMATS: &str = "\
numbers 1 72 71 66 50 0 #1 #0 => BadTag(0)
numbers 1 71 71 66 48 0 #1 #0 => BadTag(0)
numbers 1 71 71 66 51 0 #1 #0 => BadTag(0)
numbers 1 71 71 66 => Short(3)
numbers 1 GGB1 0 #1 #1 #0 #1 0 3 @1 => BadTag(22)
numbers 1 GGB2 0 #1 #1 #0 #1 0 3 @1 => fits
numbers 1 GGB1 0 #1 #1 #0 #1 0 4 @1 => BadTag(22)
numbers 1 GGB2 0 #1 #1 #0 #1 0 4 @1 => BadTag(22)
numbers 1 GGB1 0 #1 #1 #0 #2 0 2 @1 0 3 @1 => BadTag(33)
numbers 1 GGB2 0 #1 #1 #0 #2 0 2 @1 0 3 @1 => NotOrdered(32)
numbers 1 GGB2 0 #1 #1 #0 #2 0 3 @1 0 2 @2 => fits
numbers 1 GGB2 0 #1 #1 #0 #2 0 3 @2 0 3 @1 => NotOrdered(32)
numbers 1 GGB1 0 #1 #1 #0 #1 1 3 @1 => BadRow(21)
numbers 1 GGB2 0 #1 #1 #0 #1 1 3 @1 => BadRow(21)
numbers 1 GGB1 0 #1 #1 #0 #1 0 3 0 => BadTag(22)
numbers 1 GGB2 0 #1 #1 #0 #1 0 3 0 => BadRow(23)
numbers 1 GGB2 0 #1 #1 #0 #1 0 3 5 => BadTag(23)
numbers 1 GGB2 0 #1 #1 #0 #1 0 3 @1 @10 => Trailing(32)
numbers 1 GGB1 0 #1 #1 #0 #1 0 3 => BadTag(22)
numbers 1 GGB2 0 #1 #1 #0 #1 0 3 => Short(23)
numbers 1 GGB2 0 #1 #1 #0 #1 0 3 1 0 0 => Short(26)
two 1 GGB2 0 #1 #1 #0 #1 1 3 @1 2 0 1 97 => fits
two 1 GGB2 0 #1 #1 #0 #1 1 3 @1 2 0 1 255 => BadUtf8(35)
two 1 GGB2 0 #1 #1 #0 #1 1 3 @1 2 4 1 => OverLimit(33, TextBytes)
unique 1 GGB1 0 #1 #1 #0 #1 64 3 2 0 1 97 => BadTag(22)
unique 1 GGB2 0 #1 #1 #0 #1 64 3 2 0 1 97 => fits
unique 1 GGB2 0 #1 #1 #0 #1 64 3 0 => BadRow(23)";

#[test]
fn touches_are_told_of_by_format(rt: HostRuntime) -> Result<(), Fail> {
    are_told(rt.alloc(), Form::Batch, "", TOLD_OF_FORMATS)
}

/// Batches of many candidates.
const MANY: &str = "\
numbers 1 GGB2 0 #1 #4096 *4096 => fits
numbers 1 GGB2 0 #1 #4097 *4097 => OverLimit(9, Candidates)";

#[test]
fn batches_have_at_most_4096_candidates(rt: HostRuntime) -> Result<(), Fail> {
    are_told(rt.alloc(), Form::Batch, "", MANY)
}

/// What is near batches whose bytes were worked with their digits: in GGB1 the first 13 bytes of a batch that puts a
/// row; all of them and one more; its head with removals of the rows 2 and 1, in this order; and a batch with a touch,
/// which GGB1 hasn't.
const NEAR: &str = "\
numbers 1 x47474231000000000100000001 => Short(13)
numbers 1 x474742310000000001000000010000000000000001000101000000000000000101000000000000000a00 => Trailing(41)
numbers 1 x47474231000000000100000001000000000000000200020100000000000000020002010000000000000001 => NotOrdered(32)
numbers 1 x4747423100000000020000000100000001000000010003010000000000000001 => BadTag(22)";

#[test]
fn what_is_near_the_worked_batches_is_at_fault(rt: HostRuntime) -> Result<(), Fail> {
    are_told(rt.alloc(), Form::Batch, "", NEAR)
}

/// Whether so many of the batch's first bytes are told that they are short.
fn is_short(alloc: Global, schema: &Schema, cut: usize) -> bool {
    match BATCH.get(..cut) {
        Some(front) => { read_batch(alloc, schema, 3, front).err() == Some(CodecFault::Short(cut)) }
        None => false,
    }
}

/// Fails with the first cut that isn't told that it is short.
fn cuts_are_short(alloc: Global, schema: &Schema) -> Result<(), Fail> {
    for cut in 0..BATCH.len() {
        if !is_short(alloc, schema, cut) {
            return Err(Fail::new(cut));
        }
    }
    Ok(())
}

#[test]
fn a_cut_batch_is_short(rt: HostRuntime) -> Result<(), Fail> {
    let schema = two_tables(rt.alloc())?;
    let are_short = cuts_are_short(rt.alloc(), &schema);
    drop(schema);
    are_short
}

/// What the batch with a byte behind it is told.
fn told_of_longer(alloc: Global, schema: &Schema) -> Result<Option<CodecFault>, Fail> {
    let mut bytes = Vec::from_slice(alloc, &BATCH)?;
    bytes.push(0)?;
    Ok(read_batch(alloc, schema, 3, &bytes).err())
}

#[test]
fn a_longer_batch_has_a_byte_behind_it(rt: HostRuntime) -> Result<(), Fail> {
    let schema = two_tables(rt.alloc())?;
    let told = told_of_longer(rt.alloc(), &schema)?;
    assert!(rt; told == Some(CodecFault::Trailing(88)));
    Ok(())
}

/// Whether the batch that is read, if it is one, is spelled by these bytes, in GGB2.
fn is_read_as_it_is(alloc: Global, schema: &Schema, bytes: &[u8]) -> Result<bool, Fail> {
    match read_batch(alloc, schema, 8, bytes) {
        Ok(batch) => Ok(batch_bytes(alloc, schema, &batch)? == marked(alloc, bytes, b'2')?),
        Err(fault) => Ok(fault != CodecFault::NoMemory),
    }
}

/// Fails with the first byte at the place with which what is read isn't spelled by the bytes.
fn are_read_as_they_are(alloc: Global, schema: &Schema, place: usize) -> Result<(), Fail> {
    for byte in 0..=u8::MAX {
        let mut bytes = marked(alloc, &BATCH, b'2')?;
        if let Some(changed) = bytes.get_mut(place) {
            *changed = byte;
        }
        if !is_read_as_it_is(alloc, schema, bytes.as_slice())? {
            return Err(Fail::new(byte));
        }
    }
    Ok(())
}

fn changes_are_read(alloc: Global, schema: &Schema) -> Result<(), Fail> {
    for place in 0..BATCH.len() {
        are_read_as_they_are(alloc, schema, place)?;
    }
    Ok(())
}

#[test]
fn a_batch_with_a_changed_byte_is_read_as_it_is(rt: HostRuntime) -> Result<(), Fail> {
    let schema = two_tables(rt.alloc())?;
    let are_read = changes_are_read(rt.alloc(), &schema);
    drop(schema);
    are_read
}

/// What a batch begins with, as much of it as the round says, and 40 random bytes: in even rounds of any
/// value, and in odd ones small.
fn random_bytes(alloc: Global, state: &mut u64, round: usize) -> Result<Vec<u8>, Fail> {
    let mut bytes = Vec::from_slice(alloc, &BATCH[..round / 2 % BATCH.len()])?;
    let shift = if round % 2 == 0 { 56 } else { 62 };
    for _ in 0..40 {
        *state = state
            .wrapping_mul(6_364_136_223_846_793_005)
            .wrapping_add(1);
        bytes.push((*state >> shift) as u8)?;
    }
    Ok(bytes)
}

fn random_bytes_are_read(alloc: Global, schema: &Schema) -> Result<(), Fail> {
    let mut state = 1u64;
    for round in 0..1000usize {
        let bytes = random_bytes(alloc, &mut state, round)?;
        if !is_read_as_it_is(alloc, schema, &bytes)? {
            return Err(Fail::new(round));
        }
    }
    Ok(())
}

#[test]
fn random_bytes_are_read_as_they_are(rt: HostRuntime) -> Result<(), Fail> {
    let schema = two_tables(rt.alloc())?;
    let are_read = random_bytes_are_read(rt.alloc(), &schema);
    drop(schema);
    are_read
}
