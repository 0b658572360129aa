//! Batches and packets that are built and not read, as bytes.
use crate::building::batch_of;
use crate::fitting::fits;
use codec_kit::{batch_text, bytes_of, halves, line_of, marked, schema_named};
use geo_schema::Schema;
use set_codec::{ByteList, Packet, batch_bytes, batch_size, packet_bytes, read_batch};
use std::alloc::Global;
use std::test::Fail;
use write_set::Batch;

/// The spelling of a batch that fits the schema.
fn spelled(alloc: Global, schema: &Schema, batch: &Batch) -> Result<Vec<u8>, Fail> {
    if !fits(alloc, schema, batch) {
        return Err("a batch that doesn't fit".into());
    }
    Ok(batch_bytes(alloc, schema, batch)?)
}

/// Whether what is read from the bytes, with this digit in their mark, says the same as the batch.
fn is_read(
    alloc: Global,
    schema: &Schema,
    batch: &Batch,
    digit: u8,
    bytes: &[u8],
) -> Result<bool, Fail> {
    let read = read_batch(alloc, schema, 8, marked(alloc, bytes, digit)?.as_slice())?;
    let says = batch_text(alloc, &read);
    drop(read);
    Ok(batch_text(alloc, batch)? == says?)
}

/// Whether the batch is spelled by the bytes, which are as many as its size is, and is read from them in each format of
/// these digits.
fn is_spelled_by(
    alloc: Global,
    schema: &Schema,
    batch: &Batch,
    formats: &str,
    bytes: &[u8],
) -> Result<bool, Fail> {
    for digit in formats.as_bytes() {
        if !is_read(alloc, schema, batch, *digit, bytes)? {
            return Ok(false);
        }
    }
    if batch_size(batch) != bytes.len() as u64 {
        return Ok(false);
    }
    Ok(spelled(alloc, schema, batch)?.as_slice() == bytes)
}

/// Whether the batch of the words has these bytes, which have to be so many.
fn has_spelling(
    alloc: Global,
    schema: &Schema,
    words: &str,
    formats: &str,
    want: &str,
) -> Result<bool, Fail> {
    let (count, bytes) = halves(want, " ")?;
    let count: usize = count.parse()?;
    let bytes = bytes_of(alloc, bytes)?;
    let batch = batch_of(alloc, words)?;
    let is = is_spelled_by(alloc, schema, &batch, formats, bytes.as_slice());
    drop(batch);
    Ok(is? && bytes.len() == count)
}

fn is_spelled(alloc: Global, text: &str) -> Result<bool, Fail> {
    let line = line_of(text)?;
    let schema = schema_named(alloc, line.tables)?;
    let is = has_spelling(alloc, &schema, line.words, line.word, line.want);
    drop(schema);
    is
}

/// Fails with the first line whose batch is spelled otherwise. A line has the batch's tables, the digits of the formats
/// that it is read in, the batch, an arrow, how many bytes it has in GGB2, and these bytes.
fn are_spelled(alloc: Global, lines: &str) -> Result<(), Fail> {
    for line in lines.lines() {
        if !is_spelled(alloc, line)? {
            return Err(Fail::new(line));
        }
    }
    Ok(())
}

const BUILT: &str = "\
two 12 0 1  => 13 GGB2 0 #1 #0
two 12 7 4294967293  => 13 GGB2 7 #4294967293 #0
two 12 0 1 0: 0 1 -> 1 10 => 41 GGB2 0 #1 #1 #0 #1 0 1 @1 @10
two 12 0 65 1: 0 2 -> removed | 64: 0 -1 -> -1 - => 52 GGB2 0 #65 #2 #1 #1 0 2 @2 #64 #1 0 1 @-1 0
two 12 2 5 4: 0 1 -> 1 -; 1 7 'é -> 'é yes 7 | 3: 1 -1 ' -> ' no -1; 1 0 'a -> removed => 88 GGB2 2 #5 #2 #4 #2 0 1 @1 0 1 1 @7 2 0 2 195 169 4 #3 #2 1 1 @-1 2 0 0 3 1 2 @0 2 0 1 97
two 2 0 9 8: 0 1 -> touched; 0 2 -> removed; 1 7 'a -> touched | 7: 1 7 'a -> touched => 81 GGB2 0 #9 #2 #8 #3 0 3 @1 0 2 @2 1 3 @7 2 0 1 97 #7 #1 1 3 @7 2 0 1 97
unique 12 0 1 0: 0 1 -> 1 'a; 64 'a -> 'a 1; 64 'b -> removed => 57 GGB2 0 #1 #1 #0 #3 0 1 @1 2 0 1 97 64 1 2 0 1 97 @1 64 2 2 0 1 98
unique 2 0 1 0: 64 'a -> touched => 27 GGB2 0 #1 #1 #0 #1 64 3 2 0 1 97";

#[test]
fn built_batches_have_their_spellings(rt: HostRuntime) -> Result<(), Fail> {
    are_spelled(rt.alloc(), BUILT)
}

/// Batches whose bytes were worked with their digits.
const WORKED: &str = "\
numbers 12 0 1 0: 0 1 -> 1 10 => 41 x474742320000000001000000010000000000000001000101000000000000000101000000000000000a
numbers 2 0 2 1: 0 1 -> touched => 32 x4747423200000000020000000100000001000000010003010000000000000001
numbers 2 0 2 1: 0 1 -> touched | 1: 0 1 -> 1 20 => 60 x474742320000000002000000020000000100000001000301000000000000000100000001000000010001010000000000000001010000000000000014
numbers 12 0 2  => 13 x47474232000000000200000000";

#[test]
fn worked_batches_are_read_and_spelled(rt: HostRuntime) -> Result<(), Fail> {
    are_spelled(rt.alloc(), WORKED)
}

/// The bytes of the batch of the words over the tables.
fn batch_spelled(alloc: Global, tables: &str, words: &str) -> Result<Vec<u8>, Fail> {
    let batch = batch_of(alloc, words)?;
    let schema = schema_named(alloc, tables)?;
    let bytes = spelled(alloc, &schema, &batch);
    drop(schema);
    drop(batch);
    bytes
}

/// Fails unless the packet of the line has its spelling. A line has the tables, the region that the packet goes to, the
/// batch, an arrow and the packet's bytes.
fn is_packet_spelled(alloc: Global, text: &str) -> Result<(), Fail> {
    let line = line_of(text)?;
    let to = line.word.parse()?;
    let bytes = ByteList::new(batch_spelled(alloc, line.tables, line.words)?);
    let packet = Packet::Batch { to, bytes };
    let found = packet_bytes(alloc, &packet);
    drop(packet);
    let found = found?;
    if found.as_slice() == bytes_of(alloc, line.want)?.as_slice() {
        Ok(())
    } else {
        Err(Fail::new(text))
    }
}

const PACKETS: &str = "\
two 7 0 1  => 1 7 GGB2 0 #1 #0
two 1 0 1 0: 0 1 -> 1 10 => 1 1 GGB2 0 #1 #1 #0 #1 0 1 @1 @10
two 1 0 9 8: 0 1 -> touched; 0 2 -> removed; 1 7 'a -> touched | 7: 1 7 'a -> touched => 1 1 GGB2 0 #9 #2 #8 #3 0 3 @1 0 2 @2 1 3 @7 2 0 1 97 #7 #1 1 3 @7 2 0 1 97
unique 7 0 1 0: 0 1 -> 1 'a; 64 'a -> 'a 1; 64 'b -> removed => 1 7 GGB2 0 #1 #1 #0 #3 0 1 @1 2 0 1 97 64 1 2 0 1 97 @1 64 2 2 0 1 98";

#[test]
fn built_packets_have_their_spellings(rt: HostRuntime) -> Result<(), Fail> {
    for line in PACKETS.lines() {
        is_packet_spelled(rt.alloc(), line)?;
    }
    Ok(())
}
