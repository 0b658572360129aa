//! Packets as bytes: spellings, faults with their places, and the limit of a batch's bytes.
use crate::told::{Form, are_told};
use codec_kit::{bytes_of, schema_named};
use set_codec::{Packet, packet_bytes, read_packet};
use std::alloc::Global;
use std::test::Fail;

/// Whether the packet by which region 1 asks region 0 for epoch 1 is spelled by the words.
fn is_fetch_spelled(alloc: Global, words: &str) -> Result<bool, Fail> {
    let wanted = bytes_of(alloc, words)?;
    let packet = Packet::Fetch {
        from: 1,
        to: 0,
        epoch: 1,
    };
    let found = packet_bytes(alloc, &packet);
    drop(packet);
    Ok(found?.as_slice() == wanted.as_slice())
}

#[test]
fn a_fetch_has_its_spelling(rt: HostRuntime) -> Result<(), Fail> {
    assert!(rt; is_fetch_spelled(rt.alloc(), "2 1 0 0 0 0 1")?);
    Ok(())
}

/// Fails unless the packet is read and spelled as it stands.
fn is_read_as_it_is(alloc: Global, words: &str) -> Result<(), Fail> {
    let bytes = bytes_of(alloc, words)?;
    let schema = schema_named(alloc, "numbers")?;
    let packet = read_packet(alloc, &schema, 2, &bytes);
    drop(schema);
    let packet = packet?;
    let found = packet_bytes(alloc, &packet);
    drop(packet);
    if found?.as_slice() == bytes.as_slice() {
        Ok(())
    } else {
        Err(Fail::new(words))
    }
}

/// One that asks for a batch, and one with a batch in each format.
const PACKETS: &str = "\
2 1 0 0 0 0 1
1 1 GGB1 0 #1 #1 #0 #1 0 1 @1 @10
1 1 GGB2 0 #1 #1 #0 #1 0 3 @1";

#[test]
fn packets_are_spelled_as_they_are_read(rt: HostRuntime) -> Result<(), Fail> {
    for words in PACKETS.lines() {
        is_read_as_it_is(rt.alloc(), words)?;
    }
    Ok(())
}

/// Packets between regions with a table of numbers.
const TOLD: &str = "\
numbers 2  => Short(0)
numbers 2 1 => Short(1)
numbers 2 2 => Short(1)
numbers 2 2 1 0 0 0 => Short(5)
numbers 2 0 1 0 #1 => BadTag(0)
numbers 2 3 1 0 #1 0 => BadTag(0)
numbers 2 2 2 0 #1 0 => BadTag(1)
numbers 8 2 7 0 #1 => fits
numbers 8 2 8 0 #1 => BadTag(1)
numbers 2 2 1 1 #1 => BadTag(2)
numbers 2 2 1 1 #1 0 => BadTag(2)
numbers 8 2 0 7 #1 => fits
numbers 8 2 0 8 #1 => BadTag(2)
numbers 2 2 1 0 #0 0 => BadTag(3)
numbers 2 2 1 0 #4294967293 => fits
numbers 2 2 1 0 #4294967294 => BadTag(3)
numbers 2 2 1 0 #1 0 => Trailing(7)
numbers 2 1 2 GGB1 0 0 => BadTag(1)
numbers 8 1 7 GGB1 0 #1 #0 => fits
numbers 8 1 8 GGB1 0 #1 #0 => BadTag(1)
numbers 2 1 0 GGB1 0 0 => BadTag(1)
numbers 2 1 0 71 71 66 48 0 0 => BadTag(2)
numbers 2 1 0 71 71 66 51 0 0 => BadTag(2)
numbers 2 1 1 GGB2 0 #1 #0 => fits
numbers 2 1 0 GGB2 0 0 => BadTag(1)
numbers 2 1 1 GGB2 2 0 => BadTag(6)
numbers 2 1 1 GGB2 0 #1 #1 #0 #1 0 3 @1 => fits
numbers 2 1 1 GGB1 0 #1 #1 #0 #1 0 3 @1 => BadTag(24)
numbers 2 1 1 GGB2 0 #1 #1 #0 #1 0 4 @1 => BadTag(24)
numbers 2 1 1 GGB1 2 0 => BadTag(6)
numbers 8 1 0 GGB1 7 #1 #0 => fits
numbers 8 1 0 GGB1 8 #1 #0 => BadTag(6)
numbers 2 1 1 GGB1 0 0 => Short(8)
numbers 2 1 1 GGB1 0 #1 #0 0 => Trailing(15)
numbers 2 1 1 GGB1 0 #1 #4097 => OverLimit(11, Candidates)";

#[test]
fn bytes_of_packets_are_told(rt: HostRuntime) -> Result<(), Fail> {
    are_told(rt.alloc(), Form::Packet, "", TOLD)
}

/// Batches of one candidate: 1,024 rows of 1,024 bytes have 1,048,576.
const SETS: &str = "\
texts 1 GGB2 0 #1 #1 %1024,1010 => fits
texts 1 GGB2 0 #1 #1 %1024,1011 => OverLimit(13, SetBytes)
texts 1 GGB2 0 #1 #1 %1024,1024 => OverLimit(13, SetBytes)
texts 1 GGB2 0 #1 #1 %1025,0 => OverLimit(17, Rows)";

#[test]
fn limits_of_a_candidate(rt: HostRuntime) -> Result<(), Fail> {
    are_told(rt.alloc(), Form::Batch, "", SETS)
}

/// Batches of four candidates of 1,024 rows, of which three have as many bytes as they may, and what stands before
/// them. With 965 letters in the first row of the last candidate a batch has 13 bytes, and four times 8 and 1,048,576,
/// but 45: 4,194,304.
const LONG_BATCHES: &str = "\
texts 2 GGB1 0 #1 #4 %1024,1010 %1024,1010 %1024,1010 %1024,965 => fits
texts 2 GGB1 0 #1 #4 %1024,1010 %1024,1010 %1024,1010 %1024,966 => OverLimit(4194304, BatchBytes)
texts 2 1 1 GGB1 0 #1 #4 %1024,1010 %1024,1010 %1024,1010 %1024,965 => OverLimit(4194304, BatchBytes)
texts 2 1 1 GGB1 0 #1 #4 %1024,1010 %1024,1010 %1024,1010 %1024,966 => OverLimit(4194304, BatchBytes)
texts 2 1 1 0 GGB1 0 #1 #4 %1024,1010 %1024,1010 %1024,1010 %1024,965 => OverLimit(4194304, BatchBytes)
texts 2 1 0 GGB1 0 #1 #4 %1024,1010 %1024,1010 %1024,1010 %1024,966 => OverLimit(4194304, BatchBytes)
texts 2 1 2 GGB1 0 #1 #4 %1024,1010 %1024,1010 %1024,1010 %1024,966 => OverLimit(4194304, BatchBytes)";

/// The same as packets.
const LONG_PACKETS: &str = "\
texts 2 GGB1 0 #1 #4 %1024,1010 %1024,1010 %1024,1010 %1024,965 => BadTag(0)
texts 2 GGB1 0 #1 #4 %1024,1010 %1024,1010 %1024,1010 %1024,966 => BadTag(0)
texts 2 1 1 GGB1 0 #1 #4 %1024,1010 %1024,1010 %1024,1010 %1024,965 => fits
texts 2 1 1 GGB1 0 #1 #4 %1024,1010 %1024,1010 %1024,1010 %1024,966 => OverLimit(4194306, BatchBytes)
texts 2 1 1 0 GGB1 0 #1 #4 %1024,1010 %1024,1010 %1024,1010 %1024,965 => OverLimit(4194306, BatchBytes)
texts 2 1 0 GGB1 0 #1 #4 %1024,1010 %1024,1010 %1024,1010 %1024,966 => OverLimit(4194306, BatchBytes)
texts 2 1 2 GGB1 0 #1 #4 %1024,1010 %1024,1010 %1024,1010 %1024,966 => BadTag(1)";

#[test]
fn limits_of_a_batch(rt: HostRuntime) -> Result<(), Fail> {
    are_told(rt.alloc(), Form::Batch, "", LONG_BATCHES)?;
    are_told(rt.alloc(), Form::Packet, "", LONG_PACKETS)
}
