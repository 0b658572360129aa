//! Fields of bytes: numbers of 1, 2, 4 and 8 bytes, and pieces.
use row_codec::CellReadFault;
use row_codec::fields::{read_byte, read_field, read_u16, read_u32, read_u64};
use std::test::Fail;

const BYTES: [u8; 10] = [9, 1, 2, 3, 4, 5, 6, 7, 8, 255];

type Read<N> = Result<(N, usize), CellReadFault>;

/// The number of so many bytes at the place, and the place behind it; or of a piece its last byte.
fn number_at(at: usize, width: usize) -> Read<u64> {
    if at > BYTES.len() {
        return Err(CellReadFault::Short(at));
    }
    if width == 1 {
        let read: Read<u8> = read_byte(&BYTES, at);
        let (number, next) = read?;
        return Ok((u64::from(number), next));
    }
    if width == 2 {
        let read: Read<u16> = read_u16(&BYTES, at);
        let (number, next) = read?;
        return Ok((u64::from(number), next));
    }
    if width == 4 {
        let read: Read<u32> = read_u32(&BYTES, at);
        let (number, next) = read?;
        return Ok((u64::from(number), next));
    }
    if width == 8 {
        return read_u64(&BYTES, at);
    }
    let read: Read<&[u8]> = read_field(&BYTES, at, width);
    let (piece, next) = read?;
    Ok((piece.last().map_or(0, |last| u64::from(*last)), next))
}

/// A place, a width, and what is read. The greatest byte of a number comes first, and a field that isn't all
/// there is short at the bytes' end.
const FIELDS: [(usize, usize, Read<u64>); 15] = [
    (0, 0, Ok((0, 0))),
    (10, 0, Ok((0, 10))),
    (0, 1, Ok((9, 1))),
    (9, 1, Ok((255, 10))),
    (10, 1, Err(CellReadFault::Short(10))),
    (1, 2, Ok((0x0102, 3))),
    (8, 2, Ok((0x08ff, 10))),
    (9, 2, Err(CellReadFault::Short(10))),
    (1, 3, Ok((3, 4))),
    (8, 3, Err(CellReadFault::Short(10))),
    (1, 4, Ok((0x0102_0304, 5))),
    (7, 4, Err(CellReadFault::Short(10))),
    (1, 8, Ok((0x0102_0304_0506_0708, 9))),
    (2, 8, Ok((0x0203_0405_0607_08ff, 10))),
    (3, 8, Err(CellReadFault::Short(10))),
];

#[test]
fn fields_are_read_at_their_places(rt: HostRuntime) -> Result<(), Fail> {
    for (at, width, wanted) in FIELDS {
        assert_eq!(rt; number_at(at, width), wanted, "{at} {width}");
    }
    Ok(())
}
