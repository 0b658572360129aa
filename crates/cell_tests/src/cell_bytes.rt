//! Cells as bytes: spellings, faults with their places, and bytes of any kind.
use crate::bytes::bytes_of;
use crate::cells::{cell_of, cells_of};
use geo_base::Key;
use row_codec::{CellReadFault, cell_bytes, cell_size, key_bytes, read_cell, read_cells};
use std::alloc::Global;
use std::test::Fail;

const LETTER: [u8; 5] = [2, 0, 2, 0xc3, 0xa9];

/// Whether the cell of the word has this spelling, of this size.
fn is_written(alloc: Global, word: &str, want: &[u8]) -> Result<bool, Fail> {
    let cell = cell_of(alloc, word)?;
    let mut out = Vec::new(alloc);
    cell_bytes(&cell, &mut out)?;
    Ok(out.as_slice() == want && cell_size(&cell) == want.len() as u64)
}

/// Whether the bytes are read as the cell of the word.
fn is_read(alloc: Global, word: &str, bytes: &[u8]) -> Result<bool, Fail> {
    let cell = cell_of(alloc, word)?;
    let (read, next) = read_cell(alloc, bytes, 0)?;
    Ok(read == cell && next == bytes.len())
}

fn is_spelled(alloc: Global, word: &str, words: &str) -> Result<bool, Fail> {
    let bytes = bytes_of(alloc, words)?;
    Ok(is_written(alloc, word, &bytes)? && is_read(alloc, word, &bytes)?)
}

#[test]
fn each_cell_has_its_spelling(rt: HostRuntime) -> Result<(), Fail> {
    for (word, bytes) in [
        ("-", "0"),
        ("-1", "1 255 255 255 255 255 255 255 255"),
        ("258", "1 0 0 0 0 0 0 1 2"),
        ("9223372036854775807", "1 127 255 255 255 255 255 255 255"),
        ("-9223372036854775808", "1 128 0 0 0 0 0 0 0"),
        ("'", "2 0 0"),
        ("'é", "2 0 2 195 169"),
        ("no", "3"),
        ("yes", "4"),
    ] {
        assert!(rt; is_spelled(rt.alloc(), word, bytes)?, "{word}");
    }
    Ok(())
}

/// The fault of the cell at the place.
fn fault_of(alloc: Global, words: &str, at: usize) -> Result<Option<CellReadFault>, Fail> {
    let bytes = bytes_of(alloc, words)?;
    if at > bytes.len() {
        return Err("a place behind the end".into());
    }
    Ok(read_cell(alloc, &bytes, at).err())
}

#[test]
fn each_fault_of_a_cell_has_its_place(rt: HostRuntime) -> Result<(), Fail> {
    for (at, bytes, fault) in [
        (0, "", CellReadFault::Short(0)),
        (0, "5", CellReadFault::BadTag(0)),
        (0, "1 0 0 0 0 0 0 0", CellReadFault::Short(8)),
        (0, "2 1", CellReadFault::Short(2)),
        (0, "2 4 0", CellReadFault::Short(3)),
        (0, "2 4 1", CellReadFault::TooLong(1)),
        (0, "2 0 1 255", CellReadFault::BadUtf8(3)),
        (2, "9 9 2 0 1 255", CellReadFault::BadUtf8(5)),
    ] {
        assert_eq!(rt; fault_of(rt.alloc(), bytes, at)?, Some(fault), "{bytes}");
    }
    Ok(())
}

/// The bytes of a front, and 1,025 letters behind them.
fn with_letters(alloc: Global, front: &str) -> Result<Vec<u8>, Fail> {
    let mut bytes = bytes_of(alloc, front)?;
    bytes.extend_from_slice(&[b'x'; 1025])?;
    Ok(bytes)
}

/// The place behind the cell at the first byte, or the fault that it has.
fn end_of(alloc: Global, bytes: &[u8]) -> Result<usize, CellReadFault> {
    let (_, next) = read_cell(alloc, bytes, 0)?;
    Ok(next)
}

#[test]
fn spelled_texts_have_at_most_1024_bytes(rt: HostRuntime) -> Result<(), Fail> {
    for (front, end) in [
        ("2 4 0", Ok(1027)),
        ("2 4 1", Err(CellReadFault::TooLong(1))),
    ] {
        let bytes = with_letters(rt.alloc(), front)?;
        assert_eq!(rt; end_of(rt.alloc(), &bytes), end, "{front}");
    }
    Ok(())
}

/// The spelling of the key of these words.
fn spelled_key(alloc: Global, words: &str) -> Result<Vec<u8>, Fail> {
    let key = Key::new(cells_of(alloc, words)?)?;
    let mut out = Vec::new(alloc);
    key_bytes(&key, &mut out)?;
    Ok(out)
}

#[test]
fn keys_have_their_spellings(rt: HostRuntime) -> Result<(), Fail> {
    for (words, bytes) in [
        ("'", "2 0 0"),
        ("-1 no", "@-1 3"),
        ("yes 'é 258 '", "4 2 0 2 195 169 @258 2 0 0"),
    ] {
        let spelled = spelled_key(rt.alloc(), words)?;
        let wanted = bytes_of(rt.alloc(), bytes)?;
        assert_eq!(rt; spelled.as_slice(), wanted.as_slice(), "{words}");
    }
    Ok(())
}

/// How many cells are read from the place on, of so many that are wanted, and the place behind them.
fn read_from(
    alloc: Global,
    bytes: &[u8],
    at: usize,
    count: u8,
) -> Result<(usize, usize), CellReadFault> {
    if at > bytes.len() {
        return Err(CellReadFault::Short(at));
    }
    let (cells, next) = read_cells(alloc, bytes, at, count)?;
    Ok((cells.len(), next))
}

/// A place, a count, bytes, and what is read: how many cells and the place behind them, or the fault. A cell
/// of a number has 9 bytes.
const CELLS: &str = "\
0 0 9 9 => Ok((0, 0))
2 0 9 9 => Ok((0, 2))
0 2 @1 0 => Ok((2, 10))
0 2 @1 0 9 => Ok((2, 10))
1 3 9 2 0 1 97 4 3 => Ok((3, 7))
0 2 @1 => Err(Short(9))
0 2 @1 5 => Err(BadTag(9))
0 2 @1 2 0 => Err(Short(11))
0 2 @1 2 0 2 97 => Err(Short(13))
0 2 @1 2 4 1 => Err(TooLong(10))
0 2 @1 2 0 1 255 => Err(BadUtf8(12))
1 2 9 @1 5 => Err(BadTag(10))
0 3 0 4 7 => Err(BadTag(2))
0 2 2 0 1 255 5 => Err(BadUtf8(3))";

fn is_answered(alloc: Global, line: &str) -> Result<bool, Fail> {
    let (asked, want) = line.split_once(" => ").ok_or("a line without an answer")?;
    let (at, rest) = asked.split_once(' ').ok_or("a line without a place")?;
    let (count, words) = rest.split_once(' ').ok_or("a line without a count")?;
    let (at, count): (u8, u8) = (at.parse()?, count.parse()?);
    let bytes = bytes_of(alloc, words)?;
    let found = read_from(alloc, &bytes, usize::from(at), count);
    Ok(format!(in alloc; "{found:?}")?.as_str() == want)
}

#[test]
fn cells_behind_the_first_have_their_faults(rt: HostRuntime) -> Result<(), Fail> {
    for line in CELLS.lines() {
        assert!(rt; is_answered(rt.alloc(), line)?, "{line}");
    }
    Ok(())
}

/// Whether the bytes are read as the three cells of the words.
fn are_read(alloc: Global, words: &str, bytes: &[u8]) -> Result<bool, Fail> {
    let cells = cells_of(alloc, words)?;
    let (read, next) = read_cells(alloc, bytes, 0, 3)?;
    Ok(read.as_slice() == cells.as_slice() && next == bytes.len())
}

#[test]
fn a_cut_key_is_short(rt: HostRuntime) -> Result<(), Fail> {
    let alloc = rt.alloc();
    let words = "7 'é_and_more yes";
    let bytes = spelled_key(alloc, words)?;
    assert!(rt; are_read(alloc, words, &bytes)?);
    for cut in 0..bytes.len() {
        let read = read_cells(alloc, &bytes[..cut], 0, 3);
        assert_eq!(rt; read.err(), Some(CellReadFault::Short(cut)));
    }
    Ok(())
}

/// Whether the cell at the first byte, if there is one, is spelled as it stands there.
fn is_read_as_it_is(alloc: Global, bytes: &[u8]) -> Result<bool, Fail> {
    match read_cell(alloc, bytes, 0) {
        Ok((cell, next)) => {
            let mut out = Vec::new(alloc);
            cell_bytes(&cell, &mut out)?;
            Ok(out.as_slice() == &bytes[..next])
        }
        Err(fault) => Ok(fault != CellReadFault::NoMemory),
    }
}

#[test]
fn what_is_read_is_spelled_so(rt: HostRuntime) -> Result<(), Fail> {
    for place in 0..LETTER.len() {
        for byte in 0..=u8::MAX {
            let mut bytes = LETTER;
            bytes[place] = byte;
            assert!(rt; is_read_as_it_is(rt.alloc(), &bytes)?, "{bytes:?}");
        }
    }
    Ok(())
}
