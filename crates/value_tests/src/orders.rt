//! The orders of keys, rows, lines, names of rows and lists: items that rise are compared with each other.
use crate::words::cells_of;
use geo_base::{Key, Line, RowId, RowImage, TableNo};
use std::alloc::Global;
use std::test::Fail;

/// The places of two items, if there are such, that don't compare as their places do.
pub fn out_of_order<T: Ord>(items: &[T]) -> Option<(usize, usize)> {
    for (i, a) in items.iter().enumerate() {
        for (j, b) in items.iter().enumerate() {
            if a.cmp(b) != i.cmp(&j) || (a == b) != (i == j) || (a < b) != (i < j) {
                return Some((i, j));
            }
        }
    }
    None
}

/// Keys: a number, a text and a truth, numbers by value, texts by bytes, the first cell before the second,
/// and a key that begins another before it.
const KEYS: [&str; 25] = [
    "-9223372036854775808",
    "-2",
    "-2 -2",
    "-2 7",
    "-2 7 -9",
    "-2 '",
    "-2 no",
    "7 -2",
    "7 10",
    "10",
    "'",
    "'10",
    "'7",
    "'Z",
    "'a",
    "'a 7",
    "'a 7 7 7",
    "'a 7 7 8",
    "'a 'a",
    "'ab",
    "'é",
    "no",
    "no yes",
    "yes",
    "yes no",
];

fn keys(alloc: Global) -> Result<Vec<Key>, Fail> {
    let mut keys = Vec::new(alloc);
    for words in KEYS {
        keys.push(Key::new(cells_of(alloc, words)?)?)?;
    }
    Ok(keys)
}

#[test]
fn keys_rise_cell_by_cell(rt: HostRuntime) -> Result<(), Fail> {
    assert_eq!(rt; out_of_order(&keys(rt.alloc())?), None);
    Ok(())
}

/// Rows and lines: NULL is less than a number.
pub const LINES: [&str; 18] = [
    "-",
    "- -",
    "- - -",
    "- -5",
    "- yes",
    "-5",
    "-5 -",
    "-5 -5",
    "-5 'x",
    "3",
    "'",
    "' -",
    "no",
    "no -",
    "no no",
    "no yes",
    "yes",
    "yes - - - - yes",
];

fn lines(alloc: Global) -> Result<Vec<Line>, Fail> {
    let mut lines = Vec::new(alloc);
    for words in LINES {
        lines.push(Line::new(cells_of(alloc, words)?)?)?;
    }
    Ok(lines)
}

fn images(alloc: Global) -> Result<Vec<RowImage>, Fail> {
    let mut images = Vec::new(alloc);
    for words in LINES {
        images.push(RowImage::new(cells_of(alloc, words)?)?)?;
    }
    Ok(images)
}

#[test]
fn rows_and_lines_rise_cell_by_cell(rt: HostRuntime) -> Result<(), Fail> {
    let of_lines = out_of_order(&lines(rt.alloc())?);
    let of_rows = out_of_order(&images(rt.alloc())?);
    assert_eq!(rt; (of_lines, of_rows), (None, None));
    Ok(())
}

/// Names of rows: the table before the key.
const ROWS: [(TableNo, &str); 7] = [
    (0, "yes"),
    (1, "-2"),
    (1, "-2 7"),
    (1, "'"),
    (2, "-2"),
    (2, "no"),
    (255, "-9"),
];

fn rows(alloc: Global) -> Result<Vec<RowId>, Fail> {
    let mut rows = Vec::new(alloc);
    for (table, words) in ROWS {
        let key = Key::new(cells_of(alloc, words)?)?;
        rows.push(RowId { table, key })?;
    }
    Ok(rows)
}

#[test]
fn names_of_rows_rise_by_table_and_then_by_key(rt: HostRuntime) -> Result<(), Fail> {
    assert_eq!(rt; out_of_order(&rows(rt.alloc())?), None);
    Ok(())
}
