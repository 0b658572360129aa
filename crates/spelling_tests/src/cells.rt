//! Cells as words: `-` is NULL, `no` and `yes` are truths, `'` begins a text, and all else is a number.
use geo_base::{Cell, Txt};
use std::alloc::Global;
use std::test::Fail;

fn cell_of(alloc: Global, word: &str) -> Result<Cell, Fail> {
    match word {
        "-" => Ok(Cell::Null),
        "no" => Ok(Cell::Truth(false)),
        "yes" => Ok(Cell::Truth(true)),
        _ => other_cell_of(alloc, word),
    }
}

fn other_cell_of(alloc: Global, word: &str) -> Result<Cell, Fail> {
    match word.strip_prefix('\'') {
        Some(text) => Ok(Cell::Text(Txt::new(alloc, text)?)),
        None => Ok(Cell::Int(word.parse()?)),
    }
}

/// The cells of the words of a line.
pub fn cells_of(alloc: Global, words: &str) -> Result<Vec<Cell>, Fail> {
    let mut cells = Vec::new(alloc);
    for word in words.split_whitespace() {
        cells.push(cell_of(alloc, word)?)?;
    }
    Ok(cells)
}
