//! Cells as words: `-` is NULL, a word behind a `'` is a text, `*9` is a text of nine letters, `yes` and `no` are truth
//! values, and all else is a number.
use geo_base::{Cell, Txt};
use std::alloc::Global;
use std::test::Fail;

fn cell_of(alloc: Global, word: &str) -> Result<Cell, Fail> {
    if let Some(text) = word.strip_prefix('\'') {
        return Ok(Cell::Text(Txt::new(alloc, text)?));
    }
    if let Some(count) = word.strip_prefix('*') {
        let text = "x".repeat(alloc, count.parse()?)?;
        return Ok(Cell::Text(Txt::new(alloc, text.as_str())?));
    }
    Ok(match word {
        "-" => Cell::Null,
        "yes" => Cell::Truth(true),
        "no" => Cell::Truth(false),
        _ => Cell::Int(word.parse()?),
    })
}

/// The cells of the words of a line.
pub fn cells_of(alloc: Global, words: &str) -> Result<Vec<Cell>, Fail> {
    let mut cells = Vec::new(alloc);
    for word in words.split_whitespace() {
        cells.push(cell_of(alloc, word)?)?;
    }
    Ok(cells)
}
