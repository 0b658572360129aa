//! Cells as words: `-` is NULL, and all else is a number.
use geo_base::Cell;
use std::alloc::Global;
use std::test::Fail;

/// The cells of the words of a line.
pub fn cells_of(alloc: Global, words: &str) -> Result<Vec<Cell>, Fail> {
    let mut cells = Vec::new(alloc);
    for word in words.split_whitespace() {
        if word == "-" {
            cells.push(Cell::Null)?;
        } else {
            cells.push(Cell::Int(word.parse()?))?;
        }
    }
    Ok(cells)
}
