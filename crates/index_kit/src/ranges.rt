//! Ranges as texts: two edges with ` .. ` between them.
use geo_schema::{CellList, Edge, KeyRange};
use rows_kit::cells_of;
use std::alloc::Global;
use std::test::Fail;

/// The edge of a text: `[` before cells that are within, `(` before cells that are outside, and `open` for no bound.
fn edge_of(alloc: Global, text: &str) -> Result<Edge, Fail> {
    if text == "open" {
        return Ok(Edge::Open);
    }
    if let Some(words) = text.strip_prefix('[') {
        return Ok(Edge::Incl(CellList::new(cells_of(alloc, words)?)));
    }
    let words = text.strip_prefix('(').ok_or("no edge")?;
    Ok(Edge::Excl(CellList::new(cells_of(alloc, words)?)))
}

/// The range of a text.
pub fn range_of(alloc: Global, text: &str) -> Result<KeyRange, Fail> {
    let (low, high) = text.split_once(" .. ").ok_or("a range without edges")?;
    Ok(KeyRange {
        low: edge_of(alloc, low)?,
        high: edge_of(alloc, high)?,
    })
}
