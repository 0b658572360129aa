//! The cells of a row in the columns of an index.
ghost use Rattle.std.specs.Prelude.{◌≡◌, slice_index_or, IfOk};
ghost use Rattle.geo_base.specs.declared.cell.Cell.TheVariants as null;
ghost use Rattle.geo_schema.specs.Indexes.{index_cells};

use crate::index::IndexDef;
use geo_base::{Cell, Duplicate, NoMemory};
use std::alloc::Global;

/// Copies of a row's cells in the columns of the index, in its order.
pub fn index_cells(alloc: Global, index: &IndexDef, cells: &[Cell]) -> Result<Vec<Cell>, NoMemory>
    ensures { IfOk result (λ found. found.items ≡ index_cells index.now cells.now) }
{
    let mut found = Vec::with_capacity(alloc, index.columns.items().len())?;
    for place in index.columns.items() {
        found.push(cell_at(alloc, cells, *place)?)?;
    }
    Ok(found)
}

/// A copy of the cell at the place, and NULL behind the last one.
fn cell_at(alloc: Global, cells: &[Cell], place: u8) -> Result<Cell, NoMemory>
    ensures { IfOk result (λ cell. cell ≡ slice_index_or cells.now place null.Null) }
{
    match cells.get(usize::from(place)) {
        Some(cell) => cell.copy(alloc),
        None => Ok(Cell::Null),
    }
}
