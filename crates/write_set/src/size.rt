//! How many bytes changes have when they are spelled, without spelling them.
ghost use Rattle.std.specs.Prelude.{◌≡◌, ◌≤◌, ◌*◌, length, sum_by};
ghost use Rattle.geo_base.specs.declared.limits.TheConstants.{MAX_ROW_CELLS, MAX_SET_ROWS};
ghost use Rattle.write_set.specs.Sizes.{cell_size, change_size, set_size};

use crate::change::Change;
use crate::limits::{MAX_CELL_BYTES, MAX_CHANGE_BYTES};
use geo_base::{Cell, RowId};

fn cell_size(cell: &Cell) -> u64
    ensures size { result ≡ cell_size cell.now }
    ensures few { result ≤ MAX_CELL_BYTES }
{
    match cell {
        Cell::Null | Cell::Truth(_) => 1,
        Cell::Int(_) => 9,
        Cell::Text(text) => 3 + text.text().len() as u64,
    }
}

fn cells_size(cells: &[Cell]) -> u64
    requires { length cells.now ≤ MAX_ROW_CELLS }
    ensures size { result ≡ sum_by cell_size cells.now }
    ensures few { result ≤ MAX_CELL_BYTES * length cells.now }
{
    let mut size = 0;
    for cell in cells {
        size += cell_size(cell);
    }
    size
}

/// The bytes of the spelling of a change of the row.
pub(crate) fn change_size(row: &RowId, change: &Change) -> u64
    ensures size { result ≡ change_size (row.now, change.now) }
    ensures few { result ≤ MAX_CHANGE_BYTES }
{
    match change {
        Change::Put(image) => 2 + cells_size(image.cells()),
        Change::Remove | Change::Touch => 2 + cells_size(row.key.cells()),
    }
}

/// The bytes of the spellings of the changes. The cost is the number of their cells.
pub(crate) fn changes_size(changes: &[(RowId, Change)]) -> u64
    requires { length changes.now ≤ MAX_SET_ROWS }
    ensures size { result ≡ set_size changes.now }
    ensures few { result ≤ MAX_CHANGE_BYTES * length changes.now }
{
    let mut size = 0;
    for (row, change) in changes {
        size += change_size(row, change);
    }
    size
}
