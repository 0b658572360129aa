//! Whether cells are a row of a table, and the key of a row.
ghost use Rattle.std.specs.Prelude.{◌≡◌, ◌<◌, ◌≤◌, length, map, slice_index_or, IfOk, MatchOption};
ghost use Rattle.std.specs.List.{All};
ghost use Rattle.geo_base.specs.declared.limits.TheConstants.{MAX_COLUMNS};
ghost use Rattle.geo_schema.specs.Rows.{is_too_long, is_in, Suits, IsCause, IsRow, key_cells};
ghost use Rattle.geo_schema.specs.Tables.{TakesRows};
ghost use Rattle.geo_schema.specs.inner.Rows.{cell_fault, row_fault};

use crate::column::{ColumnDef, Kind};
use crate::fault::CellFault;
use crate::table::TableDef;
use geo_base::{Cell, Duplicate, Key, NoMemory};
use std::alloc::Global;

fn is_too_long(kind: Kind, cell: &Cell) -> bool
    ensures { result ≡ is_too_long kind cell.now }
{
    match (kind, cell) {
        (Kind::Text { max }, Cell::Text(text)) => text.text().len() > max as usize,
        _ => false,
    }
}

/// Whether the column at the place is of the key. Takes a step for each key place.
pub fn is_in(key: &[u8], place: u8) -> bool
    ensures { result ≡ is_in key.now place }
{
    key.iter().any(|p| *p == place)
}

/// What is wrong with the cell of the column at the place, where the table has that key: its type, or a
/// NULL where none may be, or its length. Takes a step for each key place.
#[tactic(auto, using(crate::specs::laws::Fits::suits, crate::specs::laws::Fits::cause_found))]
pub fn cell_fault(key: &[u8], column: &ColumnDef, place: u8, cell: &Cell) -> Option<CellFault>
    ensures { MatchOption result
        (Suits key.now column.now place cell.now)
        (λ why. IsCause key.now column.now place cell.now why) }
{
    first_cause(key, column, place, cell)
}

#[tactic(auto, unfolding(crate::specs::inner::Rows::cell_fault))]
fn first_cause(key: &[u8], column: &ColumnDef, place: u8, cell: &Cell) -> Option<CellFault>
    ensures { result ≡ cell_fault key.now column.now place cell.now }
{
    if !cell.has_type(column.kind.cell_type()) {
        return Some(CellFault::TypeClash(place));
    }
    if cell.is_null() && (column.not_null || is_in(key, place)) {
        return Some(CellFault::NullNotAllowed(place));
    }
    if is_too_long(column.kind, cell) {
        return Some(CellFault::TextTooLong(place));
    }
    None
}

/// Why the cells are no row of the table, if they are none. Takes a step for each cell and key place.
#[tactic(auto, unfolding(crate::specs::inner::Rows::row_fault))]
pub(crate) fn row_fault(table: &TableDef, cells: &[Cell]) -> Option<CellFault>
    requires { length table.now.columns ≤ MAX_COLUMNS }
    ensures { result ≡ row_fault table.now cells.now }
{
    let columns = table.columns.items();
    if cells.len() != columns.len() {
        return Some(CellFault::WrongCount);
    }
    for (place, cell) in cells.iter().enumerate() {
        let fault = first_cause(table.key.items(), &columns[place], place as u8, cell);
        if fault.is_some() {
            return fault;
        }
    }
    None
}

/// The key of a row that fits the table.
#[tactic(auto, unfolding(crate::specs::Rows::key_cells))]
pub(crate) fn key_of_row(alloc: Global, table: &TableDef, cells: &[Cell]) -> Result<Key, NoMemory>
    requires rules { TakesRows table.now }
    requires fits { IsRow table.now cells.now }
    ensures { IfOk result (λ key. key ≡ key_cells table.now cells.now) }
{
    let copies = copy_places(alloc, table.key.items(), cells)?;
    Ok(Key::new(copies).unwrap())
}

/// Copies of the cells at the places, in the order of the places.
fn copy_places(alloc: Global, places: &[u8], cells: &[Cell]) -> Result<Vec<Cell>, NoMemory>
    requires { All (λ place. place < length cells.now) places.now }
    ensures { IfOk result (λ copies. copies.items ≡ map (λ place. slice_index_or cells.now place Cell.Null) places.now) }
{
    let mut copies = Vec::with_capacity(alloc, places.len())?;
    for place in places {
        copies.push(cells[*place as usize].copy(alloc)?)?;
    }
    Ok(copies)
}
