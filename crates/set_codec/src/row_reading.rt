//! The cells of rows, each tested against its column once it is read.
ghost use Rattle.std.specs.Prelude.{◌≡◌, ◌≤◌, ◌<◌, length, position, nat_eq, is_none, slice_index_or, IfOk, IfSome};
ghost use Rattle.geo_base.specs.Results.{Gives};
ghost use Rattle.geo_schema.specs.Tables.{TakesRows, no_column};
ghost use Rattle.geo_schema.specs.inner.Rows.{cell_fault};
ghost use Rattle.row_codec.specs.inner.Reading.{cell_at};
ghost use Rattle.set_codec.specs.declared.fault.CodecFault.TheVariants.{NoMemory};
ghost use Rattle.set_codec.specs.inner.Reading.{lifted, taken_at, key_at, row_cell_at, next_cell_at, row_at};

use crate::fault::CodecFault;
use geo_base::{Cell, Duplicate, Key};
use geo_schema::{ColumnDef, TableDef, cell_fault};
use row_codec::read_cell;
use std::alloc::Global;

fn read_any_cell(alloc: Global, bytes: &[u8], at: usize) -> Result<(Cell, usize), CodecFault>
    requires { at ≤ length bytes.now }
    ensures exact { Gives NoMemory (λ x. x) result (lifted (cell_at bytes.now at)) }
    ensures within { IfOk result (λ x. x.1 ≤ length bytes.now) }
{
    Ok(read_cell(alloc, bytes, at)?)
}

fn column_at(table: &TableDef, place: u8) -> &ColumnDef
    requires { place < length table.now.columns }
    ensures { result.now ≡ slice_index_or table.entry.now.columns place no_column }
{
    &table.columns.items()[place as usize]
}

/// Whether the column at the place takes the cell.
#[tactic(auto, using(crate::specs::laws::Rows::suits_faultless, crate::specs::laws::Rows::cause_faulty))]
fn is_taken(table: &TableDef, place: u8, cell: &Cell) -> bool
    requires { place < length table.now.columns }
    ensures { result ≡ is_none (cell_fault table.now.key (slice_index_or table.now.columns place no_column) place cell.now) }
{
    match cell_fault(table.key.items(), column_at(table, place), place, cell) {
        None => true,
        Some(_) => false,
    }
}

/// A cell that is taken by the column at the place.
#[tactic(auto, unfolding(crate::specs::inner::Reading::taken_at))]
fn read_taken(
    alloc: Global,
    table: &TableDef,
    place: u8,
    bytes: &[u8],
    at: usize,
) -> Result<(Cell, usize), CodecFault>
    requires place { at ≤ length bytes.now }
    requires column { place < length table.now.columns }
    ensures exact { Gives NoMemory (λ x. x) result (taken_at table.now place bytes.now at) }
    ensures within { IfOk result (λ x. x.1 ≤ length bytes.now) }
{
    let (cell, next) = read_any_cell(alloc, bytes, at)?;
    if !is_taken(table, place, &cell) {
        return Err(CodecFault::BadRow(at));
    }
    Ok((cell, next))
}

/// The cells of a key of the table.
#[tactic(auto, unfolding(crate::specs::inner::Reading::key_at))]
fn read_key_cells(
    alloc: Global,
    table: &TableDef,
    bytes: &[u8],
    at: usize,
) -> Result<(Vec<Cell>, usize), CodecFault>
    requires place { at ≤ length bytes.now }
    requires rows { TakesRows table.now }
    ensures exact { Gives NoMemory (λ x. (x.0.items, x.1)) result (key_at table.now bytes.now at) }
    ensures len { IfOk result (λ x. length x.0.items ≡ length table.now.key) }
    ensures within { IfOk result (λ x. x.1 ≤ length bytes.now) }
{
    let key = table.key.items();
    let mut cells = Vec::with_capacity(alloc, key.len())?;
    let mut next = at;
    for place in key {
        let (cell, behind) = read_taken(alloc, table, *place, bytes, next)?;
        cells.push(cell)?;
        next = behind;
    }
    Ok((cells, next))
}

/// The key of a row of the table.
#[tactic(auto)]
pub(crate) fn read_key(
    alloc: Global,
    table: &TableDef,
    bytes: &[u8],
    at: usize,
) -> Result<(Key, usize), CodecFault>
    requires place { at ≤ length bytes.now }
    requires rows { TakesRows table.now }
    ensures exact { Gives NoMemory (λ x. x) result (key_at table.now bytes.now at) }
    ensures len { IfOk result (λ x. length x.0 ≡ length table.now.key) }
    ensures within { IfOk result (λ x. x.1 ≤ length bytes.now) }
{
    let (cells, next) = read_key_cells(alloc, table, bytes, at)?;
    Ok((Key::new(cells).unwrap(), next))
}

/// The place of a column in the key.
fn place_in(key: &[u8], place: u8) -> Option<usize>
    ensures place { result ≡ position (λ p. nat_eq p place) key.now }
    ensures within { IfSome result (λ i. i < length key.now) }
{
    key.iter().position(|p| *p == place)
}

/// The cell of the row with that key at the place: a copy of the key's cell where the key has the place, and
/// else it is read.
#[tactic(auto, unfolding(crate::specs::inner::Reading::row_cell_at))]
fn read_row_cell(
    alloc: Global,
    table: &TableDef,
    key: &[Cell],
    place: u8,
    bytes: &[u8],
    at: usize,
) -> Result<(Cell, usize), CodecFault>
    requires place { at ≤ length bytes.now }
    requires column { place < length table.now.columns }
    requires len { length key.now ≡ length table.now.key }
    ensures exact { Gives NoMemory (λ x. x) result (next_cell_at table.now key.now place bytes.now at) }
    ensures within { IfOk result (λ x. x.1 ≤ length bytes.now) }
{
    match place_in(table.key.items(), place) {
        Some(i) => Ok((key[i].copy(alloc)?, at)),
        None => read_taken(alloc, table, place, bytes, at),
    }
}

/// The row with that key, of which the other cells are read.
#[tactic(auto, using(crate::specs::laws::Rows::columns_are_few), unfolding(crate::specs::inner::Reading::row_at))]
pub(crate) fn read_row(
    alloc: Global,
    table: &TableDef,
    key: &[Cell],
    bytes: &[u8],
    at: usize,
) -> Result<(Vec<Cell>, usize), CodecFault>
    requires place { at ≤ length bytes.now }
    requires rows { TakesRows table.now }
    requires len { length key.now ≡ length table.now.key }
    ensures exact { Gives NoMemory (λ x. (x.0.items, x.1)) result (row_at table.now key.now bytes.now at) }
    ensures len { IfOk result (λ x. length x.0.items ≡ length table.now.columns) }
    ensures within { IfOk result (λ x. x.1 ≤ length bytes.now) }
{
    let count = table.columns.items().len();
    let mut row = Vec::with_capacity(alloc, count)?;
    let mut next = at;
    for place in 0..count as u8 {
        let (cell, behind) = read_row_cell(alloc, table, key, place, bytes, next)?;
        row.push(cell)?;
        next = behind;
    }
    Ok((row, next))
}
