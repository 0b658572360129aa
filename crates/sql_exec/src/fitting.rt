//! Cells that are to be a row of a table.
ghost use Rattle.std.specs.Prelude.{◌≡◌, ◌⊎◌, None, Some, IfOk, IfErr};
ghost use Rattle.geo_base.specs.Cells.{IsRowImage};
ghost use Rattle.geo_base.specs.Results.{Gives};
ghost use Rattle.geo_schema.specs.Rows.{IsRow};
ghost use Rattle.geo_schema.specs.Schemas.{IsTableNo, table_at};
ghost use Rattle.geo_schema.specs.Tables.{TakesRows};
ghost use Rattle.row_source.specs.declared.fault.ExecFault.TheVariants as fault;
ghost use Rattle.sql_exec.specs.Effects as effects;
ghost use Rattle.sql_exec.specs.inner.Fitting.{AreTyped};

use geo_base::{Cell, Duplicate, RowImage, TableNo};
use geo_schema::{CellFault, Schema, TableDef};
use row_source::ExecFault;
use std::alloc::Global;

/// The table with the number.
#[tactic(auto, using(geo_schema::specs::laws::Numbers::table_is))]
pub(crate) fn numbered(schema: &Schema, table: TableNo) -> &TableDef
    requires { IsTableNo schema.now table }
    ensures table { result.now ≡ table_at schema.entry.now table }
    ensures rows { TakesRows result.now }
{
    schema.table(table).unwrap()
}

/// Refuses the cells, which are of their columns' types, for the first of them that doesn't fit its column.
#[tactic(auto, using(crate::proofs::Columns::no_fault, crate::proofs::Columns::null_fault, crate::proofs::Columns::long_fault, crate::proofs::Columns::row_image, crate::proofs::Columns::null_place, crate::proofs::Columns::long_place, crate::proofs::Columns::counted, crate::proofs::Columns::no_clash))]
fn first_column_fault(
    alloc: Global,
    schema: &Schema,
    table: TableNo,
    cells: &[Cell],
) -> Result<(), ExecFault>
    requires table { IsTableNo schema.now table }
    requires typed { AreTyped (table_at schema.now table).columns cells.now }
    ensures none { IfOk result (λ _. effects.first_column_fault (table_at schema.now table) 0 (table_at schema.now table).columns cells.now ≡ None) }
    ensures row { IfOk result (λ _. IsRow (table_at schema.now table) cells.now) }
    ensures image { IfOk result (λ _. IsRowImage cells.now) }
    ensures fault { IfErr result (λ e. (e ≡ fault.NoMemory) ⊎ (effects.first_column_fault (table_at schema.now table) 0 (table_at schema.now table).columns cells.now ≡ Some e)) }
{
    let columns = numbered(schema, table).columns.items();
    match schema.check_row(table, cells) {
        Ok(()) => Ok(()),
        Err(CellFault::NullNotAllowed(place)) => {
            let name = columns[place as usize].name.copy(alloc)?;
            Err(ExecFault::NullNotAllowed(name))
        }
        Err(CellFault::TextTooLong(place)) => {
            let name = columns[place as usize].name.copy(alloc)?;
            Err(ExecFault::TextTooLong(name))
        }
        Err(CellFault::WrongCount | CellFault::TypeClash(_)) => unreachable!(),
    }
}

/// The cells, which are of their columns' types, as a row of the table, unless one of them doesn't fit its column.
#[tactic(auto, using(crate::proofs::Columns::fits, crate::proofs::Columns::unfit))]
pub(crate) fn fitting(
    alloc: Global,
    schema: &Schema,
    table: TableNo,
    cells: Vec<Cell>,
) -> Result<RowImage, ExecFault>
    requires table { IsTableNo schema.now table }
    requires typed { AreTyped (table_at schema.now table).columns cells.items }
    ensures image { Gives fault.NoMemory (λ i. i) result (effects.fitting (table_at schema.now table) cells.items) }
    ensures row { IfOk result (λ i. IsRow (table_at schema.now table) i) }
{
    first_column_fault(alloc, schema, table, cells.as_slice())?;
    Ok(RowImage::new(cells).unwrap())
}
