//! Pairs of a left row and the right one whose key follows from it.
ghost use Rattle.std.specs.Prelude.{◌≡◌, ◌+◌, ◌≤◌, filter, length, map, IfOk};
ghost use Rattle.std.specs.Option.{option_copied};
ghost use Rattle.geo_base.specs.Order.{row_eq};
ghost use Rattle.geo_base.specs.Results.{Gives};
ghost use Rattle.geo_schema.specs.Schemas.{IsSchema};
ghost use Rattle.join_exec.specs.inner.Kept.{kept_behind, pairs_by};
ghost use Rattle.row_source.specs.Handing as handing;
ghost use Rattle.row_source.specs.Handing.{row_named};
ghost use Rattle.row_source.specs.Sources.{AreRowsOf, images, listed};
ghost use Rattle.row_source.specs.declared.fault.ExecFault.TheVariants as fault;

use crate::keeping::keep_found;
use geo_base::{Cell, Duplicate, Key, NoMemory, RowId, RowImage, TableNo};
use row_source::{ExecFault, KeyPart, Pair, RowSource, Steps, names_are_of_one_row};
use sql_expr::Expr;
use std::alloc::Global;
use std::sync::ledger::Ledger;

/// A copy of the cell that a part of the key stands for beside the left row.
fn part_cell(alloc: Global, left: &[Cell], part: &KeyPart) -> Result<Cell, NoMemory>
    ensures { IfOk result (λ c. c ≡ handing.part_cell left.now part.now) }
{
    match part {
        KeyPart::Lit(cell) => cell.copy(alloc),
        KeyPart::Left(column) => match left.get(usize::from(*column)) {
            Some(cell) => cell.copy(alloc),
            None => Ok(Cell::Null),
        },
    }
}

/// Copies of the cells of the key beside the left row.
fn part_cells(alloc: Global, left: &[Cell], parts: &[KeyPart]) -> Result<Vec<Cell>, NoMemory>
    ensures { IfOk result (λ cells. cells.items ≡ map (handing.part_cell left.now) parts.now) }
{
    let mut cells = Vec::with_capacity(alloc, parts.len())?;
    for part in parts {
        cells.push(part_cell(alloc, left, part)?)?;
    }
    Ok(cells)
}

/// The right row whose key has these cells. Where they are no key, as where one is NULL, there is none.
fn row_with_key<'a, R: RowSource, L: Ledger>(
    source: &'a R,
    table: TableNo,
    cells: Vec<Cell>,
    steps: &mut Steps<L>,
) -> Option<&'a RowImage>
    requires schema { IsSchema (R.tables source.now) }
    requires rows { AreRowsOf (R.tables source.now) (R.rows source.now) }
    ensures row { listed (option_copied result) ≡ images (filter (λ entry. row_eq (row_named table cells.items) entry.0) (R.rows source.entry.now)) }
    ensures steps { steps.new ≤ steps.old + 1 }
{
    names_are_of_one_row();
    match Key::new(cells) {
        Ok(key) => source.get(&RowId { table, key }, steps),
        Err(_) => None,
    }
}

/// The right row whose key has the cells that the parts stand for beside the left row.
fn found_by_key<'a, R: RowSource, L: Ledger>(
    alloc: Global,
    source: &'a R,
    table: TableNo,
    parts: &[KeyPart],
    left: &RowImage,
    steps: &mut Steps<L>,
) -> Result<Option<&'a RowImage>, NoMemory>
    requires schema { IsSchema (R.tables source.now) }
    requires rows { AreRowsOf (R.tables source.now) (R.rows source.now) }
    ensures row { IfOk result (λ found. listed (option_copied found) ≡ images (filter (λ entry. row_eq (row_named table (map (handing.part_cell left.now) parts.now)) entry.0) (R.rows source.entry.now))) }
    ensures steps { steps.new ≤ steps.old + 1 }
{
    let cells = part_cells(alloc, left.cells(), parts)?;
    Ok(row_with_key(source, table, cells, steps))
}

/// Keeps each left row beside the right one with the key that the parts stand for, if there is one and the tests do. It takes one
/// look-up for each left row.
pub(crate) fn keep_by_key<R: RowSource, L: Ledger>(
    alloc: Global,
    tests: &[Expr],
    lefts: &[&RowImage],
    source: &R,
    table: TableNo,
    parts: &[KeyPart],
    steps: &mut Steps<L>,
    kept: &mut Vec<Pair>,
) -> Result<(), ExecFault>
    requires schema { IsSchema (R.tables source.now) }
    requires rows { AreRowsOf (R.tables source.now) (R.rows source.now) }
    ensures pairs { Gives fault.NoMemory (λ _. kept.new.items) result (kept_behind tests.now kept.old.items (pairs_by (λ left. images (filter (λ entry. row_eq (row_named table (map (handing.part_cell left) parts.now)) entry.0) (R.rows source.now))) (map (λ row. row.now) lefts.now))) }
    ensures steps { steps.new ≤ steps.old + length lefts.now }
{
    for left in lefts {
        let found = found_by_key(alloc, source, table, parts, left, steps)?;
        keep_found(alloc, tests, left, found, kept)?;
    }
    Ok(())
}
