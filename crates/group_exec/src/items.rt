//! Lines: of rows, and of groups.
ghost use Rattle.std.specs.Prelude.{◌≡◌, ◌<◌, ◌≤◌, ◌^◌, pos, length, map, IfOk};
ghost use Rattle.std.specs.List.{enumerate_from};
ghost use Rattle.geo_base.specs.Results.{Gives};
ghost use Rattle.geo_base.specs.declared.cell.Cell.TheVariants as cell;
ghost use Rattle.geo_base.specs.declared.limits.TheConstants.{MAX_LINE_CELLS};
ghost use Rattle.group_exec.specs.Groups as groups;
ghost use Rattle.group_exec.specs.Results as results;
ghost use Rattle.group_exec.specs.inner.Made.{cells_of, seen_line, seen_row};
ghost use Rattle.row_source.specs.Matches.{pair_cells};
ghost use Rattle.row_source.specs.declared.fault.ExecFault.TheVariants as fault;
ghost use Rattle.sql_bind.specs.Steps.{each};

use crate::aggregates::{arguments_at, greatest, least, sum};
use crate::made::{Made, line_of, value_over};
use geo_base::Cell;
use row_source::{ExecFault, Pair};
use sql_bind::Item;
use std::alloc::Global;

/// A plain item over a row. A query that isn't grouped has no other items.
fn plain_cell(alloc: Global, item: &Item, pair: &Pair) -> Result<Cell, ExecFault>
    ensures { Gives fault.NoMemory (λ c. c) result (results.plain_cell (pair_cells pair.now) item.now) }
{
    match item {
        Item::Plain(expr) => value_over(alloc, expr, Some(pair)),
        _ => Ok(Cell::Null),
    }
}

/// The cells of the line of a row, from left to right.
fn row_cells(alloc: Global, items: &[Item], pair: &Pair) -> Result<Vec<Cell>, ExecFault>
    ensures cells { Gives fault.NoMemory (λ v. v.items) result (each (results.plain_cell (pair_cells pair.now)) items.now) }
    ensures count { IfOk result (λ v. length v.items ≡ length items.now) }
{
    let mut cells = Vec::with_capacity(alloc, items.len())?;
    for item in items {
        cells.push(plain_cell(alloc, item, pair)?)?;
    }
    Ok(cells)
}

/// The line of a row.
fn row_line<'a>(alloc: Global, items: &[Item], pair: &'a Pair) -> Result<Made<'a>, ExecFault>
    requires some { 1 ≤ length items.now }
    requires few { length items.now ≤ MAX_LINE_CELLS }
    ensures { Gives fault.NoMemory seen_line result (results.row_line items.now (pair_cells pair.now)) }
{
    let cells = line_of(row_cells(alloc, items, pair)?);
    Ok(Made {
        cells,
        pair: Some(pair),
    })
}

/// The lines of rows, one after another.
pub(crate) fn row_lines<'a>(
    alloc: Global,
    items: &[Item],
    pairs: &'a [Pair],
) -> Result<Vec<Made<'a>>, ExecFault>
    requires some { 1 ≤ length items.now }
    requires few { length items.now ≤ MAX_LINE_CELLS }
    ensures { Gives fault.NoMemory (λ v. map seen_line v.items) result (each (results.row_line items.now) (map pair_cells pairs.now)) }
{
    let mut lines = Vec::with_capacity(alloc, pairs.len())?;
    for pair in pairs {
        lines.push(row_line(alloc, items, pair)?)?;
    }
    Ok(lines)
}

/// The row that a plain item of a group is evaluated over: the first one.
fn group_pair<'a>(rows: &[Made<'a>]) -> Option<&'a Pair>
    ensures { cells_of result ≡ groups.group_row (map seen_row rows.now) }
{
    match rows.first() {
        Some(row) => row.pair,
        None => None,
    }
}

/// How many there are, as a cell.
fn count(many: usize) -> Cell
    requires { many < 2 ^ 63 }
    ensures { result ≡ cell.Int (pos many) }
{
    Cell::Int(many as i64)
}

/// What the item at a place is for a group.
fn item_cell(alloc: Global, rows: &[Made], place: usize, item: &Item) -> Result<Cell, ExecFault>
    ensures { Gives fault.NoMemory (λ c. c) result (groups.item_cell (map seen_row rows.now) place item.now) }
{
    match item {
        Item::Plain(expr) => value_over(alloc, expr, group_pair(rows)),
        Item::CountAll => Ok(count(rows.len())),
        Item::Count(_) => Ok(count(arguments_at(alloc, rows, place)?.len())),
        Item::Sum(_) => sum(arguments_at(alloc, rows, place)?.as_slice()),
        Item::Min(_) => least(alloc, arguments_at(alloc, rows, place)?.as_slice()),
        Item::Max(_) => greatest(alloc, arguments_at(alloc, rows, place)?.as_slice()),
    }
}

/// The cells of the line of a group, from left to right.
fn group_cells(alloc: Global, items: &[Item], rows: &[Made]) -> Result<Vec<Cell>, ExecFault>
    ensures cells { Gives fault.NoMemory (λ v. v.items) result (each (λ i. groups.item_cell (map seen_row rows.now) i.0 i.1) (enumerate_from 0 items.now)) }
    ensures count { IfOk result (λ v. length v.items ≡ length items.now) }
{
    let mut cells = Vec::with_capacity(alloc, items.len())?;
    for (place, item) in items.iter().enumerate() {
        cells.push(item_cell(alloc, rows, place, item)?)?;
    }
    Ok(cells)
}

/// The line of a group.
pub(crate) fn group_line<'a>(
    alloc: Global,
    items: &[Item],
    rows: &[Made<'a>],
) -> Result<Made<'a>, ExecFault>
    requires some { 1 ≤ length items.now }
    requires few { length items.now ≤ MAX_LINE_CELLS }
    ensures { Gives fault.NoMemory seen_line result (results.group_line items.now (map seen_row rows.now)) }
{
    let cells = line_of(group_cells(alloc, items, rows)?);
    Ok(Made {
        cells,
        pair: group_pair(rows),
    })
}
