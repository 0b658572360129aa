//! The arguments of aggregates over each row.
ghost use Rattle.std.specs.Prelude.{◌≡◌, ◌≤◌, length, map, IfOk};
ghost use Rattle.geo_base.specs.Results.{Gives};
ghost use Rattle.geo_base.specs.declared.limits.TheConstants.{MAX_LINE_CELLS};
ghost use Rattle.group_exec.specs.Groups as groups;
ghost use Rattle.group_exec.specs.inner.Made.{seen_row};
ghost use Rattle.row_source.specs.Matches.{pair_cells};
ghost use Rattle.row_source.specs.declared.fault.ExecFault.TheVariants as fault;
ghost use Rattle.sql_bind.specs.Steps.{each};

use crate::made::{Made, line_of, value_over};
use geo_base::Cell;
use row_source::{ExecFault, Pair};
use sql_bind::Item;
use std::alloc::Global;

/// The argument of an item on a row. A plain item and `COUNT(*)` ask nothing of it.
fn argument(alloc: Global, item: &Item, pair: &Pair) -> Result<Cell, ExecFault>
    ensures { Gives fault.NoMemory (λ c. c) result (groups.argument (pair_cells pair.now) item.now) }
{
    match item {
        Item::Count(expr) | Item::Sum(expr) | Item::Min(expr) | Item::Max(expr) => {
            value_over(alloc, expr, Some(pair))
        }
        Item::Plain(_) | Item::CountAll => Ok(Cell::Null),
    }
}

/// The arguments of the items on a row, from left to right.
fn arguments_on(alloc: Global, items: &[Item], pair: &Pair) -> Result<Vec<Cell>, ExecFault>
    ensures cells { Gives fault.NoMemory (λ v. v.items) result (each (groups.argument (pair_cells pair.now)) items.now) }
    ensures count { IfOk result (λ v. length v.items ≡ length items.now) }
{
    let mut cells = Vec::with_capacity(alloc, items.len())?;
    for item in items {
        cells.push(argument(alloc, item, pair)?)?;
    }
    Ok(cells)
}

/// A row with the arguments of the items on it.
fn with_arguments<'a>(alloc: Global, items: &[Item], pair: &'a Pair) -> Result<Made<'a>, ExecFault>
    requires some { 1 ≤ length items.now }
    requires few { length items.now ≤ MAX_LINE_CELLS }
    ensures { Gives fault.NoMemory seen_row result (groups.with_arguments items.now (pair_cells pair.now)) }
{
    let cells = line_of(arguments_on(alloc, items, pair)?);
    Ok(Made {
        cells,
        pair: Some(pair),
    })
}

/// All rows with the arguments of the items on them, one row after another.
pub(crate) fn all_with_arguments<'a>(
    alloc: Global,
    items: &[Item],
    pairs: &'a [Pair],
) -> Result<Vec<Made<'a>>, ExecFault>
    requires some { 1 ≤ length items.now }
    requires few { length items.now ≤ MAX_LINE_CELLS }
    ensures { Gives fault.NoMemory (λ v. map seen_row v.items) result (each (groups.with_arguments items.now) (map pair_cells pairs.now)) }
{
    let mut rows = Vec::with_capacity(alloc, pairs.len())?;
    for pair in pairs {
        rows.push(with_arguments(alloc, items, pair)?)?;
    }
    Ok(rows)
}
