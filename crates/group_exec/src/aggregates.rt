//! What aggregates make of the arguments on the rows of a group.
ghost use Rattle.std.specs.Prelude.{◌≡◌, map, IfOk, unwrap_or};
ghost use Rattle.std.specs.List.{reduce};
ghost use Rattle.std.specs.Option.{option_copied};
ghost use Rattle.geo_base.specs.Results.{Gives, Matches};
ghost use Rattle.geo_base.specs.declared.cell.Cell.TheVariants as cell;
ghost use Rattle.group_exec.specs.Groups as groups;
ghost use Rattle.group_exec.specs.inner.Aggregates.{argument_unless_null, greater, lesser};
ghost use Rattle.group_exec.specs.inner.Made.{seen_row};
ghost use Rattle.row_source.specs.declared.fault.ExecFault.TheVariants as fault;

use crate::made::Made;
use geo_base::{Cell, Duplicate};
use row_source::ExecFault;
use std::alloc::{AllocError, Global};

/// The argument of the item at a place on a row, unless it is NULL.
fn argument_of<'a>(row: &'a Made<'a>, place: usize) -> Option<&'a Cell>
    ensures { option_copied result ≡ argument_unless_null place (seen_row row.now) }
{
    match row.cells.cells().get(place) {
        Some(cell) if !cell.is_null() => Some(cell),
        _ => None,
    }
}

/// The arguments of the item at a place, in the order of the rows, without NULL. They are lent, and not copied.
pub(crate) fn arguments_at<'a>(
    alloc: Global,
    rows: &'a [Made<'a>],
    place: usize,
) -> Result<Vec<&'a Cell>, AllocError>
    ensures { IfOk result (λ v. map (λ c. c.now) v.items ≡ groups.arguments_without_null place (map seen_row rows.now)) }
{
    let mut found = Vec::new(alloc);
    for row in rows {
        if let Some(cell) = argument_of(row, place) {
            found.push(cell)?;
        }
    }
    Ok(found)
}

/// The number that a cell is, and 0 for what is none.
fn integer(cell: &Cell) -> i64
    ensures { result ≡ groups.integer cell.now }
{
    match cell {
        Cell::Int(number) => *number,
        _ => 0,
    }
}

/// The whole sum. No sum of an `i64` for each cell of a list leaves what an `i128` holds.
fn whole_sum(cells: &[&Cell]) -> i128
    ensures { result ≡ groups.sum_of (map (λ c. c.now) cells.now) }
{
    let mut total: i128 = 0;
    for cell in cells {
        total += i128::from(integer(cell));
    }
    total
}

/// SUM: NULL of nothing, and else the whole sum, or [`ExecFault::Overflow`] where that is no `i64`.
#[tactic(auto, using(crate::proofs::Numbers::in_i64, crate::proofs::Numbers::out_of_i64))]
pub(crate) fn sum(cells: &[&Cell]) -> Result<Cell, ExecFault>
    ensures { Matches (λ c. c) result (groups.sum_cell (map (λ c. c.now) cells.now)) }
{
    if cells.is_empty() {
        return Ok(Cell::Null);
    }
    match i64::try_from(whole_sum(cells)) {
        Ok(number) => Ok(Cell::Int(number)),
        Err(_) => Err(ExecFault::Overflow),
    }
}

/// The least of some cells, and `None` of none.
fn least_of<'a>(cells: &[&'a Cell]) -> Option<&'a Cell>
    ensures { option_copied result ≡ reduce lesser (map (λ c. c.now) cells.now) }
{
    let (first, rest) = cells.split_first()?;
    let mut least = *first;
    for cell in rest {
        if least.cmp(cell).is_gt() {
            least = *cell;
        }
    }
    Some(least)
}

/// The greatest of some cells, and `None` of none.
fn greatest_of<'a>(cells: &[&'a Cell]) -> Option<&'a Cell>
    ensures { option_copied result ≡ reduce greater (map (λ c. c.now) cells.now) }
{
    let (first, rest) = cells.split_first()?;
    let mut greatest = *first;
    for cell in rest {
        if greatest.cmp(cell).is_le() {
            greatest = *cell;
        }
    }
    Some(greatest)
}

/// A copy of a cell, and NULL where there is none.
fn copy_or_null(alloc: Global, some: Option<&Cell>) -> Result<Cell, ExecFault>
    ensures { Gives fault.NoMemory (λ c. c) result (Ok (unwrap_or (option_copied some.entry) cell.Null)) }
{
    match some {
        Some(cell) => Ok(cell.copy(alloc)?),
        None => Ok(Cell::Null),
    }
}

/// MIN: a copy of the least of some cells, and NULL of none.
pub(crate) fn least(alloc: Global, cells: &[&Cell]) -> Result<Cell, ExecFault>
    ensures { Gives fault.NoMemory (λ c. c) result (Ok (groups.least (map (λ c. c.now) cells.now))) }
{
    copy_or_null(alloc, least_of(cells))
}

/// MAX: a copy of the greatest of some cells, and NULL of none.
pub(crate) fn greatest(alloc: Global, cells: &[&Cell]) -> Result<Cell, ExecFault>
    ensures { Gives fault.NoMemory (λ c. c) result (Ok (groups.greatest (map (λ c. c.now) cells.now))) }
{
    copy_or_null(alloc, greatest_of(cells))
}
