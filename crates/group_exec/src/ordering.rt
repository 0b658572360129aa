//! The order of lines, and of rows.
ghost use Rattle.std.specs.Prelude.{◌≡◌, map};
ghost use Rattle.std.specs.Result.{OnOk};
ghost use Rattle.geo_base.specs.declared.cell.Cell.TheVariants as cell;
ghost use Rattle.group_exec.specs.Results.{by_all, by_one, ordered, sort_cell};
ghost use Rattle.group_exec.specs.inner.Made.{seen_line};

use crate::made::{Made, cell_at, column_of};
use geo_base::Cell;
use sql_bind::{Sort, SortBy};
use std::alloc::AllocError;
use std::cmp::Ordering;

/// The cell that a line is sorted by.
fn sort_cell<'a>(by: SortBy, line: &'a Made<'a>, null: &'a Cell) -> &'a Cell
    requires { null.now ≡ cell.Null }
    ensures { result.now ≡ sort_cell by (seen_line line.now) }
{
    match by {
        SortBy::Item(place) => cell_at(line.cells.cells(), usize::from(place), null),
        SortBy::Column(place) => column_of(line.pair, usize::from(place), null),
    }
}

/// Two lines by one column: NULL first, and DESC is the exact reverse.
fn by_one(sort: Sort, a: &Made, b: &Made) -> Ordering
    ensures { result ≡ by_one sort (seen_line a.now) (seen_line b.now) }
{
    let null = Cell::Null;
    let order = sort_cell(sort.by, a, &null).cmp(sort_cell(sort.by, b, &null));
    if sort.descending {
        order.reverse()
    } else {
        order
    }
}

/// Two lines by the columns in turn.
pub(crate) fn by_all(sorts: &[Sort], a: &Made, b: &Made) -> Ordering
    ensures { result ≡ by_all sorts.now (seen_line a.now) (seen_line b.now) }
{
    for sort in sorts {
        let order = by_one(*sort, a, b);
        if order.is_ne() {
            return order;
        }
    }
    Ordering::Equal
}

/// Puts lines in order, where those that tie stay as they are. What is moved are handles of lines; no row is copied.
/// Without ORDER BY nothing is done.
pub(crate) fn sort(lines: &mut Vec<Made>, sorts: &[Sort]) -> Result<(), AllocError>
    ensures { OnOk result (map seen_line lines.new.items ≡ ordered sorts.now (map seen_line lines.old.items)) }
{
    if sorts.is_empty() {
        return Ok(());
    }
    lines.sort_by(|a, b| by_all(sorts, a, b))
}
