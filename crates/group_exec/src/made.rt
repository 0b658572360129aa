//! What is made of rows, and the cells that it is compared and evaluated by.
ghost use Rattle.std.specs.Prelude.{◌≡◌, ◌≤◌, length};
ghost use Rattle.geo_base.specs.Results.{Gives};
ghost use Rattle.geo_base.specs.declared.cell.Cell.TheVariants as cell;
ghost use Rattle.geo_base.specs.declared.limits.TheConstants.{MAX_LINE_CELLS};
ghost use Rattle.row_source.specs.Handing as handing;
ghost use Rattle.row_source.specs.Matches as matched;
ghost use Rattle.row_source.specs.declared.fault.ExecFault.TheVariants as fault;
ghost use Rattle.group_exec.specs.inner.Made as made;

use geo_base::{Cell, Line};
use row_source::{ExecFault, Pair, value};
use sql_expr::Expr;
use std::alloc::Global;

/// Cells that were made of a row, or a pair of rows, and the row itself: the arguments of the items on it, or a
/// line. It is moved where rows and lines are sorted, and the row is only lent to it.
#[derive(Drop)]
pub(crate) struct Made<'a> {
    /// One cell for each item of the query.
    pub cells: Line,
    /// The row, or the pair of rows; `None` for a group of no rows.
    pub pair: Option<&'a Pair>,
}

/// The cells of the left row, and none where there is no row.
fn left_of<'a>(pair: Option<&'a Pair>) -> &'a [Cell]
    ensures { result.now ≡ made.left_of pair.entry }
{
    match pair {
        Some(pair) => pair.left.cells(),
        None => &[],
    }
}

/// The cells of the right row, and none where there is none.
fn right_of<'a>(pair: Option<&'a Pair>) -> &'a [Cell]
    ensures { result.now ≡ made.right_of pair.entry }
{
    match pair {
        Some(pair) => match &pair.right {
            Some(row) => row.cells(),
            None => &[],
        },
        None => &[],
    }
}

/// The value of an expression over a row, or a pair of rows.
#[tactic(auto, using(crate::proofs::Sides::both_sides))]
pub(crate) fn value_over(alloc: Global, expr: &Expr, pair: Option<&Pair>) -> Result<Cell, ExecFault>
    ensures { Gives fault.NoMemory (λ c. c) result (matched.value (made.cells_of pair.entry) expr.now) }
{
    value(alloc, expr, left_of(pair), right_of(pair))
}

/// The line of these cells, which are as many as a query has items.
pub(crate) fn line_of(cells: Vec<Cell>) -> Line
    requires some { 1 ≤ length cells.items }
    requires few { length cells.items ≤ MAX_LINE_CELLS }
    ensures { result ≡ cells.items }
{
    match Line::new(cells) {
        Ok(line) => line,
        Err(_) => unreachable!(),
    }
}

/// The cell at a place, and what stands for NULL behind the last one.
pub(crate) fn cell_at<'a>(cells: &'a [Cell], place: usize, null: &'a Cell) -> &'a Cell
    requires { null.now ≡ cell.Null }
    ensures { result.now ≡ handing.cell_at cells.now place }
{
    match cells.get(place) {
        Some(cell) => cell,
        None => null,
    }
}

/// The cell in a column, through the left row and then the right one.
#[tactic(auto, using(crate::proofs::Sides::on_the_left, crate::proofs::Sides::on_the_right))]
pub(crate) fn column_of<'a>(pair: Option<&'a Pair>, place: usize, null: &'a Cell) -> &'a Cell
    requires { null.now ≡ cell.Null }
    ensures { result.now ≡ handing.cell_at (made.cells_of pair.entry) place }
{
    let left = left_of(pair);
    if place < left.len() {
        return cell_at(left, place, null);
    }
    cell_at(right_of(pair), place - left.len(), null)
}
