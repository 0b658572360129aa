//! The lines of an answer.
ghost use Rattle.std.specs.Prelude.{◌≡◌, ◌≤◌, true, length, map, IfOk};
ghost use Rattle.std.specs.List.{All};
ghost use Rattle.geo_base.specs.Results.{Gives, Matches};
ghost use Rattle.geo_base.specs.declared.limits.TheConstants.{MAX_LINE_CELLS};
ghost use Rattle.group_exec.specs.Results as results;
ghost use Rattle.row_source.specs.Matches as matched;
ghost use Rattle.row_source.specs.declared.fault.ExecFault.TheVariants as fault;
ghost use Rattle.sql_bind.specs.Sound.{is_plain};
ghost use Rattle.sql_bind.specs.Steps.{each};
ghost use Rattle.sql_exec.specs.inner.Plain as plain;

use geo_base::{Cell, Line, Many, RowImage};
use group_exec::limits::MAX_LINES;
use row_source::{ExecFault, value};
use sql_bind::Item;
use sql_expr::Expr;
use std::alloc::Global;

/// Lines of an answer.
pub type LineList = Many<Line>;

/// The value of an expression over a row of one table.
#[tactic(auto, using(crate::proofs::Alone::no_right))]
pub(crate) fn value_over(alloc: Global, expr: &Expr, row: &[Cell]) -> Result<Cell, ExecFault>
    ensures { Gives fault.NoMemory (λ c. c) result (matched.value row.now expr.now) }
{
    value(alloc, expr, row, &[])
}

/// A plain item over a row. A query that isn't grouped has no other.
fn plain_cell(alloc: Global, item: &Item, row: &[Cell]) -> Result<Cell, ExecFault>
    requires { is_plain item.now ≡ true }
    ensures { Gives fault.NoMemory (λ c. c) result (results.plain_cell row.now item.now) }
{
    match item {
        Item::Plain(expr) => value_over(alloc, expr, row),
        _ => unreachable!(),
    }
}

/// The cells of the line of a row, from left to right.
fn cells_over(alloc: Global, items: &[Item], row: &[Cell]) -> Result<Vec<Cell>, ExecFault>
    requires { All (λ i. is_plain i ≡ true) items.now }
    ensures cells { Gives fault.NoMemory (λ v. v.items) result (each (results.plain_cell row.now) items.now) }
    ensures count { IfOk result (λ v. length v.items ≡ length items.now) }
{
    let mut cells = Vec::with_capacity(alloc, items.len())?;
    for item in items {
        cells.push(plain_cell(alloc, item, row)?)?;
    }
    Ok(cells)
}

/// The line of a row.
#[tactic(auto, unfolding(crate::specs::inner::Plain::line_over))]
fn line_over(alloc: Global, items: &[Item], row: &[Cell]) -> Result<Line, ExecFault>
    requires some { 1 ≤ length items.now }
    requires few { length items.now ≤ MAX_LINE_CELLS }
    requires plain { All (λ i. is_plain i ≡ true) items.now }
    ensures { Gives fault.NoMemory (λ l. l) result (plain.line_over items.now row.now) }
{
    let cells = cells_over(alloc, items, row)?;
    match Line::new(cells) {
        Ok(line) => Ok(line),
        Err(_) => unreachable!(),
    }
}

/// The lines of rows, one after another.
#[tactic(auto, unfolding(crate::specs::inner::Plain::lines_over))]
fn lines_over(alloc: Global, items: &[Item], rows: &[&RowImage]) -> Result<Vec<Line>, ExecFault>
    requires some { 1 ≤ length items.now }
    requires few { length items.now ≤ MAX_LINE_CELLS }
    requires plain { All (λ i. is_plain i ≡ true) items.now }
    ensures { Gives fault.NoMemory (λ v. v.items) result (plain.lines_over items.now (map (λ row. row.now) rows.now)) }
{
    let mut lines = Vec::with_capacity(alloc, rows.len())?;
    for row in rows {
        lines.push(line_over(alloc, items, row.cells())?)?;
    }
    Ok(lines)
}

/// The lines, unless there are too many.
fn unless_too_long(lines: Vec<Line>) -> Result<LineList, ExecFault>
    ensures { Matches (λ l. l) result (plain.unless_too_long lines.items) }
{
    if MAX_LINES < lines.len() {
        return Err(ExecFault::ResultTooLong);
    }
    Ok(Many::new(lines))
}

/// Drops the lines behind those that LIMIT leaves.
fn cut(lines: &mut Vec<Line>, limit: Option<u64>)
    ensures { lines.new.items ≡ results.cut limit lines.old.items }
{
    if let Some(limit) = limit {
        lines.truncate(limit as usize);
    }
}

/// The lines of rows that LIMIT leaves, unless there are too many.
#[tactic(auto, unfolding(crate::specs::inner::Plain::limited_lines))]
pub(crate) fn limited_lines(
    alloc: Global,
    items: &[Item],
    limit: Option<u64>,
    rows: &[&RowImage],
) -> Result<LineList, ExecFault>
    requires some { 1 ≤ length items.now }
    requires few { length items.now ≤ MAX_LINE_CELLS }
    requires plain { All (λ i. is_plain i ≡ true) items.now }
    ensures { Gives fault.NoMemory (λ l. l) result (plain.limited_lines items.now limit (map (λ row. row.now) rows.now)) }
{
    let mut lines = lines_over(alloc, items, rows)?;
    cut(&mut lines, limit);
    unless_too_long(lines)
}
