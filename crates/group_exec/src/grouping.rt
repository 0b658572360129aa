//! What a query makes of the rows, or pairs of rows, that its conditions keep.
ghost use Rattle.std.specs.Prelude.{◌≡◌, ◌≤◌, length, map, IfOk};
ghost use Rattle.geo_base.specs.Results.{Gives};
ghost use Rattle.geo_base.specs.declared.limits.TheConstants.{MAX_LINE_CELLS};
ghost use Rattle.group_exec.specs.Results as results;
ghost use Rattle.group_exec.specs.inner.Aggregates.{grouped_lines};
ghost use Rattle.group_exec.specs.inner.Made.{seen_line};
ghost use Rattle.row_source.specs.Matches.{pair_cells};
ghost use Rattle.row_source.specs.declared.fault.ExecFault.TheVariants as fault;

use crate::arguments::all_with_arguments;
use crate::groups::group_lines;
use crate::items::row_lines;
use crate::limits::MAX_LINES;
use crate::made::Made;
use crate::ordering::sort;
use geo_base::{Line, Many};
use row_source::{ExecFault, Pair};
use sql_bind::BoundSelect;
use std::alloc::{AllocError, Global};

/// Lines of an answer.
pub type LineList = Many<Line>;

/// The lines of the groups of rows, behind the arguments of all of them.
fn lines_of_groups<'a>(
    alloc: Global,
    query: &BoundSelect,
    pairs: &'a [Pair],
) -> Result<Vec<Made<'a>>, ExecFault>
    requires some { 1 ≤ length query.now.items }
    requires few { length query.now.items ≤ MAX_LINE_CELLS }
    ensures { Gives fault.NoMemory (λ v. map seen_line v.items) result (grouped_lines query.now (map pair_cells pairs.now)) }
{
    let mut rows = all_with_arguments(alloc, query.items.items(), pairs)?;
    group_lines(alloc, query.items.items(), query.group.items(), &mut rows)
}

/// The lines of rows, or of their groups.
fn lines_from<'a>(
    alloc: Global,
    query: &BoundSelect,
    pairs: &'a [Pair],
) -> Result<Vec<Made<'a>>, ExecFault>
    requires some { 1 ≤ length query.now.items }
    requires few { length query.now.items ≤ MAX_LINE_CELLS }
    ensures { Gives fault.NoMemory (λ v. map seen_line v.items) result (results.lines_from query.now (map pair_cells pairs.now)) }
{
    if query.grouped {
        return lines_of_groups(alloc, query, pairs);
    }
    row_lines(alloc, query.items.items(), pairs)
}

/// Drops the lines behind those that LIMIT leaves.
fn cut(lines: &mut Vec<Made>, limit: Option<u64>)
    ensures { lines.new.items ≡ results.cut limit lines.old.items }
{
    if let Some(limit) = limit {
        lines.truncate(limit as usize);
    }
}

/// The lines alone.
fn without_rows(alloc: Global, lines: Vec<Made>) -> Result<Vec<Line>, AllocError>
    ensures { IfOk result (λ v. v.items ≡ map (λ l. l.cells) lines.entry.items) }
{
    let mut found = Vec::with_capacity(alloc, lines.len())?;
    for line in lines {
        found.push(line.cells)?;
    }
    Ok(found)
}

/// The lines, unless there are too many.
fn within_limit(alloc: Global, lines: Vec<Made>) -> Result<LineList, ExecFault>
    ensures { Gives fault.NoMemory (λ l. l) result (results.within_limit (map seen_line lines.entry.items)) }
{
    if MAX_LINES < lines.len() {
        return Err(ExecFault::ResultTooLong);
    }
    Ok(Many::new(without_rows(alloc, lines)?))
}

/// What a query makes of the rows, or pairs of rows, that its conditions keep: a line for each of them, or for each
/// group, in the order of ORDER BY, and of them as many as LIMIT leaves.
///
/// Faults come in this order: in a grouped query the arguments of its aggregates, row by row and from left to right,
/// and then the items of the groups, in the order of their cells and from left to right, where
/// [`ExecFault::Overflow`] comes where the whole sum of a SUM is no `i64`, wherever it was on the way; in another one
/// its items, row by row and from left to right; and then [`ExecFault::ResultTooLong`], where LIMIT leaves more than
/// [`MAX_LINES`] lines. LIMIT spares no evaluation. [`ExecFault::NoMemory`] may come at any time.
///
/// The cost is that of evaluating the items, or in a grouped query the arguments, once for each row; and for groups, and
/// again for ORDER BY, that of a sort: rows times their logarithm times the columns sorted by, whatever the number of
/// groups. Each aggregate takes a step for each row. What is sorted are handles of four words: no row is copied, and
/// of its cells only those that are an argument or stand in a line. The memory is a cell for each item and row, and in
/// a grouped query also for each item and group.
#[tactic(auto, unfolding(crate::specs::Results::result_of))]
pub fn group(alloc: Global, query: &BoundSelect, pairs: &[Pair]) -> Result<LineList, ExecFault>
    requires some { 1 ≤ length query.now.items }
    requires few { length query.now.items ≤ MAX_LINE_CELLS }
    ensures exact { Gives fault.NoMemory (λ l. l) result (results.result_of query.now (map pair_cells pairs.now)) }
{
    let mut lines = lines_from(alloc, query, pairs)?;
    sort(&mut lines, query.order.items())?;
    cut(&mut lines, query.limit);
    within_limit(alloc, lines)
}
