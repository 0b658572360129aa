//! The groups of rows, and their lines.
ghost use Rattle.std.specs.Prelude.{◌≡◌, ◌+◌, ◌<◌, ◌≤◌, ◌∷◌, [], drop, length, map, IfOk};
ghost use Rattle.geo_base.specs.Results.{Gives};
ghost use Rattle.geo_base.specs.declared.limits.TheConstants.{MAX_LINE_CELLS};
ghost use Rattle.group_exec.specs.Groups as groups;
ghost use Rattle.group_exec.specs.Results as results;
ghost use Rattle.group_exec.specs.inner.Made.{seen_line, seen_row};
ghost use Rattle.group_exec.specs.inner.Runs.{as_row, rising_by, run_length, runs};
ghost use Rattle.row_source.specs.declared.fault.ExecFault.TheVariants as fault;
ghost use Rattle.sql_bind.specs.Steps.{each};

use crate::items::group_line;
use crate::made::Made;
use crate::ordering::{by_all, sort};
use row_source::ExecFault;
use sql_bind::{Item, Sort, SortBy};
use std::alloc::{AllocError, Global};

/// The order of the cells in the columns of GROUP BY.
fn rising(alloc: Global, columns: &[u16]) -> Result<Vec<Sort>, AllocError>
    ensures { IfOk result (λ v. v.items ≡ map rising_by columns.now) }
{
    let mut sorts = Vec::with_capacity(alloc, columns.len())?;
    for column in columns {
        sorts.push(Sort {
            by: SortBy::Column(*column),
            descending: false,
        })?;
    }
    Ok(sorts)
}

/// How long the first run of rows is that tie with the one before them.
fn run_length(sorts: &[Sort], rows: &[Made]) -> usize
    requires { 1 ≤ length rows.now }
    ensures exact { result ≡ run_length sorts.now (map seen_line rows.now) }
    ensures within { result ≤ length rows.now }
{
    for place in 1..rows.len() {
        if by_all(sorts, &rows[place - 1], &rows[place]).is_ne() {
            return place;
        }
    }
    rows.len()
}

/// The run of rows that tie with the one before them, from a place on.
fn run_from<'b, 'a>(sorts: &[Sort], rows: &'b [Made<'a>], start: usize) -> &'b [Made<'a>]
    requires { start < length rows.now }
    ensures some { 1 ≤ length result.now }
    ensures within { start + length result.now ≤ length rows.now }
    ensures run { runs sorts.now (map seen_line (drop start rows.now)) ≡ map seen_line result.now ∷ runs sorts.now (map seen_line (drop (start + length result.now) rows.now)) }
{
    let end = start + run_length(sorts, &rows[start..]);
    &rows[start..end]
}

/// The lines of the runs of rows.
fn lines_of_runs<'a>(
    alloc: Global,
    items: &[Item],
    sorts: &[Sort],
    rows: &[Made<'a>],
) -> Result<Vec<Made<'a>>, ExecFault>
    requires some { 1 ≤ length items.now }
    requires few { length items.now ≤ MAX_LINE_CELLS }
    ensures { Gives fault.NoMemory (λ v. map seen_line v.items) result (each (λ run. results.group_line items.now (map as_row run)) (runs sorts.now (map seen_line rows.now))) }
{
    let mut lines = Vec::new(alloc);
    let mut start = 0;
    while start < rows.len() {
        let run = run_from(sorts, rows, start);
        lines.push(group_line(alloc, items, run)?)?;
        start += run.len();
    }
    Ok(lines)
}

/// The lines of the groups by some columns. The rows are sorted by the cells in them, and then each run is a group.
fn lines_by_columns<'a>(
    alloc: Global,
    items: &[Item],
    columns: &[u16],
    rows: &mut Vec<Made<'a>>,
) -> Result<Vec<Made<'a>>, ExecFault>
    requires some { 1 ≤ length items.now }
    requires few { length items.now ≤ MAX_LINE_CELLS }
    requires grouped { 1 ≤ length columns.now }
    ensures { Gives fault.NoMemory (λ v. map seen_line v.items) result (each (results.group_line items.now) (groups.groups_of columns.now (map seen_row rows.old.items))) }
{
    let sorts = rising(alloc, columns)?;
    sort(rows, sorts.as_slice())?;
    lines_of_runs(alloc, items, sorts.as_slice(), rows.as_slice())
}

/// The line of all rows together.
fn line_of_all<'a>(
    alloc: Global,
    items: &[Item],
    rows: &[Made<'a>],
) -> Result<Vec<Made<'a>>, ExecFault>
    requires some { 1 ≤ length items.now }
    requires few { length items.now ≤ MAX_LINE_CELLS }
    ensures { Gives fault.NoMemory (λ v. map seen_line v.items) result (each (results.group_line items.now) (map seen_row rows.now ∷ [])) }
{
    let mut lines = Vec::with_capacity(alloc, 1)?;
    lines.push(group_line(alloc, items, rows)?)?;
    Ok(lines)
}

/// The lines of the groups of rows, in the order of their cells; without GROUP BY there is one group, also of no rows.
pub(crate) fn group_lines<'a>(
    alloc: Global,
    items: &[Item],
    columns: &[u16],
    rows: &mut Vec<Made<'a>>,
) -> Result<Vec<Made<'a>>, ExecFault>
    requires some { 1 ≤ length items.now }
    requires few { length items.now ≤ MAX_LINE_CELLS }
    ensures { Gives fault.NoMemory (λ v. map seen_line v.items) result (each (results.group_line items.now) (groups.groups_of columns.now (map seen_row rows.old.items))) }
{
    if columns.is_empty() {
        return line_of_all(alloc, items, rows.as_slice());
    }
    lines_by_columns(alloc, items, columns, rows)
}
