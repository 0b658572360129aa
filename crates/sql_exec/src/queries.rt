//! Queries.
ghost use Rattle.std.specs.Prelude.{◌≡◌, ◌+◌, ◌≤◌, false, true, [], Ok, filter, length, map, IsTrue};
ghost use Rattle.std.specs.List.{All};
ghost use Rattle.geo_base.specs.Results.{Gives};
ghost use Rattle.geo_base.specs.declared.limits.TheConstants.{MAX_LINE_CELLS};
ghost use Rattle.geo_schema.specs.Schemas.{IsSchema, table_at};
ghost use Rattle.row_source.specs.Bounds.{reached, steps_of};
ghost use Rattle.row_source.specs.Handing.{IsAccessTo, IsPlanFor, LeavesOut, reaches};
ghost use Rattle.row_source.specs.Sources.{AreRowsOf, images};
ghost use Rattle.row_source.specs.declared.fault.ExecFault.TheVariants as fault;
ghost use Rattle.sql_bind.specs.Sound.{IsSoundSelect, is_plain};
ghost use Rattle.sql_exec.specs.Answers.{answer_of};
ghost use Rattle.sql_exec.specs.inner.Plain.{plain_answer};
ghost use Rattle.sql_expr.specs.Conditions.{kept};
ghost use Rattle.sql_plan.specs.Plans as plans;

use crate::keeping::kept_rows;
use crate::lines::{LineList, limited_lines};
use crate::pointing::answer_of_named;
use crate::reaching::reached_rows;
use geo_base::{RowId, RowImage, TableNo};
use geo_schema::Schema;
use group_exec::group;
use join_exec::join;
use row_source::{Access, ExecFault, Plan, RowSource, Steps};
use sql_bind::BoundSelect;
use sql_plan::{plan_of, tests_drop_what_plans_leave_out};
use std::alloc::Global;
use std::sync::ledger::Ledger;

/// The lines of those of the rows that the tests of a query keep, as many as its LIMIT leaves.
#[tactic(auto, unfolding(crate::specs::inner::Plain::plain_answer))]
fn plain_answer(
    alloc: Global,
    query: &BoundSelect,
    rows: &[&RowImage],
) -> Result<LineList, ExecFault>
    requires some { 1 ≤ length query.now.items }
    requires few { length query.now.items ≤ MAX_LINE_CELLS }
    requires plain { All (λ i. is_plain i ≡ true) query.now.items }
    ensures { Gives fault.NoMemory (λ l. l) result (plain_answer query.now.items query.now.limit query.now.tests (map (λ row. row.now) rows.now)) }
{
    let kept = kept_rows(alloc, query.tests.items(), rows)?;
    limited_lines(alloc, query.items.items(), query.limit, kept.as_slice())
}

/// What a query answers of the rows of the table that the access reaches.
fn reached_answer<R: RowSource, L: Ledger>(
    alloc: Global,
    query: &BoundSelect,
    source: &R,
    table: TableNo,
    access: Access,
    steps: &mut Steps<L>,
) -> Result<LineList, ExecFault>
    requires some { 1 ≤ length query.now.items }
    requires few { length query.now.items ≤ MAX_LINE_CELLS }
    requires plain { All (λ i. is_plain i ≡ true) query.now.items }
    requires access { IsAccessTo (table_at (R.tables source.now) table) access }
    ensures answer { Gives fault.NoMemory (λ l. l) result (plain_answer query.now.items query.now.limit query.now.tests (images (filter (reaches (R.tables source.now) table access) (R.rows source.now)))) }
    ensures steps { steps.new ≤ steps.old + reached (R.tables source.now) table access (R.rows source.now) }
{
    match access {
        Access::Point(key) => answer_of_named(alloc, query, source, &RowId { table, key }, steps),
        access => {
            let rows = reached_rows(alloc, source, table, access, steps)?;
            plain_answer(alloc, query, rows.as_slice())
        }
    }
}

/// What a query of one table without groups and order answers by a plan that leaves out only rows that its tests drop.
fn select_by<R: RowSource, L: Ledger>(
    alloc: Global,
    query: &BoundSelect,
    source: &R,
    plan: Plan,
    steps: &mut Steps<L>,
) -> Result<LineList, ExecFault>
    requires query { IsSoundSelect (R.tables source.now) query.now }
    requires one { length query.now.tables ≡ 1 }
    requires ungrouped { query.now.grouped ≡ false }
    requires unordered { query.now.order ≡ [] }
    requires fits { IsPlanFor (R.tables source.now) query.now.tables plan }
    requires leaves_out { LeavesOut (R.tables source.now) query.now.tables plan (R.rows source.now) (λ cells. kept cells query.now.tests ≡ Ok false) }
    ensures answer { Gives fault.NoMemory (λ l. l) result (answer_of query.now (R.rows source.now)) }
    ensures steps { steps.new ≤ steps.old + steps_of (R.tables source.now) query.now.tables plan (R.rows source.now) }
{
    let table = query.tables.items()[0];
    reached_answer(alloc, query, source, table, plan.first, steps)
}

/// What a query answers by a plan that leaves out only rows, or pairs of rows, that its tests drop.
#[tactic(auto, unfolding(crate::specs::Answers::answer_of))]
fn joined_answer<R: RowSource, L: Ledger>(
    alloc: Global,
    query: &BoundSelect,
    source: &R,
    plan: &Plan,
    steps: &mut Steps<L>,
) -> Result<LineList, ExecFault>
    requires some { 1 ≤ length query.now.items }
    requires few { length query.now.items ≤ MAX_LINE_CELLS }
    requires schema { IsSchema (R.tables source.now) }
    requires rows { AreRowsOf (R.tables source.now) (R.rows source.now) }
    requires fits { IsPlanFor (R.tables source.now) query.now.tables plan.now }
    requires leaves_out { LeavesOut (R.tables source.now) query.now.tables plan.now (R.rows source.now) (λ cells. kept cells query.now.tests ≡ Ok false) }
    ensures answer { Gives fault.NoMemory (λ l. l) result (answer_of query.now (R.rows source.now)) }
    ensures steps { steps.new ≤ steps.old + steps_of (R.tables source.now) query.now.tables plan.now (R.rows source.now) }
{
    let pairs = join(
        alloc,
        source,
        query.tables.items(),
        plan,
        query.tests.items(),
        steps,
    )?;
    let lines = group(alloc, query, pairs.as_slice());
    drop(pairs);
    lines
}

/// Whether a query has one table, and neither groups nor order.
fn is_plain_query(query: &BoundSelect) -> bool
    ensures one { IsTrue result → length query.now.tables ≡ 1 }
    ensures ungrouped { IsTrue result → query.now.grouped ≡ false }
    ensures unordered { IsTrue result → query.now.order ≡ [] }
{
    query.tables.items().len() == 1 && !query.grouped && query.order.items().is_empty()
}

/// What a query answers: its lines, or its first fault. The rows of its table, or the pairs of rows of its two in the order of left
/// key and then right key, are tested first, one after another, and LIMIT spares none of them; then its lines are made, those of its
/// rows or of its groups; they are put in order; then LIMIT leaves the first ones; and then more than
/// [`group_exec::limits::MAX_LINES`] of them are [`ExecFault::ResultTooLong`]. [`ExecFault::NoMemory`] may come at any time.
///
/// Only the rows are looked at that the plan hands out which is chosen for the query. The cost is that of the choice, which takes some
/// steps for each test and each column of a key or an index, what [`join`] takes of rows and pairs, and what [`group`] takes of those
/// that are kept. Where the query has one table, and neither groups nor ORDER BY, no row is copied, and a text only into a line; a
/// query of one row by its key then takes no memory for its rows, and some for its plan.
pub fn select<R: RowSource, L: Ledger>(
    alloc: Global,
    query: &BoundSelect,
    source: &R,
    schema: &Schema,
    steps: &mut Steps<L>,
) -> Result<LineList, ExecFault>
    requires query { IsSoundSelect schema.now query.now }
    requires schema { R.tables source.now ≡ schema.now }
    requires rows { AreRowsOf schema.now (R.rows source.now) }
    ensures answer { Gives fault.NoMemory (λ l. l) result (answer_of query.now (R.rows source.now)) }
    ensures steps { steps.new ≤ steps.old + steps_of schema.now query.now.tables (plans.plan_of schema.now query.now.tables query.now.tests) (R.rows source.now) }
{
    let _count = schema.count();
    tests_drop_what_plans_leave_out();
    let plan = plan_of(alloc, schema, query.tables.items(), query.tests.items())?;
    if is_plain_query(query) {
        return select_by(alloc, query, source, plan, steps);
    }
    let answer = joined_answer(alloc, query, source, &plan, steps);
    drop(plan);
    answer
}
