//! Queries that lock.
ghost use Rattle.std.specs.Prelude.{◌≡◌, ◌+◌, ◌≤◌, true, [], length, map};
ghost use Rattle.std.specs.List.{All};
ghost use Rattle.geo_base.specs.Results.{Gives};
ghost use Rattle.geo_base.specs.declared.limits.TheConstants.{MAX_LINE_CELLS};
ghost use Rattle.geo_schema.specs.Rows.{IsRow};
ghost use Rattle.geo_schema.specs.Schemas.{IsTableNo, table_at};
ghost use Rattle.row_source.specs.Bounds.{steps_of};
ghost use Rattle.row_source.specs.Sources.{AreRowsOf};
ghost use Rattle.row_source.specs.declared.fault.ExecFault.TheVariants as fault;
ghost use Rattle.sql_bind.specs.Sound.{IsSoundLock, is_plain};
ghost use Rattle.sql_exec.specs.Effects.{lock_changes};
ghost use Rattle.sql_exec.specs.inner.Touching.{locked_rows};
ghost use Rattle.sql_plan.specs.Plans as plans;
ghost use Rattle.write_set.specs.Overlay.{overlay};

use crate::choosing::chosen_rows;
use crate::keeping::kept_rows;
use crate::lines::{LineList, limited_lines};
use crate::touching::touches_of;
use geo_base::{Many, RowImage, TableNo};
use geo_schema::Schema;
use row_source::{ExecFault, RowSource, Steps};
use sql_bind::BoundSelect;
use sql_plan::tests_drop_what_plans_leave_out;
use std::alloc::Global;
use std::sync::ledger::Ledger;
use write_set::{RowChangeList, WriteSet};

/// What a query with FOR UPDATE answers.
#[derive(Debug, Drop)]
pub struct Locked {
    /// Its lines.
    pub lines: LineList,
    /// The touches of the rows that it locks and that the transaction's net lacks, for [`crate::apply_changes`].
    pub touches: RowChangeList,
}

/// What a query that locks makes of the rows that are handed out: the lines of those that its tests keep, and the touches of
/// those of them that the net lacks.
fn lock_rows<R: RowSource>(
    alloc: Global,
    query: &BoundSelect,
    source: &R,
    own: &WriteSet,
    schema: &Schema,
    table: TableNo,
    rows: &[&RowImage],
) -> Result<Locked, ExecFault>
    requires some { 1 ≤ length query.now.items }
    requires few { length query.now.items ≤ MAX_LINE_CELLS }
    requires plain { All (λ i. is_plain i ≡ true) query.now.items }
    requires table { IsTableNo schema.now table }
    requires rows { All (IsRow (table_at schema.now table)) (map (λ row. row.now) rows.now) }
    ensures { Gives fault.NoMemory (λ l. (l.lines, l.touches)) result (locked_rows schema.now (R.base source.now) own.now query.now table (map (λ row. row.now) rows.now)) }
{
    let kept = kept_rows(alloc, query.tests.items(), rows)?;
    let lines = limited_lines(alloc, query.items.items(), query.limit, kept.as_slice())?;
    let touches = touches_of(alloc, schema, source, own, table, kept.as_slice())?;
    Ok(Locked {
        lines,
        touches: Many::new(touches),
    })
}

/// What a query with FOR UPDATE answers, of one table and without order: its lines in the order of keys, and the touches of
/// the rows that its conditions keep, past LIMIT too, and that the transaction's net `own` lacks. [`crate::apply_changes`]
/// makes the touches in the net. The rows of the source are those of its base with the net laid over them.
///
/// Where a condition or an item has a fault, the first one is the answer. It is handed no more rows than the plan that is
/// chosen for it reaches. Beside what [`crate::select`] takes the cost is a copy of the key of each row that is kept, a
/// search by halving in the net, and a question to the base for each row that the net lacks.
pub fn lock<R: RowSource, L: Ledger>(
    alloc: Global,
    query: &BoundSelect,
    source: &R,
    own: &WriteSet,
    schema: &Schema,
    steps: &mut Steps<L>,
) -> Result<Locked, ExecFault>
    requires query { IsSoundLock schema.now query.now }
    requires unordered { query.now.order ≡ [] }
    requires schema { R.tables source.now ≡ schema.now }
    requires rows { AreRowsOf schema.now (R.rows source.now) }
    requires laid { R.rows source.now ≡ overlay (R.base source.now) own.now }
    ensures locked { Gives fault.NoMemory (λ l. (l.lines, l.touches)) result (lock_changes query.now (R.base source.now) own.now) }
    ensures steps { steps.new ≤ steps.old + steps_of schema.now query.now.tables (plans.plan_of schema.now query.now.tables query.now.tests) (R.rows source.now) }
{
    tests_drop_what_plans_leave_out();
    let table = query.tables.items()[0];
    let rows = chosen_rows(alloc, source, schema, table, &query.tests, steps)?;
    lock_rows(alloc, query, source, own, schema, table, rows.as_slice())
}
