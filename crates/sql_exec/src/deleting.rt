//! DELETE.
ghost use Rattle.std.specs.Prelude.{◌≡◌, ◌+◌, ◌≤◌, [], ◌∷◌, map, IfOk};
ghost use Rattle.std.specs.List.{All};
ghost use Rattle.geo_base.specs.Results.{Gives};
ghost use Rattle.geo_schema.specs.Rows.{IsRow};
ghost use Rattle.geo_schema.specs.Schemas.{IsTableNo, table_at};
ghost use Rattle.row_source.specs.Bounds.{steps_of};
ghost use Rattle.row_source.specs.Sources.{AreRowsOf};
ghost use Rattle.row_source.specs.declared.fault.ExecFault.TheVariants as fault;
ghost use Rattle.sql_bind.specs.Sound.{IsSoundDelete};
ghost use Rattle.sql_exec.specs.Effects.{change_of, delete_changes};
ghost use Rattle.sql_exec.specs.inner.Naming.{name_in};
ghost use Rattle.sql_exec.specs.inner.Removing.{removals_by, removed_rows};
ghost use Rattle.sql_plan.specs.Plans as plans;
ghost use Rattle.write_set.specs.Overlay.{overlay};
ghost use Rattle.write_set.specs.declared.change.Change.TheVariants as change;

use crate::choosing::chosen_rows;
use crate::keeping::kept_rows;
use crate::naming::name_of;
use geo_base::{Many, NoMemory, RowId, RowImage, TableNo};
use geo_schema::Schema;
use row_source::{ExecFault, RowSource, Steps};
use sql_bind::BoundDelete;
use sql_plan::tests_drop_what_plans_leave_out;
use std::alloc::Global;
use std::sync::ledger::Ledger;
use write_set::{Change, RowChange, RowChangeList, WriteSet};

/// The removal of a row.
fn removal<R: RowSource>(source: &R, row: RowId) -> RowChange
    ensures { result ≡ change_of (R.base source.now) row change.Remove }
{
    let before = source.base_has(&row);
    RowChange {
        row,
        before,
        change: Change::Remove,
    }
}

/// The removals of the rows of the table.
#[tactic(auto, using(crate::proofs::Removed::none))]
fn removals_of<R: RowSource>(
    alloc: Global,
    schema: &Schema,
    source: &R,
    table: TableNo,
    rows: &[&RowImage],
) -> Result<Vec<RowChange>, NoMemory>
    requires table { IsTableNo schema.now table }
    requires rows { All (IsRow (table_at schema.now table)) (map (λ row. row.now) rows.now) }
    ensures { IfOk result (λ v. v.items ≡ removals_by (R.base source.now) (map (name_in schema.now table) (map (λ row. row.now) rows.now))) }
{
    let mut removals = Vec::new(alloc);
    for row in rows {
        let name = name_of(alloc, schema, table, row)?;
        removals.push(removal(source, name))?;
    }
    Ok(removals)
}

/// What a DELETE makes of the rows that are handed out: it removes those that its tests keep.
fn delete_rows<R: RowSource>(
    alloc: Global,
    query: &BoundDelete,
    source: &R,
    schema: &Schema,
    rows: &[&RowImage],
) -> Result<RowChangeList, ExecFault>
    requires table { IsTableNo schema.now query.now.table }
    requires rows { All (IsRow (table_at schema.now query.now.table)) (map (λ row. row.now) rows.now) }
    ensures { Gives fault.NoMemory (λ c. c) result (removed_rows schema.now (R.base source.now) query.now (map (λ row. row.now) rows.now)) }
{
    let kept = kept_rows(alloc, query.tests.items(), rows)?;
    let removals = removals_of(alloc, schema, source, query.table, kept.as_slice())?;
    Ok(Many::new(removals))
}

/// The changes of a DELETE, which [`crate::apply_changes`] makes in the transaction's net `own`: each row that its conditions
/// keep is removed. In the net a removal takes the place of what it had of the row; of a row that the base lacks, since the
/// transaction has put it itself, nothing is left. The rows of the source are those of its base with the net laid over them.
///
/// Where a condition has a fault, the first one is the answer. It is handed no more rows than the plan that is chosen for it
/// reaches. Beside the choice, what the source takes to hand the rows out, and a step for each of them and each test, the
/// cost is a copy of the key of each row that is kept, and a question to the base for it.
pub fn delete<R: RowSource, L: Ledger>(
    alloc: Global,
    query: &BoundDelete,
    source: &R,
    own: &WriteSet,
    schema: &Schema,
    steps: &mut Steps<L>,
) -> Result<RowChangeList, ExecFault>
    requires query { IsSoundDelete schema.now query.now }
    requires schema { R.tables source.now ≡ schema.now }
    requires rows { AreRowsOf schema.now (R.rows source.now) }
    requires laid { R.rows source.now ≡ overlay (R.base source.now) own.now }
    ensures changes { Gives fault.NoMemory (λ c. c) result (delete_changes query.now (R.base source.now) own.now) }
    ensures steps { steps.new ≤ steps.old + steps_of schema.now (query.now.table ∷ []) (plans.plan_of schema.now (query.now.table ∷ []) query.now.tests) (R.rows source.now) }
{
    tests_drop_what_plans_leave_out();
    let rows = chosen_rows(alloc, source, schema, query.table, &query.tests, steps)?;
    delete_rows(alloc, query, source, schema, rows.as_slice())
}
