//! The rows of one table by the plan that is chosen.
ghost use Rattle.std.specs.Prelude.{◌≡◌, ◌+◌, ◌<◌, ◌≤◌, [], ◌∷◌, filter, length, IfOk};
ghost use Rattle.std.specs.List.{All};
ghost use Rattle.geo_schema.specs.Rows.{IsRow};
ghost use Rattle.geo_schema.specs.Schemas.{IsTableNo, table_at};
ghost use Rattle.row_source.specs.Bounds.{steps_of};
ghost use Rattle.row_source.specs.Handing.{IsAccessTo, reaches};
ghost use Rattle.row_source.specs.Sources.{AreRowsOf, images};
ghost use Rattle.sql_exec.specs.inner.Reaching.{rows_in};
ghost use Rattle.sql_plan.specs.Plans as plans;

use crate::reaching::{Reached, reached_rows};
use geo_base::{NoMemory, TableNo};
use geo_schema::Schema;
use row_source::{Access, RowSource, Steps};
use sql_bind::ExprList;
use sql_plan::plan_of;
use std::alloc::Global;
use std::sync::ledger::Ledger;

/// The access to the table that is chosen by the tests.
fn chosen_access(
    alloc: Global,
    schema: &Schema,
    table: TableNo,
    tests: &ExprList,
) -> Result<Access, NoMemory>
    requires { table < length schema.now.shown }
    ensures choice { IfOk result (λ way. way ≡ (plans.plan_of schema.now (table ∷ []) tests.now).first) }
    ensures fits { IfOk result (IsAccessTo (table_at schema.now table)) }
{
    let plan = plan_of(alloc, schema, &[table], tests.items())?;
    Ok(plan.first)
}

/// The rows of the table by the plan that is chosen by the tests, in the order of their keys.
pub(crate) fn chosen_rows<'a, R: RowSource, L: Ledger>(
    alloc: Global,
    source: &'a R,
    schema: &Schema,
    table: TableNo,
    tests: &ExprList,
    steps: &mut Steps<L>,
) -> Result<Reached<'a>, NoMemory>
    requires shown { table < length schema.now.shown }
    requires schema { R.tables source.now ≡ schema.now }
    requires rows { AreRowsOf schema.now (R.rows source.now) }
    ensures table { IsTableNo schema.now table }
    ensures rows { IfOk result (λ found. rows_in found ≡ images (filter (reaches schema.now table (plans.plan_of schema.now (table ∷ []) tests.now).first) (R.rows source.entry.now))) }
    ensures fit { IfOk result (λ found. All (IsRow (table_at schema.now table)) (rows_in found)) }
    ensures steps { steps.new ≤ steps.old + steps_of schema.now (table ∷ []) (plans.plan_of schema.now (table ∷ []) tests.now) (R.rows source.entry.now) }
{
    let _count = schema.count();
    let access = chosen_access(alloc, schema, table, tests)?;
    reached_rows(alloc, source, table, access, steps)
}
