//! Rows that are updated.
ghost use Rattle.std.specs.Prelude.{◌≡◌, ◌+◌, ◌<◌, ◌≤◌, [], ◌∷◌, length, map};
ghost use Rattle.std.specs.List.{All};
ghost use Rattle.geo_base.specs.Results.{Gives};
ghost use Rattle.geo_schema.specs.Rows.{IsRow};
ghost use Rattle.geo_schema.specs.Schemas.{IsTableNo, table_at};
ghost use Rattle.row_source.specs.Bounds.{steps_of};
ghost use Rattle.row_source.specs.Sources.{AreRowsOf, of_table};
ghost use Rattle.row_source.specs.declared.fault.ExecFault.TheVariants as fault;
ghost use Rattle.sql_bind.specs.Sound.{IsSoundUpdate};
ghost use Rattle.sql_exec.specs.Effects.{update_changes, update_one, updates_of};
ghost use Rattle.sql_exec.specs.inner.Fitting.{written};
ghost use Rattle.sql_exec.specs.inner.Updating.{set_image, update_row, updates_behind};
ghost use Rattle.sql_plan.specs.Plans as plans;
ghost use Rattle.write_set.specs.Overlay.{overlay};

use crate::choosing::chosen_rows;
use crate::fitting::fitting;
use crate::keeping::is_kept;
use crate::lines::value_over;
use crate::naming::name_of;
use geo_base::{Cell, Many, RowImage, copy_items};
use geo_schema::Schema;
use row_source::{ExecFault, RowSource, Steps};
use sql_bind::{BoundUpdate, SetTo, bound_values_are_of_their_columns_types};
use sql_plan::tests_drop_what_plans_leave_out;
use std::alloc::Global;
use std::sync::ledger::Ledger;
use write_set::{Change, RowChange, RowChangeList, WriteSet};

/// The cells of a row with new values in the columns that are set, all of them over the row as it stands.
#[tactic(auto, using(crate::proofs::Written::all_set))]
fn set_cells(alloc: Global, sets: &[SetTo], row: &[Cell]) -> Result<Vec<Cell>, ExecFault>
    requires { All (λ set. set.column < length row.now) sets.now }
    ensures { Gives fault.NoMemory (λ v. v.items) result (written row.now (map (λ set. set.column) sets.now) (map (λ set. set.value) sets.now) row.now) }
{
    let mut cells = copy_items(alloc, row)?;
    for set in sets {
        cells[set.column as usize] = value_over(alloc, &set.value, row)?;
    }
    Ok(cells)
}

/// The new image of a row, or the first fault of its values and then of its cells.
fn set_image(
    alloc: Global,
    query: &BoundUpdate,
    schema: &Schema,
    row: &RowImage,
) -> Result<RowImage, ExecFault>
    requires table { IsTableNo schema.now query.now.table }
    requires update { IsSoundUpdate schema.now query.now }
    requires row { IsRow (table_at schema.now query.now.table) row.now }
    ensures { Gives fault.NoMemory (λ i. i) result (set_image schema.now query.now row.now) }
{
    bound_values_are_of_their_columns_types();
    let cells = set_cells(alloc, query.sets.items(), row.cells())?;
    fitting(alloc, schema, query.table, cells)
}

/// The change of a row that is kept, or its first fault.
#[tactic(auto, using(crate::proofs::Updated::image_fault, crate::proofs::Updated::image_made))]
fn update_row<R: RowSource>(
    alloc: Global,
    query: &BoundUpdate,
    source: &R,
    schema: &Schema,
    row: &RowImage,
) -> Result<RowChange, ExecFault>
    requires table { IsTableNo schema.now query.now.table }
    requires update { IsSoundUpdate schema.now query.now }
    requires row { IsRow (table_at schema.now query.now.table) row.now }
    ensures { Gives fault.NoMemory (λ c. c) result (update_row schema.now query.now (R.base source.now) row.now) }
{
    let image = set_image(alloc, query, schema, row)?;
    let name = name_of(alloc, schema, query.table, row)?;
    let before = source.base_has(&name);
    let change = Change::Put(image);
    Ok(RowChange {
        row: name,
        before,
        change,
    })
}

/// The changes of those of the rows that the tests keep. One row is tested and changed after another, and the first fault is
/// the answer.
fn update_rows<R: RowSource>(
    alloc: Global,
    query: &BoundUpdate,
    source: &R,
    schema: &Schema,
    rows: &[&RowImage],
) -> Result<Vec<RowChange>, ExecFault>
    requires table { IsTableNo schema.now query.now.table }
    requires update { IsSoundUpdate schema.now query.now }
    requires rows { All (IsRow (table_at schema.now query.now.table)) (map (λ row. row.now) rows.now) }
    ensures { Gives fault.NoMemory (λ v. v.items) result (updates_behind query.now.tests (update_row schema.now query.now (R.base source.now)) [] (map (λ row. row.now) rows.now)) }
{
    let mut changes = Vec::new(alloc);
    for row in rows {
        if is_kept(query.tests.items(), row.cells())? {
            let change = update_row(alloc, query, source, schema, row)?;
            changes.push(change)?;
        }
    }
    Ok(changes)
}

/// The changes of an UPDATE by the plan that is chosen for it, or its first fault.
fn planned_updates<R: RowSource, L: Ledger>(
    alloc: Global,
    query: &BoundUpdate,
    source: &R,
    schema: &Schema,
    steps: &mut Steps<L>,
) -> Result<Vec<RowChange>, ExecFault>
    requires update { IsSoundUpdate schema.now query.now }
    requires schema { R.tables source.now ≡ schema.now }
    requires rows { AreRowsOf schema.now (R.rows source.now) }
    ensures changes { Gives fault.NoMemory (λ v. v.items) result (updates_of query.now.tests (update_one schema.now query.now (R.base source.now)) (of_table query.now.table (R.rows source.now))) }
    ensures steps { steps.new ≤ steps.old + steps_of schema.now (query.now.table ∷ []) (plans.plan_of schema.now (query.now.table ∷ []) query.now.tests) (R.rows source.now) }
{
    tests_drop_what_plans_leave_out();
    let rows = chosen_rows(alloc, source, schema, query.table, &query.tests, steps)?;
    update_rows(alloc, query, source, schema, rows.as_slice())
}

/// The changes of an UPDATE, which [`crate::apply_changes`] makes in the transaction's net `own`: it puts the rows that its
/// conditions keep, with the values that are set. The rows of the source are those of its base with the net laid over them,
/// and none of them is changed by what the statement does to an earlier one. Each row that is kept has a change, also where
/// its image stays the same.
///
/// The rows are taken in the order of their keys. Of each the conditions come first, and where they keep it, its values from
/// left to right, and then its cells in the order of their columns; and the first fault of the first row that has one is the
/// answer: [`ExecFault::Overflow`] or [`ExecFault::DivideByZero`], [`ExecFault::NullNotAllowed`] or
/// [`ExecFault::TextTooLong`]. It is handed no more rows than the plan that is chosen for it reaches. Beside what
/// [`crate::select`] takes for the rows the cost is a copy of each row that is kept and of its key, its values, and a
/// question to the base. An UPDATE of one row by its key takes memory for its plan's key and for its change alone.
pub fn update<R: RowSource, L: Ledger>(
    alloc: Global,
    query: &BoundUpdate,
    source: &R,
    own: &WriteSet,
    schema: &Schema,
    steps: &mut Steps<L>,
) -> Result<RowChangeList, ExecFault>
    requires query { IsSoundUpdate schema.now query.now }
    requires schema { R.tables source.now ≡ schema.now }
    requires rows { AreRowsOf schema.now (R.rows source.now) }
    requires laid { R.rows source.now ≡ overlay (R.base source.now) own.now }
    ensures changes { Gives fault.NoMemory (λ c. c) result (update_changes schema.now query.now (R.base source.now) own.now) }
    ensures steps { steps.new ≤ steps.old + steps_of schema.now (query.now.table ∷ []) (plans.plan_of schema.now (query.now.table ∷ []) query.now.tests) (R.rows source.now) }
{
    let changes = planned_updates(alloc, query, source, schema, steps)?;
    Ok(Many::new(changes))
}
