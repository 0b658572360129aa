//! Joins by plans.
ghost use Rattle.std.specs.Prelude.{◌≡◌, ◌+◌, ◌≤◌, false, [], ◌∷◌, filter, length, map, Ok};
ghost use Rattle.geo_base.specs.Results.{Gives};
ghost use Rattle.geo_schema.specs.Schemas.{IsSchema, table_at};
ghost use Rattle.join_exec.specs.inner.Kept.{kept_behind, pairs_by};
ghost use Rattle.row_source.specs.Bounds.{reached, steps_beside, steps_of};
ghost use Rattle.row_source.specs.Handing.{HasSecond, IsAccessTo, IsPlanFor, LeavesOut, finds_by, finds, reaches};
ghost use Rattle.row_source.specs.Matches.{alone, matches_of};
ghost use Rattle.row_source.specs.Sources.{AreRowsOf, images};
ghost use Rattle.row_source.specs.declared.fault.ExecFault.TheVariants as fault;
ghost use Rattle.sql_expr.specs.Conditions as conditions;

use crate::by_key::keep_by_key;
use crate::by_link::keep_by_link;
use crate::keeping::{keep_alone, keep_product};
use crate::reaching::reached_rows;
use geo_base::{RowImage, TableNo};
use row_source::{Access, ExecFault, JoinKind, Pair, Plan, RowSource, Second, Steps};
use sql_expr::Expr;
use std::alloc::Global;
use std::sync::ledger::Ledger;

/// Keeps those of the rows of one table that the access reaches and the tests keep.
fn join_one<R: RowSource, L: Ledger>(
    alloc: Global,
    source: &R,
    table: TableNo,
    access: &Access,
    tests: &[Expr],
    steps: &mut Steps<L>,
    kept: &mut Vec<Pair>,
) -> Result<(), ExecFault>
    requires { IsAccessTo (table_at (R.tables source.now) table) access.now }
    ensures pairs { Gives fault.NoMemory (λ _. kept.new.items) result (kept_behind tests.now kept.old.items (map alone (images (filter (reaches (R.tables source.now) table access.now) (R.rows source.now))))) }
    ensures steps { steps.new ≤ steps.old + reached (R.tables source.now) table access.now (R.rows source.now) }
{
    let rows = reached_rows(alloc, source, table, access, steps)?;
    keep_alone(alloc, tests, rows.as_slice(), kept)
}

/// Keeps those pairs of the left rows and the rows of the right table that the plan's second part hands out and the tests keep.
fn join_right<R: RowSource, L: Ledger>(
    alloc: Global,
    source: &R,
    table: TableNo,
    second: &Second,
    tests: &[Expr],
    lefts: &[&RowImage],
    steps: &mut Steps<L>,
    kept: &mut Vec<Pair>,
) -> Result<(), ExecFault>
    requires schema { IsSchema (R.tables source.now) }
    requires rows { AreRowsOf (R.tables source.now) (R.rows source.now) }
    requires access { IsAccessTo (table_at (R.tables source.now) table) second.now.access }
    ensures pairs { Gives fault.NoMemory (λ _. kept.new.items) result (kept_behind tests.now kept.old.items (pairs_by (λ left. images (filter (finds_by (R.tables source.now) table second.now.access second.now.join left) (R.rows source.now))) (map (λ row. row.now) lefts.now))) }
    ensures steps { steps.new ≤ steps.old + steps_beside second.now.join (length lefts.now) (reached (R.tables source.now) table second.now.access (R.rows source.now)) }
{
    match &second.join {
        JoinKind::Nested => {
            let rights = reached_rows(alloc, source, table, &second.access, steps)?;
            keep_product(alloc, tests, lefts, rights.as_slice(), kept)
        }
        JoinKind::ByKey(parts) => {
            keep_by_key(
                alloc,
                tests,
                lefts,
                source,
                table,
                parts.items(),
                steps,
                kept,
            )
        }
        JoinKind::Hashed(left, right) => {
            let rights = reached_rows(alloc, source, table, &second.access, steps)?;
            keep_by_link(alloc, tests, lefts, *left, rights.as_slice(), *right, kept)
        }
    }
}

/// Keeps those pairs of rows of two tables that the plan hands out and the tests keep.
fn join_two<R: RowSource, L: Ledger>(
    alloc: Global,
    source: &R,
    left: TableNo,
    right: TableNo,
    plan: &Plan,
    tests: &[Expr],
    steps: &mut Steps<L>,
    kept: &mut Vec<Pair>,
) -> Result<(), ExecFault>
    requires schema { IsSchema (R.tables source.now) }
    requires rows { AreRowsOf (R.tables source.now) (R.rows source.now) }
    requires fits { IsPlanFor (R.tables source.now) (left ∷ right ∷ []) plan.now }
    ensures pairs { Gives fault.NoMemory (λ _. kept.new.items) result (kept_behind tests.now kept.old.items (pairs_by (λ cells. images (filter (finds (R.tables source.now) right plan.now.second cells) (R.rows source.now))) (images (filter (reaches (R.tables source.now) left plan.now.first) (R.rows source.now))))) }
    ensures steps { steps.new ≤ steps.old + steps_of (R.tables source.now) (left ∷ right ∷ []) plan.now (R.rows source.now) }
{
    let Some(second) = &plan.second else {
        unreachable!()
    };
    let lefts = reached_rows(alloc, source, left, &plan.first, steps)?;
    join_right(
        alloc,
        source,
        right,
        second,
        tests,
        lefts.as_slice(),
        steps,
        kept,
    )
}

/// Keeps what the plan hands out of one table or two and the tests keep.
fn join_by<R: RowSource, L: Ledger>(
    alloc: Global,
    source: &R,
    tables: &[TableNo],
    plan: &Plan,
    tests: &[Expr],
    steps: &mut Steps<L>,
    kept: &mut Vec<Pair>,
) -> Result<(), ExecFault>
    requires schema { IsSchema (R.tables source.now) }
    requires rows { AreRowsOf (R.tables source.now) (R.rows source.now) }
    requires fits { IsPlanFor (R.tables source.now) tables.now plan.now }
    requires leaves_out { LeavesOut (R.tables source.now) tables.now plan.now (R.rows source.now) (λ cells. conditions.kept cells tests.now ≡ Ok false) }
    requires none { kept.now.items ≡ [] }
    ensures pairs { Gives fault.NoMemory (λ _. kept.new.items) result (matches_of tables.now tests.now (R.rows source.now)) }
    ensures steps { steps.new ≤ steps.old + steps_of (R.tables source.now) tables.now plan.now (R.rows source.now) }
{
    if tables.len() == 1 {
        return join_one(alloc, source, tables[0], &plan.first, tests, steps, kept);
    }
    join_two(
        alloc, source, tables[0], tables[1], plan, tests, steps, kept,
    )
}

/// The rows of one table in the order of their keys, or the pairs of rows of two in the order of left key and then right key, that
/// every test keeps, whatever the plan. Rows and pairs are tested in this order, and the first fault of a test that is evaluated is the
/// answer; [`ExecFault::NoMemory`] may come at any time. The plan is one for these tables, which leaves out only rows and pairs that
/// the tests drop without a fault.
///
/// The cost is what the source takes to hand out the rows that the plan reaches, and a step for each test of each row or pair that it
/// hands out: nested each left row with each right one; by key one look-up for each left row, and a copy of the key's cells;
/// by link a step for each left and each right row, and the pairs whose cells are equal. A row is copied only where its pair is kept, and
/// beside the pairs that are kept the memory is a reference for each row that is reached, and by link one more for each right row, in a
/// hash table.
pub fn join<R: RowSource, L: Ledger>(
    alloc: Global,
    source: &R,
    tables: &[TableNo],
    plan: &Plan,
    tests: &[Expr],
    steps: &mut Steps<L>,
) -> Result<Vec<Pair>, ExecFault>
    requires schema { IsSchema (R.tables source.now) }
    requires rows { AreRowsOf (R.tables source.now) (R.rows source.now) }
    requires fits { IsPlanFor (R.tables source.now) tables.now plan.now }
    requires leaves_out { LeavesOut (R.tables source.now) tables.now plan.now (R.rows source.now) (λ cells. conditions.kept cells tests.now ≡ Ok false) }
    ensures pairs { Gives fault.NoMemory (λ v. v.items) result (matches_of tables.now tests.now (R.rows source.now)) }
    ensures steps { steps.new ≤ steps.old + steps_of (R.tables source.now) tables.now plan.now (R.rows source.now) }
{
    let mut pairs = Vec::new(alloc);
    join_by(alloc, source, tables, plan, tests, steps, &mut pairs)?;
    Ok(pairs)
}
