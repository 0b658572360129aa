//! The plan of a statement.
ghost use Rattle.std.specs.Prelude.{◌≡◌, ◌<◌, ◌≤◌, [], ◌∷◌, length, IfOk};
ghost use Rattle.std.specs.List.{All};
ghost use Rattle.geo_schema.specs.Tables.{IsTable};
ghost use Rattle.row_source.specs.Handing.{IsPlanFor};
ghost use Rattle.sql_plan.specs.Plans as plans;

use crate::access::access_of;
use crate::joins::join_of;
use crate::links::links_of;
use crate::tables::shown_table;
use crate::tests::table_tests;
use geo_base::{NoMemory, TableNo};
use geo_schema::{Schema, TableDef};
use row_source::{Access, Plan, Second};
use sql_expr::Expr;
use std::alloc::Global;

/// The access to the left table, whose columns are counted first.
fn first_access(alloc: Global, left: &TableDef, tests: &[Expr]) -> Result<Access, NoMemory>
    requires { IsTable left.now }
    ensures { IfOk result (λ way. way ≡ plans.first_access left.now tests.now) }
{
    let own = table_tests(tests, 0, left.columns.items().len());
    access_of(alloc, left, &own)
}

/// The access to the right table and the join to it.
fn second_of(
    alloc: Global,
    left: &TableDef,
    right: &TableDef,
    tests: &[Expr],
) -> Result<Second, NoMemory>
    requires left { IsTable left.now }
    requires right { IsTable right.now }
    ensures { IfOk result (λ second. second ≡ plans.second_of left.now right.now tests.now) }
{
    let (lefts, rights) = (left.columns.items().len(), right.columns.items().len());
    let own = table_tests(tests, lefts, rights);
    let links = links_of(alloc, tests, lefts, rights)?;
    let access = access_of(alloc, right, &own)?;
    let join = join_of(alloc, right, &own, links.as_slice())?;
    Ok(Second { access, join })
}

/// The plan of a statement over one table.
#[tactic(auto, unfolding(crate::specs::Plans::plan_of))]
fn plan_of_one(
    alloc: Global,
    schema: &Schema,
    left: TableNo,
    tests: &[Expr],
) -> Result<Plan, NoMemory>
    requires { left < length schema.now.shown }
    ensures { IfOk result (λ plan. plan ≡ plans.plan_of schema.now (left ∷ []) tests.now) }
{
    let first = first_access(alloc, shown_table(schema, left), tests)?;
    Ok(Plan {
        first,
        second: None,
    })
}

/// The plan of a statement over two tables.
#[tactic(auto, unfolding(crate::specs::Plans::plan_of))]
fn plan_of_two(
    alloc: Global,
    schema: &Schema,
    left: TableNo,
    right: TableNo,
    tests: &[Expr],
) -> Result<Plan, NoMemory>
    requires left { left < length schema.now.shown }
    requires right { right < length schema.now.shown }
    ensures { IfOk result (λ plan. plan ≡ plans.plan_of schema.now (left ∷ right ∷ []) tests.now) }
{
    let left = shown_table(schema, left);
    let second = second_of(alloc, left, shown_table(schema, right), tests)?;
    let first = first_access(alloc, left, tests)?;
    Ok(Plan {
        first,
        second: Some(second),
    })
}

/// The plan of a statement over one table or two, by its conjuncts. Walks each of them once, and once more for a second
/// table; then takes, for each column of a key or an index, some steps for each conjunct. Memory is taken for the cells of
/// the access alone, and with two tables for the links and the parts of a join: the plan of one row by its key takes that of
/// the key.
#[tactic(auto, using(crate::proofs::Numbers::one_number, crate::proofs::Numbers::two_numbers, crate::proofs::Fitting::chosen_fits))]
pub fn plan_of(
    alloc: Global,
    schema: &Schema,
    tables: &[TableNo],
    tests: &[Expr],
) -> Result<Plan, NoMemory>
    requires some { 1 ≤ length tables.now }
    requires few { length tables.now ≤ 2 }
    requires shown { All (λ table. table < length schema.now.shown) tables.now }
    ensures choice { IfOk result (λ plan. plan ≡ plans.plan_of schema.now tables.now tests.now) }
    ensures fits { IfOk result (IsPlanFor schema.now tables.now) }
{
    if tables.len() == 1 {
        return Ok(plan_of_one(alloc, schema, tables[0], tests)?);
    }
    Ok(plan_of_two(alloc, schema, tables[0], tables[1], tests)?)
}
