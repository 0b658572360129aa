//! Lines of queries and of what is wanted of their joins, played over the tables and rows of texts.
ghost use Rattle.std.specs.Prelude.{◌≡◌, ◌<◌, false, IfOk, Ok};
ghost use Rattle.geo_schema.specs.Schemas.{IsSchema};
ghost use Rattle.row_source.specs.Handing.{IsPlanFor, LeavesOut};
ghost use Rattle.row_source.specs.Sources.{AreRowsOf};
ghost use Rattle.sql_bind.specs.Sound.{IsSoundSelect};
ghost use Rattle.sql_bind.specs.Statements as statements;
ghost use Rattle.sql_expr.specs.Conditions.{kept};

use crate::plans::{print_plan, whole_plan};
use crate::printing::print_answer;
use geo_schema::Schema;
use join_exec::join;
use row_source::{ListSource, Plan, Steps};
use rows_kit::{are_rows, lay_over, rows_of, schema_of};
use sql_ast::Statement;
use sql_bind::{Bound, BoundSelect, bind};
use sql_parse::parse;
use sql_plan::{plan_of, tests_drop_what_plans_leave_out};
use std::alloc::Global;
use std::marker::Brand;
use std::sync::ledger::{Blank, Ledger};
use std::test::Fail;
use write_set::WriteSet;

/// Accounts, customers, and events with a key of two columns.
const TABLES: &str = "\
acc|id i,owner i,amount i,name t|0|by_owner 1
cust|id i,name t|0|
event|day i,acc i,size i|01|";

/// Numbered as the tables are, from 0.
const ROWS: &str = "\
0: 10 1 100 'a
0: 11 2 50 'b
0: 12 - 70 'c
0: 13 1 - -
0: 14 9 0 'a
1: 1 'x
1: 2 'a
1: 3 -
2: 1 10 5
2: 1 11 -
2: 2 10 7";

/// The source of the rows.
fn source_of<'a>(alloc: Global, schema: &'a Schema) -> Result<ListSource<'a>, Fail>
    ensures schema { IfOk result (λ source. source.tables ≡ schema.entry.now) }
    ensures rows { IfOk result (λ source. AreRowsOf schema.entry.now source.rows) }
{
    let rows = rows_of(alloc, schema, ROWS)?;
    let own = WriteSet::empty(alloc);
    let laid = lay_over(alloc, rows, &own)?;
    if !are_rows(alloc, schema, laid.rows.as_slice())? {
        return Err("rows of no table".into());
    }
    Ok(ListSource::over(schema, laid.rows, laid.base))
}

/// Writes what the query's tables and tests give by the plan.
fn print_joined<L: Ledger>(
    out: &mut String,
    alloc: Global,
    source: &ListSource,
    query: &BoundSelect,
    plan: &Plan,
    steps: &mut Steps<L>,
) -> Result<(), Fail>
    requires schema { IsSchema source.now.tables }
    requires rows { AreRowsOf source.now.tables source.now.rows }
    requires fits { IsPlanFor source.now.tables query.now.tables plan.now }
    requires leaves_out { LeavesOut source.now.tables query.now.tables plan.now source.now.rows (λ cells. kept cells query.now.tests ≡ Ok false) }
{
    let tables = query.tables.items();
    let answer = join(alloc, source, tables, plan, query.tests.items(), steps);
    let printed = print_answer(out, &answer);
    drop(answer);
    Ok(printed?)
}

/// What the query's tables and tests give by the plan that hands out everything.
fn whole_answer<L: Ledger>(
    alloc: Global,
    schema: &Schema,
    source: &ListSource,
    query: &BoundSelect,
    steps: &mut Steps<L>,
) -> Result<String, Fail>
    requires query { IsSoundSelect schema.now query.now }
    requires schema { source.now.tables ≡ schema.now }
    requires rows { AreRowsOf schema.now source.now.rows }
{
    let _count = schema.count();
    let mut out = String::new(alloc);
    let plan = whole_plan(query.tables.items());
    let printed = print_joined(&mut out, alloc, source, query, &plan, steps);
    drop(plan);
    printed?;
    Ok(out)
}

/// The same by the plan that is chosen, whose name is written.
fn chosen_answer<L: Ledger>(
    name: &mut String,
    alloc: Global,
    schema: &Schema,
    source: &ListSource,
    query: &BoundSelect,
    steps: &mut Steps<L>,
) -> Result<String, Fail>
    requires query { IsSoundSelect schema.now query.now }
    requires schema { source.now.tables ≡ schema.now }
    requires rows { AreRowsOf schema.now source.now.rows }
{
    let _count = schema.count();
    tests_drop_what_plans_leave_out();
    let mut out = String::new(alloc);
    let plan = plan_of(alloc, schema, query.tables.items(), query.tests.items())?;
    let named = print_plan(name, &plan);
    let printed = print_joined(&mut out, alloc, source, query, &plan, steps);
    drop(plan);
    printed?;
    named?;
    Ok(out)
}

/// The name of the plan that is chosen, and what it gives; and what the plan gives that hands out everything, where that is something
/// else.
fn both_answers<L: Ledger>(
    alloc: Global,
    schema: &Schema,
    source: &ListSource,
    query: &BoundSelect,
    steps: &mut Steps<L>,
) -> Result<String, Fail>
    requires query { IsSoundSelect schema.now query.now }
    requires schema { source.now.tables ≡ schema.now }
    requires rows { AreRowsOf schema.now source.now.rows }
{
    let mut out = String::new(alloc);
    let chosen = chosen_answer(&mut out, alloc, schema, source, query, steps)?;
    let whole = whole_answer(alloc, schema, source, query, steps)?;
    out.push_str(chosen.as_str())?;
    if whole.as_str() != chosen.as_str() {
        out.push_str(", but in all")?;
        out.push_str(whole.as_str())?;
    }
    Ok(out)
}

/// Whether the statement is one that is bound.
fn is_of_tables(statement: &Statement) -> bool
    ensures { result ≡ statements.is_of_tables statement.now }
{
    match statement {
        Statement::Begin | Statement::BeginAsOf(_) | Statement::Commit | Statement::Rollback =>
            false,
        _ => true,
    }
}

fn statement_answer<L: Ledger>(
    alloc: Global,
    schema: &Schema,
    source: &ListSource,
    statement: &Statement,
    steps: &mut Steps<L>,
) -> Result<String, Fail>
    requires schema { source.now.tables ≡ schema.now }
    requires rows { AreRowsOf schema.now source.now.rows }
{
    if !is_of_tables(statement) {
        return Err("no statement of tables".into());
    }
    let bound = bind(alloc, statement, schema);
    let answer = match &bound {
        Ok(Bound::Select(query)) => both_answers(alloc, schema, source, query, steps),
        Ok(_) => Err("a statement that is no query".into()),
        Err(_) => Err("a statement that isn't bound".into()),
    };
    drop(bound);
    answer
}

/// The statement of a text of at most as many bytes as a script's statements have.
fn statement_of(alloc: Global, text: &str) -> Result<Statement, Fail> {
    if text.len() > 16_384 {
        return Err("a statement that is too long".into());
    }
    Ok(parse(alloc, text)?)
}

/// What the line's query gives in place of what the line says, if it does.
fn wrong<L: Ledger>(
    alloc: Global,
    schema: &Schema,
    source: &ListSource,
    line: &str,
    steps: &mut Steps<L>,
) -> Result<Option<String>, Fail>
    requires schema { source.now.tables ≡ schema.now }
    requires rows { AreRowsOf schema.now source.now.rows }
{
    let (text, want) = line.split_once(" => ").ok_or("a line without an answer")?;
    let statement = statement_of(alloc, text)?;
    let found = statement_answer(alloc, schema, source, &statement, steps);
    drop(statement);
    let found = found?;
    if found.as_str() == want {
        return Ok(None);
    }
    Ok(Some(format!(in alloc; "found {found} in {line}")?))
}

fn first_wrong_of<L: Ledger>(
    alloc: Global,
    schema: &Schema,
    source: &ListSource,
    lines: &str,
    steps: &mut Steps<L>,
) -> Result<Option<String>, Fail>
    requires schema { source.now.tables ≡ schema.now }
    requires rows { AreRowsOf schema.now source.now.rows }
{
    for line in lines.lines() {
        if let Some(wrong) = wrong(alloc, schema, source, line, steps)? {
            return Ok(Some(wrong));
        }
    }
    Ok(None)
}

fn first_wrong_over<L: Ledger>(
    alloc: Global,
    schema: &Schema,
    lines: &str,
    steps: &mut Steps<L>,
) -> Result<Option<String>, Fail> {
    let source = source_of(alloc, schema)?;
    let found = first_wrong_of(alloc, schema, &source, lines, steps);
    drop(source);
    found
}

fn first_wrong_on<L: Ledger>(
    alloc: Global,
    lines: String,
    blank: Blank,
) -> Result<Option<String>, Fail>
    requires name { blank.name ≡ L.name }
    requires parts { blank.parts ≡ L.parts }
    requires some { 0 < L.parts }
{
    let schema = schema_of(alloc, TABLES)?;
    let mut steps: Steps<L> = Steps::new(blank);
    let found = first_wrong_over(alloc, &schema, lines.as_str(), &mut steps);
    drop(schema);
    drop(lines);
    found
}

/// The first line that isn't as it says, behind what it is. Each line has a query, an arrow, the plan that is chosen for it, and each
/// row or pair that is kept, or the fault, behind a space.
pub fn first_wrong(alloc: Global, lines: &str) -> Result<Option<String>, Fail> {
    let lines = String::from_str(alloc, lines)?;
    first_wrong_on::<Brand>(alloc, lines, Blank::new(1))
}

/// Plays the lines, and fails with the first that is wrong.
pub fn play(alloc: Global, lines: &str) -> Result<(), Fail> {
    match first_wrong(alloc, lines)? {
        Some(wrong) => Err(Fail::new(wrong)),
        None => Ok(()),
    }
}
