//! Statements and what is wanted of them, as lines of a text.
ghost use Rattle.std.specs.Prelude.{◌<◌, ◌≤◌, length, IsTrue};
ghost use Rattle.std.specs.List.{All};

use crate::expressions::expressions;
use crate::plans::print_plan;
use crate::tables::schema;
use geo_base::{TableNo, Txt};
use geo_schema::Schema;
use sql_expr::Expr;
use sql_plan::{plan_lines, plan_of};
use std::alloc::Global;
use std::test::Fail;

/// The tables of a text of numbers.
fn numbers(alloc: Global, text: &str) -> Result<Vec<TableNo>, Fail> {
    let mut tables = Vec::new(alloc);
    for word in text.split_whitespace() {
        tables.push(word.parse()?)?;
    }
    Ok(tables)
}

/// Whether each table is one that is shown.
fn are_shown(schema: &Schema, tables: &[TableNo]) -> bool
    ensures { IsTrue result → All (λ table. table < length schema.now.shown) tables.now }
{
    let count = schema.count();
    tables.iter().all(|table| *table < count)
}

fn print_lines(out: &mut String, lines: &[Txt]) -> Result<(), Fail> {
    for line in lines {
        out.push_str(" | ")?;
        out.push_str(line.text())?;
    }
    Ok(())
}

/// The plan of the tests over the tables, and behind it its lines.
fn planned(
    alloc: Global,
    schema: &Schema,
    tables: &[TableNo],
    tests: &[Expr],
) -> Result<String, Fail>
    requires some { 1 ≤ length tables.now }
    requires few { length tables.now ≤ 2 }
    requires shown { All (λ table. table < length schema.now.shown) tables.now }
{
    let mut out = String::new(alloc);
    let plan = plan_of(alloc, schema, tables, tests)?;
    let lines = plan_lines(alloc, schema, tables, &plan)?;
    print_plan(&mut out, &plan)?;
    drop(plan);
    print_lines(&mut out, lines.as_slice())?;
    Ok(out)
}

/// What is planned for the statement of a text, which has its tables, a colon and its conjuncts.
fn answer(alloc: Global, schema: &Schema, text: &str) -> Result<String, Fail> {
    let (tables, tests) = text.split_once(':').ok_or("a statement without conjuncts")?;
    let tables = numbers(alloc, tables)?;
    let tests = expressions(alloc, tests)?;
    if tables.is_empty() || tables.len() > 2 || !are_shown(schema, tables.as_slice()) {
        return Err("no such tables".into());
    }
    planned(alloc, schema, tables.as_slice(), tests.as_slice())
}

/// The line and what is planned for its statement, if that isn't what the line says.
fn wrong(alloc: Global, schema: &Schema, line: &str) -> Result<Option<String>, Fail> {
    let (text, want) = line.split_once(" => ").ok_or("a line without a plan")?;
    let found = answer(alloc, schema, text)?;
    if found.as_str() == want {
        return Ok(None);
    }
    Ok(Some(format!(in alloc; "{line}, but found {found}")?))
}

/// The first line whose statement isn't planned as it says. Each line has a statement, an arrow and the plan with its
/// lines.
pub fn first_wrong(alloc: Global, lines: &str) -> Result<Option<String>, Fail> {
    let schema = schema(alloc)?;
    for line in lines.lines() {
        if let Some(wrong) = wrong(alloc, &schema, line)? {
            return Ok(Some(wrong));
        }
    }
    Ok(None)
}
