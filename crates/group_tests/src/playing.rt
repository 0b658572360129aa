//! Lines of queries and of what is wanted of them, played over the tables and rows of texts.
ghost use Rattle.std.specs.Prelude.{◌≡◌};
ghost use Rattle.sql_bind.specs.Sound.{IsSoundSelect};
ghost use Rattle.sql_bind.specs.Statements as statements;

use crate::printing::print_answer;
use geo_base::{Duplicate, RowImage, TableNo};
use geo_schema::Schema;
use group_exec::group;
use row_source::{ExecFault, Pair, RowImageAt, passes};
use rows_kit::{rows_of, schema_of};
use sql_ast::Statement;
use sql_bind::{Bound, BoundSelect, bind};
use sql_expr::Expr;
use sql_parse::parse;
use std::alloc::Global;
use std::test::Fail;

/// Accounts, numbers by kinds, and a table for many rows.
pub const TABLES: &str = "\
acc|id i,owner i,amount i,name t,good b|0|
num|id i,kind i,v i|0|
void|id i,value i|0|";

/// Numbered as the tables are, from 0.
pub const ROWS: &str = "\
0: 1 7 10 'b yes
0: 2 8 20 'a no
0: 3 - 30 - -
0: 4 7 - 'c yes
0: 5 8 5 'a -
0: 6 - 30 'b no
1: 1 1 9223372036854775807
1: 2 1 1
1: 3 0 -2
1: 4 2 -9223372036854775808
1: 5 2 -1";

/// Whether the tests keep the pair.
fn keeps(tests: &[Expr], pair: &Pair) -> Result<bool, ExecFault> {
    match &pair.right {
        Some(right) => passes(tests, pair.left.cells(), right.cells()),
        None => passes(tests, pair.left.cells(), &[]),
    }
}

/// Adds the pair, if the tests keep it.
fn add_kept(pairs: &mut Vec<Pair>, tests: &[Expr], pair: Pair) -> Result<(), Fail> {
    if keeps(tests, &pair)? {
        pairs.push(pair)?;
    }
    Ok(())
}

fn add_beside(
    alloc: Global,
    pairs: &mut Vec<Pair>,
    tests: &[Expr],
    left: &RowImage,
    rows: &[RowImageAt],
    right: TableNo,
) -> Result<(), Fail> {
    for at in rows {
        if at.row.table == right {
            let pair = Pair {
                left: left.copy(alloc)?,
                right: Some(at.image.copy(alloc)?),
            };
            add_kept(pairs, tests, pair)?;
        }
    }
    Ok(())
}

fn add_alone(
    alloc: Global,
    pairs: &mut Vec<Pair>,
    tests: &[Expr],
    left: &RowImage,
) -> Result<(), Fail> {
    let pair = Pair {
        left: left.copy(alloc)?,
        right: None,
    };
    add_kept(pairs, tests, pair)
}

/// The rows of the query's one table, or the pairs of rows of its two, that its tests keep.
fn pairs_of(
    alloc: Global,
    rows: &[RowImageAt],
    tables: &[TableNo],
    tests: &[Expr],
) -> Result<Vec<Pair>, Fail> {
    let mut pairs = Vec::new(alloc);
    let left = tables.first().copied().ok_or("no table")?;
    for at in rows {
        if at.row.table == left {
            match tables.get(1) {
                Some(right) => add_beside(alloc, &mut pairs, tests, &at.image, rows, *right)?,
                None => add_alone(alloc, &mut pairs, tests, &at.image)?,
            }
        }
    }
    Ok(pairs)
}

/// Writes what the query is answered.
fn print_query(
    out: &mut String,
    alloc: Global,
    schema: &Schema,
    rows: &[RowImageAt],
    query: &BoundSelect,
) -> Result<(), Fail>
    requires { IsSoundSelect schema.now query.now }
{
    let pairs = pairs_of(alloc, rows, query.tables.items(), query.tests.items())?;
    let answer = group(alloc, query, pairs.as_slice());
    drop(pairs);
    let printed = print_answer(out, &answer);
    drop(answer);
    Ok(printed?)
}

/// Whether the statement is one that is bound.
fn is_of_tables(statement: &Statement) -> bool
    ensures { result ≡ statements.is_of_tables statement.now }
{
    match statement {
        Statement::Begin | Statement::BeginAsOf(_) | Statement::Commit | Statement::Rollback =>
            false,
        _ => true,
    }
}

fn print_statement(
    out: &mut String,
    alloc: Global,
    schema: &Schema,
    rows: &[RowImageAt],
    statement: &Statement,
) -> Result<(), Fail> {
    if !is_of_tables(statement) {
        return Err("no statement of tables".into());
    }
    let bound = bind(alloc, statement, schema);
    let printed = match &bound {
        Ok(Bound::Select(query)) => print_query(out, alloc, schema, rows, query),
        Ok(_) => Err("a statement that is no query".into()),
        Err(_) => Err("a statement that isn't bound".into()),
    };
    drop(bound);
    printed
}

/// The statement of a text of at most as many bytes as a script's statements have.
fn statement_of(alloc: Global, text: &str) -> Result<Statement, Fail> {
    if text.len() > 16_384 {
        return Err("a statement that is too long".into());
    }
    Ok(parse(alloc, text)?)
}

/// What the query of a text is answered.
fn answer(alloc: Global, schema: &Schema, rows: &[RowImageAt], text: &str) -> Result<String, Fail> {
    let mut out = String::new(alloc);
    let statement = statement_of(alloc, text)?;
    let printed = print_statement(&mut out, alloc, schema, rows, &statement);
    drop(statement);
    printed?;
    Ok(out)
}

/// What the line's query is answered in place of what the line says, if it is.
fn wrong(
    alloc: Global,
    schema: &Schema,
    rows: &[RowImageAt],
    line: &str,
) -> Result<Option<String>, Fail> {
    let (text, want) = line.split_once(" =>").ok_or("a line without an answer")?;
    let found = answer(alloc, schema, rows, text)?;
    if found.as_str() == want {
        return Ok(None);
    }
    Ok(Some(format!(in alloc; "found{found} in {line}")?))
}

fn first_wrong_of(
    alloc: Global,
    schema: &Schema,
    rows: &[RowImageAt],
    lines: &str,
) -> Result<Option<String>, Fail> {
    for line in lines.lines() {
        if let Some(wrong) = wrong(alloc, schema, rows, line)? {
            return Ok(Some(wrong));
        }
    }
    Ok(None)
}

fn first_wrong_over(
    alloc: Global,
    schema: &Schema,
    rows: &str,
    lines: &str,
) -> Result<Option<String>, Fail> {
    let rows = rows_of(alloc, schema, rows)?;
    let found = first_wrong_of(alloc, schema, rows.as_slice(), lines);
    drop(rows);
    found
}

/// The first line whose query isn't answered as it says, behind what it is answered. Each line has a query, an arrow,
/// and the lines or the fault, each behind a space.
pub fn first_wrong(alloc: Global, rows: &str, lines: &str) -> Result<Option<String>, Fail> {
    let schema = schema_of(alloc, TABLES)?;
    let found = first_wrong_over(alloc, &schema, rows, lines);
    drop(schema);
    found
}

/// Plays the lines over the rows, and fails with the first that is wrong.
pub fn play_over(alloc: Global, rows: &str, lines: &str) -> Result<(), Fail> {
    match first_wrong(alloc, rows, lines)? {
        Some(wrong) => Err(Fail::new(wrong)),
        None => Ok(()),
    }
}

/// Plays the lines over the sample, and fails with the first that is wrong.
pub fn play(alloc: Global, lines: &str) -> Result<(), Fail> {
    play_over(alloc, ROWS, lines)
}
