//! What is bound, or why not, as a text.
ghost use Rattle.std.specs.Prelude.{◌≡◌};
ghost use Rattle.sql_bind.specs.Statements as statements;

use crate::expressions::{print_column, print_expression, print_number};
use geo_base::{NoMemory, Txt};
use geo_schema::Schema;
use sql_ast::Statement;
use sql_bind::{
    BindFault, Bound, BoundDelete, BoundInsert, BoundSelect, BoundUpdate, Item, Sort, SortBy, bind,
};
use sql_expr::Expr;
use sql_parse::parse;
use std::alloc::Global;
use std::test::Fail;

fn print_tests(out: &mut String, tests: &[Expr]) -> Result<(), NoMemory> {
    for test in tests {
        out.push_str(" where ")?;
        print_expression(out, test)?;
    }
    Ok(())
}

fn print_aggregate(out: &mut String, name: &str, expr: &Expr) -> Result<(), NoMemory> {
    out.push_str(name)?;
    out.push_str("(")?;
    print_expression(out, expr)?;
    Ok(out.push_str(")")?)
}

fn print_item(out: &mut String, item: &Item) -> Result<(), NoMemory> {
    out.push_str(" ")?;
    match item {
        Item::Plain(expr) => print_expression(out, expr),
        Item::CountAll => Ok(out.push_str("count")?),
        Item::Count(expr) => print_aggregate(out, "count", expr),
        Item::Sum(expr) => print_aggregate(out, "sum", expr),
        Item::Min(expr) => print_aggregate(out, "min", expr),
        Item::Max(expr) => print_aggregate(out, "max", expr),
    }
}

fn print_sort(out: &mut String, sort: &Sort) -> Result<(), NoMemory> {
    out.push_str(if sort.descending { " down " } else { " up " })?;
    match sort.by {
        SortBy::Item(place) => {
            out.push_str("item ")?;
            print_number(out, place as u64)
        }
        SortBy::Column(place) => print_column(out, place),
    }
}

fn print_limit(out: &mut String, limit: Option<u64>) -> Result<(), NoMemory> {
    match limit {
        None => Ok(()),
        Some(limit) => {
            out.push_str(" limit ")?;
            print_number(out, limit)
        }
    }
}

fn print_group(out: &mut String, select: &BoundSelect) -> Result<(), NoMemory> {
    if select.grouped {
        out.push_str(" group")?;
    }
    for place in select.group.items() {
        out.push_str(" ")?;
        print_column(out, *place)?;
    }
    Ok(())
}

fn print_select(out: &mut String, word: &str, select: &BoundSelect) -> Result<(), NoMemory> {
    out.push_str(word)?;
    for table in select.tables.items() {
        out.push_str(" ")?;
        print_number(out, *table as u64)?;
    }
    out.push_str(":")?;
    for item in select.items.items() {
        print_item(out, item)?;
    }
    print_tests(out, select.tests.items())?;
    print_group(out, select)?;
    for sort in select.order.items() {
        print_sort(out, sort)?;
    }
    print_limit(out, select.limit)
}

fn print_places(out: &mut String, places: &[u8]) -> Result<(), NoMemory> {
    for place in places {
        out.push_str(" ")?;
        print_column(out, *place as u16)?;
    }
    Ok(())
}

fn print_insert(out: &mut String, insert: &BoundInsert) -> Result<(), NoMemory> {
    out.push_str("insert ")?;
    print_number(out, insert.table as u64)?;
    out.push_str(":")?;
    print_places(out, insert.columns.items())?;
    for row in insert.rows.items() {
        out.push_str(" row")?;
        for value in row.values.items() {
            out.push_str(" ")?;
            print_expression(out, value)?;
        }
    }
    Ok(())
}

fn print_update(out: &mut String, update: &BoundUpdate) -> Result<(), NoMemory> {
    out.push_str("update ")?;
    print_number(out, update.table as u64)?;
    out.push_str(":")?;
    for set in update.sets.items() {
        out.push_str(" set ")?;
        print_column(out, set.column as u16)?;
        out.push_str(" ")?;
        print_expression(out, &set.value)?;
    }
    print_tests(out, update.tests.items())
}

fn print_delete(out: &mut String, delete: &BoundDelete) -> Result<(), NoMemory> {
    out.push_str("delete ")?;
    print_number(out, delete.table as u64)?;
    out.push_str(":")?;
    print_tests(out, delete.tests.items())
}

fn print_bound(out: &mut String, bound: &Bound) -> Result<(), NoMemory> {
    match bound {
        Bound::Select(select) => print_select(out, "select", select),
        Bound::Lock(select) => print_select(out, "lock", select),
        Bound::Explain(select) => print_select(out, "explain", select),
        Bound::Insert(insert) => print_insert(out, insert),
        Bound::Update(update) => print_update(out, update),
        Bound::Delete(delete) => print_delete(out, delete),
    }
}

fn print_name(out: &mut String, text: &str, name: &Txt) -> Result<(), NoMemory> {
    out.push_str(text)?;
    Ok(out.push_str(name.text())?)
}

fn print_fault(out: &mut String, fault: &BindFault) -> Result<(), NoMemory> {
    match fault {
        BindFault::NoTable(name) => print_name(out, "20 ", name),
        BindFault::NoColumn(name) => print_name(out, "21 ", name),
        BindFault::Ambiguous(name) => print_name(out, "22 ", name),
        BindFault::TypeClash => Ok(out.push_str("23")?),
        BindFault::WrongCount => Ok(out.push_str("24")?),
        BindFault::KeyColumn(name) => print_name(out, "25 ", name),
        BindFault::NotGrouped(name) => print_name(out, "26 ", name),
        BindFault::NotLockable => Ok(out.push_str("27")?),
        BindFault::NoMemory => Ok(out.push_str("no memory")?),
    }
}

fn print_answer(out: &mut String, answer: &Result<Bound, BindFault>) -> Result<(), NoMemory> {
    match answer {
        Ok(bound) => print_bound(out, bound),
        Err(fault) => print_fault(out, fault),
    }
}

/// Whether the statement is one that is bound.
fn is_of_tables(statement: &Statement) -> bool
    ensures { result ≡ statements.is_of_tables statement.now }
{
    match statement {
        Statement::Begin | Statement::BeginAsOf(_) | Statement::Commit | Statement::Rollback =>
            false,
        _ => true,
    }
}

/// Puts what binding the statement answers at the end.
fn print_binding(
    alloc: Global,
    schema: &Schema,
    out: &mut String,
    statement: &Statement,
) -> Result<(), NoMemory> {
    if !is_of_tables(statement) {
        return Ok(());
    }
    let answer = bind(alloc, statement, schema);
    let printed = print_answer(out, &answer);
    drop(answer);
    printed
}

/// What binding the statement of the text answers, as a text.
pub fn answer(alloc: Global, schema: &Schema, text: &str) -> Result<String, Fail> {
    let mut out = String::new(alloc);
    if text.len() > 100_000 {
        return Ok(out);
    }
    let statement = parse(alloc, text)?;
    let printed = print_binding(alloc, schema, &mut out, &statement);
    drop(statement);
    printed?;
    Ok(out)
}
