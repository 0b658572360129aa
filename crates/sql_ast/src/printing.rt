//! The canonical text of a statement.
ghost use Rattle.std.specs.Prelude.{◌≡◌, ◌++◌, OnOk, IfOk, string_bytes};
ghost use Rattle.sql_ast.specs.Printing as texts;

mod clauses;
mod columns;
mod expressions;
mod queries;
mod writes;

use crate::statement::Statement;
use geo_base::NoMemory;
use queries::print_select;
use std::alloc::Global;
use std::fmt::Write;
use writes::{print_delete, print_insert, print_update};

// A statement, put at the end of a text.
fn print_statement(out: &mut String, statement: &Statement) -> Result<(), NoMemory>
    ensures { OnOk result (string_bytes out.new ≡ string_bytes out.old ++ texts.printed statement.now) }
{
    match statement {
        Statement::Select(select) => print_select(out, select)?,
        Statement::SelectForUpdate(select) => {
            print_select(out, select)?;
            write!(out, " FOR UPDATE")?;
        }
        Statement::Insert(insert) => print_insert(out, insert)?,
        Statement::Update(update) => print_update(out, update)?,
        Statement::Delete(delete) => print_delete(out, delete)?,
        Statement::Begin => write!(out, "BEGIN")?,
        Statement::BeginAsOf(epoch) => write!(out, "BEGIN AS OF EPOCH {epoch}")?,
        Statement::Commit => write!(out, "COMMIT")?,
        Statement::Rollback => write!(out, "ROLLBACK")?,
        Statement::Explain(select) => {
            write!(out, "EXPLAIN ")?;
            print_select(out, select)?;
        }
    }
    Ok(())
}

/// The canonical text of a statement: keywords in capitals, one space between tokens where no comma,
/// dot or parenthesis takes it away. An expression has parentheses at each operator and nowhere else;
/// others stand around a list of columns, a row and the argument of an aggregate. The time is linear
/// in the text that comes out, and the stack goes as deep as the statement's deepest expression.
pub fn print(alloc: Global, statement: &Statement) -> Result<String, NoMemory>
    ensures { IfOk result (λ s. string_bytes s ≡ texts.printed statement.now) }
{
    let mut out = String::new(alloc);
    print_statement(&mut out, statement)?;
    Ok(out)
}
