//! Bound expressions as texts: a column is its number behind a `#`, and each operator has parentheses.
use geo_base::{NoMemory, Printed};
use sql_expr::{Expr, Op, Test};
use std::alloc::Global;

fn op_text(op: Op) -> &'static str {
    match op {
        Op::Plus => " + ",
        Op::Minus => " - ",
        Op::Times => " * ",
        Op::Divide => " / ",
    }
}

fn test_text(test: Test) -> &'static str {
    match test {
        Test::Equal => " = ",
        Test::Differ => " <> ",
        Test::Less => " < ",
        Test::LessEqual => " <= ",
        Test::More => " > ",
        Test::MoreEqual => " >= ",
    }
}

/// What stands between the two operands of an operator, and nothing where there are none.
fn word_between(expr: &Expr) -> &'static str {
    match expr {
        Expr::Arith(op, _, _) => op_text(*op),
        Expr::Cmp(test, _, _) => test_text(*test),
        Expr::And(_, _) => " AND ",
        Expr::Or(_, _) => " OR ",
        _ => "",
    }
}

/// Puts the text of the expression at the end.
pub fn print_expression(out: &mut String, expr: &Expr) -> Result<(), NoMemory> {
    match expr {
        Expr::Lit(cell) => cell.print_to(out),
        Expr::Col(place) => print_column(out, *place),
        Expr::Neg(a) => {
            out.push_str("-")?;
            print_expression(out, a.get())
        }
        Expr::Not(a) => {
            out.push_str("NOT ")?;
            print_expression(out, a.get())
        }
        Expr::Arith(_, a, b) | Expr::Cmp(_, a, b) | Expr::And(a, b) | Expr::Or(a, b) => {
            out.push_str("(")?;
            print_expression(out, a.get())?;
            out.push_str(word_between(expr))?;
            print_expression(out, b.get())?;
            Ok(out.push_str(")")?)
        }
        Expr::IsNull(a, is_not) => {
            print_expression(out, a.get())?;
            let text = if *is_not { " IS NOT NULL" } else { " IS NULL" };
            Ok(out.push_str(text)?)
        }
    }
}

/// Puts a column's number at the end.
pub fn print_column(out: &mut String, place: u16) -> Result<(), NoMemory> {
    out.push_str("#")?;
    print_number(out, place as u64)
}

/// Puts a number at the end.
pub fn print_number(out: &mut String, number: u64) -> Result<(), NoMemory> {
    match write!(out, "{number}") {
        Ok(()) => Ok(()),
        Err(_) => Err(NoMemory),
    }
}
