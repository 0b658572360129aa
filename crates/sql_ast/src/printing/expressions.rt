//! Expressions, put at the end of a text.
ghost use Rattle.std.specs.Prelude.{◌≡◌, ◌++◌, OnOk, string_bytes};
ghost use Rattle.sql_ast.specs.Printing as texts;

use crate::ast::{Ast, AstOp};
use geo_base::{NoMemory, Printed};
use std::fmt::Write;

fn operator_word(op: AstOp) -> &'static str
    ensures { result.now ≡ texts.operator_text op }
{
    match op {
        AstOp::Plus => "+",
        AstOp::Minus => "-",
        AstOp::Times => "*",
        AstOp::Divide => "/",
        AstOp::Equal => "=",
        AstOp::Differ => "<>",
        AstOp::Less => "<",
        AstOp::LessEqual => "<=",
        AstOp::More => ">",
        AstOp::MoreEqual => ">=",
        AstOp::And => "AND",
        AstOp::Or => "OR",
    }
}

fn null_test_words(is_not: bool) -> &'static str
    ensures { result.now ≡ texts.null_test_text is_not }
{
    if is_not { " IS NOT NULL" } else { " IS NULL" }
}

/// An expression, with parentheses at each operator.
#[tactic(auto, unfolding(crate::specs::Printing::expression_text))]
pub(crate) fn print_expression(out: &mut String, expression: &Ast) -> Result<(), NoMemory>
    ensures { OnOk result (string_bytes out.new ≡ string_bytes out.old ++ texts.expression_text expression.now) }
{
    match expression {
        Ast::Lit(literal) => literal.print_to(out)?,
        Ast::Column(column) => column.print_to(out)?,
        Ast::Neg(a) => {
            out.push_str("-(")?;
            print_expression(out, a.get())?;
            out.push_str(")")?;
        }
        Ast::Not(a) => {
            out.push_str("(NOT ")?;
            print_expression(out, a.get())?;
            out.push_str(")")?;
        }
        Ast::Binary(op, a, b) => {
            out.push_str("(")?;
            print_expression(out, a.get())?;
            out.push_str(" ")?;
            out.push_str(operator_word(*op))?;
            out.push_str(" ")?;
            print_expression(out, b.get())?;
            out.push_str(")")?;
        }
        Ast::IsNull(a, is_not) => {
            out.push_str("(")?;
            print_expression(out, a.get())?;
            out.push_str(null_test_words(*is_not))?;
            out.push_str(")")?;
        }
    }
    Ok(())
}

impl Printed for Ast {
    ghost text = { texts.expression_text };

    fn print_to(&self, out: &mut String) -> Result<(), NoMemory> {
        print_expression(out, self)
    }
}

/// The clause of WHERE, where there is one.
pub(crate) fn print_filter(out: &mut String, filter: &Option<Ast>) -> Result<(), NoMemory>
    ensures { OnOk result (string_bytes out.new ≡ string_bytes out.old ++ texts.filter_text filter.now) }
{
    if let Some(condition) = filter {
        write!(out, " WHERE ")?;
        print_expression(out, condition)?;
    }
    Ok(())
}
