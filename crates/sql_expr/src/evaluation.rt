//! The value of an expression, or its fault.
ghost use Rattle.std.specs.Prelude.{◌≡◌, ◌++◌, Ok, IfSome};
ghost use Rattle.geo_base.specs.Results.{Gives};
ghost use Rattle.sql_expr.specs.declared.expr.Expr.TheVariants as expr;
ghost use Rattle.sql_expr.specs.declared.fault.EvalFault.TheVariants as fault;
ghost use Rattle.sql_expr.specs.Values.{value_of};
ghost use Rattle.sql_expr.specs.inner.Borrowed.{cell_of, Yields};

use crate::arithmetic::{arithmetic, negated};
use crate::comparison::{compared, compared_cells, null_test};
use crate::expr::{Expr, Test};
use crate::fault::EvalFault;
use crate::truth::{conjunction, disjunction, negation};
use crate::value::{Value, borrow_cell, cell_at, column, copy_value};
use geo_base::Cell;
use sqlite_items::Boxed;
use std::alloc::Global;

/// The value of an operand, or its fault. A literal or a column is looked up in place, without a call.
#[cycle(evaluating)]
#[inline(always)]
#[tactic(auto, unfolding(crate::specs::Values::value_of))]
fn operand<'a>(
    operand: &'a Boxed<Expr>,
    left: &'a [Cell],
    right: &'a [Cell],
) -> Result<Value<'a>, EvalFault>
    ensures { Yields result (value_of (left.now ++ right.now) operand.now) }
{
    match operand.get() {
        Expr::Lit(cell) => Ok(borrow_cell(cell)),
        Expr::Col(place) => Ok(column(*place, left, right)),
        calculated => evaluate(calculated, left, right),
    }
}

/// The cell of a literal or of a column, which stands in the expression or in the row. There is none for what has to be
/// calculated, and for a column behind the row.
#[inline(always)]
#[tactic(auto, unfolding(crate::specs::Values::value_of))]
fn cell_in_place<'a>(
    operand: &'a Boxed<Expr>,
    left: &'a [Cell],
    right: &'a [Cell],
) -> Option<&'a Cell>
    ensures { IfSome result (λ c. value_of (left.now ++ right.now) operand.now ≡ Ok c.now) }
{
    match operand.get() {
        Expr::Lit(cell) => Some(cell),
        Expr::Col(place) => cell_at(*place, left, right),
        _ => None,
    }
}

/// What a comparison gives whose two sides are literals or columns.
#[inline(always)]
#[tactic(auto, unfolding(crate::specs::Values::value_of))]
fn compared_in_place<'a>(
    test: Test,
    a: &Boxed<Expr>,
    b: &Boxed<Expr>,
    left: &[Cell],
    right: &[Cell],
) -> Option<Value<'a>>
    ensures { IfSome result (λ v. value_of (left.now ++ right.now) (expr.Cmp test a.now b.now) ≡ Ok (cell_of v)) }
{
    let a = cell_in_place(a, left, right)?;
    let b = cell_in_place(b, left, right)?;
    Some(compared_cells(test, a, b))
}

/// The value of an expression, with its text borrowed, or its fault. This takes no memory.
#[cycle(evaluating)]
#[tactic(auto, unfolding(crate::specs::Values::value_of))]
pub(crate) fn evaluate<'a>(
    expr: &'a Expr,
    left: &'a [Cell],
    right: &'a [Cell],
) -> Result<Value<'a>, EvalFault>
    ensures { Yields result (value_of (left.now ++ right.now) expr.now) }
{
    match expr {
        Expr::Lit(cell) => Ok(borrow_cell(cell)),
        Expr::Col(place) => Ok(column(*place, left, right)),
        Expr::Neg(a) => {
            let a = operand(a, left, right)?;
            negated(a)
        }
        Expr::Not(a) => {
            let a = operand(a, left, right)?;
            Ok(negation(a))
        }
        Expr::Arith(op, a, b) => {
            let a = operand(a, left, right)?;
            let b = operand(b, left, right)?;
            arithmetic(*op, a, b)
        }
        Expr::Cmp(test, a, b) => {
            let a = operand(a, left, right)?;
            let b = operand(b, left, right)?;
            Ok(compared(*test, a, b))
        }
        Expr::And(a, b) => {
            let a = operand(a, left, right)?;
            if let Value::Truth(false) = a {
                return Ok(a);
            }
            let b = operand(b, left, right)?;
            Ok(conjunction(a, b))
        }
        Expr::Or(a, b) => {
            let a = operand(a, left, right)?;
            if let Value::Truth(true) = a {
                return Ok(a);
            }
            let b = operand(b, left, right)?;
            Ok(disjunction(a, b))
        }
        Expr::IsNull(a, is_not) => {
            let a = operand(a, left, right)?;
            Ok(null_test(a, *is_not))
        }
    }
}

/// The value of a test, or its fault. Most tests compare a column with a literal: that is done where the two cells stand.
#[inline(always)]
pub(crate) fn evaluate_test<'a>(
    test: &'a Expr,
    left: &'a [Cell],
    right: &'a [Cell],
) -> Result<Value<'a>, EvalFault>
    ensures { Yields result (value_of (left.now ++ right.now) test.now) }
{
    if let Expr::Cmp(how, a, b) = test {
        if let Some(truth) = compared_in_place(*how, a, b, left, right) {
            return Ok(truth);
        }
    }
    evaluate(test, left, right)
}

/// The value of an expression over the cells of a left table and those of a right one, or its fault. There
/// are no right cells where there is one table, and neither list has any for the values of an insert. A
/// text is copied only where it is the answer. The time is linear in the expression, and the stack goes as
/// deep as it.
pub fn eval(alloc: Global, expr: &Expr, left: &[Cell], right: &[Cell]) -> Result<Cell, EvalFault>
    ensures exact { Gives fault.NoMemory (λ c. c) result (value_of (left.now ++ right.now) expr.now) }
{
    let value = evaluate(expr, left, right)?;
    Ok(copy_value(alloc, value)?)
}
