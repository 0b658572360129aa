//! Arithmetic.
ghost use Rattle.std.specs.Prelude.{◌≡◌, false, neg_ℤ, SomeIff, FitsSigned};
ghost use Rattle.std.specs.Int.{w64};
ghost use Rattle.sql_expr.specs.inner.Borrowed.{cell_of, Yields};
ghost use Rattle.sql_expr.specs.Values as values;

use crate::expr::Op;
use crate::fault::EvalFault;
use crate::value::Value;

// The whole number that an operator gives, if it is an i64.
fn whole(op: Op, x: i64, y: i64) -> Option<i64>
    requires { values.divides_by_zero op y ≡ false }
    ensures { SomeIff result (FitsSigned w64 (values.whole op x y)) (values.whole op x y) }
{
    match op {
        Op::Plus => x.checked_add(y),
        Op::Minus => x.checked_sub(y),
        Op::Times => x.checked_mul(y),
        Op::Divide => x.checked_div(y),
    }
}

// What an operator makes of two numbers.
#[tactic(auto, unfolding(crate::specs::Values::calculated), using(crate::proofs::Numbers::in_i64, crate::proofs::Numbers::out_of_i64))]
fn calculated<'a>(op: Op, x: i64, y: i64) -> Result<Value<'a>, EvalFault>
    ensures { Yields result (values.calculated op x y) }
{
    if op == Op::Divide && y == 0 {
        return Err(EvalFault::DivideByZero);
    }
    match whole(op, x, y) {
        Some(number) => Ok(Value::Int(number)),
        None => Err(EvalFault::Overflow),
    }
}

/// What an operator makes of two values: NULL, where one of them is no number.
pub(crate) fn arithmetic<'a>(op: Op, a: Value<'a>, b: Value<'a>) -> Result<Value<'a>, EvalFault>
    ensures { Yields result (values.arithmetic op (cell_of a.entry) (cell_of b.entry)) }
{
    match (a, b) {
        (Value::Int(x), Value::Int(y)) => calculated(op, x, y),
        _ => Ok(Value::Null),
    }
}

/// A number with its sign turned, and NULL for what is no number.
#[tactic(auto, using(crate::proofs::Numbers::in_i64, crate::proofs::Numbers::out_of_i64))]
pub(crate) fn negated<'a>(a: Value<'a>) -> Result<Value<'a>, EvalFault>
    ensures { Yields result (values.negated (cell_of a.entry)) }
{
    let Value::Int(x) = a else {
        return Ok(Value::Null);
    };
    match x.checked_neg() {
        Some(number) => Ok(Value::Int(number)),
        None => Err(EvalFault::Overflow),
    }
}
