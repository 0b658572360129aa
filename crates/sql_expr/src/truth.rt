//! Truths.
ghost use Rattle.std.specs.Prelude.{◌≡◌};
ghost use Rattle.sql_expr.specs.inner.Borrowed.{cell_of};
ghost use Rattle.sql_expr.specs.Kleene.{not_3, and_3, or_3, truth_in, truth_cell};

use crate::value::Value;

/// NOT.
pub(crate) fn negation<'a>(a: Value<'a>) -> Value<'a>
    ensures { cell_of result ≡ truth_cell (not_3 (truth_in (cell_of a.entry))) }
{
    match a {
        Value::Truth(truth) => Value::Truth(!truth),
        _ => Value::Null,
    }
}

/// AND.
pub(crate) fn conjunction<'a>(a: Value<'a>, b: Value<'a>) -> Value<'a>
    ensures { cell_of result ≡ truth_cell (and_3 (truth_in (cell_of a.entry)) (truth_in (cell_of b.entry))) }
{
    match (a, b) {
        (Value::Truth(false), _) | (_, Value::Truth(false)) => Value::Truth(false),
        (Value::Truth(true), Value::Truth(true)) => Value::Truth(true),
        _ => Value::Null,
    }
}

/// OR.
pub(crate) fn disjunction<'a>(a: Value<'a>, b: Value<'a>) -> Value<'a>
    ensures { cell_of result ≡ truth_cell (or_3 (truth_in (cell_of a.entry)) (truth_in (cell_of b.entry))) }
{
    match (a, b) {
        (Value::Truth(true), _) | (_, Value::Truth(true)) => Value::Truth(true),
        (Value::Truth(false), Value::Truth(false)) => Value::Truth(false),
        _ => Value::Null,
    }
}
