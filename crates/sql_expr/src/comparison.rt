//! Comparisons.
ghost use Rattle.std.specs.Prelude.{◌≡◌};
ghost use Rattle.geo_base.specs.Order.{cell_cmp};
ghost use Rattle.sql_expr.specs.inner.Borrowed.{cell_of};
ghost use Rattle.sql_expr.specs.Values as values;

use crate::expr::Test;
use crate::value::{Value, is_null, kind};
use geo_base::Cell;
use std::cmp::Ordering;

// How two values are ordered.
fn order<'a>(a: Value<'a>, b: Value<'a>) -> Ordering
    ensures { result ≡ cell_cmp (cell_of a.entry) (cell_of b.entry) }
{
    match (a, b) {
        (Value::Int(x), Value::Int(y)) => x.cmp(&y),
        (Value::Text(x), Value::Text(y)) => x.cmp(y),
        (Value::Truth(x), Value::Truth(y)) => x.cmp(&y),
        _ => kind(a).cmp(&kind(b)),
    }
}

fn holds(test: Test, order: Ordering) -> bool
    ensures { result ≡ values.holds test order }
{
    match test {
        Test::Equal => order.is_eq(),
        Test::Differ => order.is_ne(),
        Test::Less => order.is_lt(),
        Test::LessEqual => order.is_le(),
        Test::More => order.is_gt(),
        Test::MoreEqual => order.is_ge(),
    }
}

/// Whether a test holds of two values: NULL, where one of them is.
pub(crate) fn compared<'a>(test: Test, a: Value<'a>, b: Value<'a>) -> Value<'a>
    ensures { cell_of result ≡ values.compared test (cell_of a.entry) (cell_of b.entry) }
{
    if is_null(a) || is_null(b) {
        return Value::Null;
    }
    Value::Truth(holds(test, order(a, b)))
}

/// Whether a test holds of two cells where they stand: NULL, where one of them is.
#[inline(always)]
pub(crate) fn compared_cells<'a>(test: Test, a: &Cell, b: &Cell) -> Value<'a>
    ensures { cell_of result ≡ values.compared test a.now b.now }
{
    match (a, b) {
        (Cell::Int(x), Cell::Int(y)) => Value::Truth(holds(test, x.cmp(y))),
        (Cell::Null, _) | (_, Cell::Null) => Value::Null,
        _ => Value::Truth(holds(test, a.cmp(b))),
    }
}

/// Whether a value is NULL, or with the flag, whether it isn't.
pub(crate) fn null_test<'a>(a: Value<'a>, is_not: bool) -> Value<'a>
    ensures { cell_of result ≡ values.null_test is_not (cell_of a.entry) }
{
    Value::Truth(is_null(a) != is_not)
}
