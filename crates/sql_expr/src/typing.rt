//! Which operands operators take, and what type they give.
ghost use Rattle.std.specs.Prelude.{◌≡◌};
ghost use Rattle.sql_expr.specs.Types as types;

use crate::value_type::ValueType;
use geo_base::Cell;

/// The type of a literal.
pub fn literal_type(literal: &Cell) -> ValueType
    ensures { result ≡ types.literal_type literal.now }
{
    match literal {
        Cell::Null => ValueType::Any,
        Cell::Int(_) => ValueType::Int,
        Cell::Text(_) => ValueType::Text,
        Cell::Truth(_) => ValueType::Truth,
    }
}

/// Whether an operand of the second type may stand where the first is wanted.
pub fn takes(wanted: ValueType, of: ValueType) -> bool
    ensures { result ≡ types.takes wanted of }
{
    match (wanted, of) {
        (_, ValueType::Any) => true,
        (ValueType::Int, ValueType::Int) => true,
        (ValueType::Text, ValueType::Text) => true,
        (ValueType::Truth, ValueType::Truth) => true,
        _ => false,
    }
}

/// The type that an operator gives whose operand is to be of the wanted one; `None` where it doesn't take it.
pub fn one_operand(wanted: ValueType, a: ValueType) -> Option<ValueType>
    ensures { result ≡ types.one_operand wanted a }
{
    if takes(wanted, a) { Some(wanted) } else { None }
}

/// The same of an operator with two operands.
pub fn two_operands(wanted: ValueType, a: ValueType, b: ValueType) -> Option<ValueType>
    ensures { result ≡ types.two_operands wanted a b }
{
    if takes(wanted, a) && takes(wanted, b) {
        Some(wanted)
    } else {
        None
    }
}

/// The type that a comparison of two operands gives; `None` where it doesn't take them together.
pub fn compared_operands(a: ValueType, b: ValueType) -> Option<ValueType>
    ensures { result ≡ types.comparison a b }
{
    if takes(a, b) || takes(b, a) {
        Some(ValueType::Truth)
    } else {
        None
    }
}
