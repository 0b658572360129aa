//! How tight the parts of an expression hold together, from 0, the loosest, to 7, the tightest.

ghost use Rattle.std.specs.Prelude.{◌≡◌, ◌≤◌};
ghost use Rattle.sql_parse.specs.inner.Levels as spec;

use sql_ast::AstOp;

/// NOT and its operand.
pub(crate) const NOT_LEVEL: u8 = 2;

/// A comparison, or a test for NULL.
pub(crate) const TEST_LEVEL: u8 = 3;

/// An operand of a comparison.
pub(crate) const SUM_LEVEL: u8 = 4;

/// A minus sign and its operand.
pub(crate) const SIGN_LEVEL: u8 = 6;

/// An operand without an operator around it.
pub(crate) const WHOLE_LEVEL: u8 = 7;

/// How tight the operator holds its operands together.
pub(crate) fn level_of(operator: AstOp) -> u8
    ensures value { result ≡ spec.level_of operator }
    ensures few { result ≤ 5 }
{
    match operator {
        AstOp::Or => 0,
        AstOp::And => 1,
        AstOp::Equal
        | AstOp::Differ
        | AstOp::Less
        | AstOp::LessEqual
        | AstOp::More
        | AstOp::MoreEqual => 3,
        AstOp::Plus | AstOp::Minus => 4,
        AstOp::Times | AstOp::Divide => 5,
    }
}

/// How tight its left operand is at least: chains group to the left, and a comparison takes no comparison.
pub(crate) fn left_of(operator: AstOp) -> u8
    ensures { result ≡ spec.left_of operator }
{
    match level_of(operator) {
        TEST_LEVEL => SUM_LEVEL,
        level => level,
    }
}
