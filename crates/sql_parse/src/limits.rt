//! The limits of one expression that is no part of another.
ghost use Rattle.std.specs.Prelude.{◌≡◌};

/// Operators of an expression: binary operators, NOT, IS, and minus signs that make no negative literal.
pub const MAX_OPERATORS: u32 = 400;

/// Opening parentheses of an expression.
pub const MAX_OPENINGS: u32 = 400;

/// What the limits are. Definitions cite them by their names, and this law says the numbers.
pub fn limits_are_these()
    ensures operators { MAX_OPERATORS ≡ 400 }
    ensures openings { MAX_OPENINGS ≡ 400 }
{}
