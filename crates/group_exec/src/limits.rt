//! How long an answer may be.
ghost use Rattle.std.specs.Prelude.{◌≡◌};

/// Lines of one answer.
pub const MAX_LINES: usize = 100_000;

/// What the limit is. Definitions cite it by its name, and this law says the number.
pub fn limits_are_these()
    ensures lines { MAX_LINES ≡ 100000 }
{}
