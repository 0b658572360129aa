//! What a table has at most.
ghost use Rattle.std.specs.Prelude.{◌≡◌};

/// Seats, and so workers.
pub const MAX_WORKERS: u8 = 8;

/// What the limit is. Definitions cite it by its name, and this law says the number.
pub fn limits_are_these()
    ensures workers { MAX_WORKERS ≡ 8 }
{}
