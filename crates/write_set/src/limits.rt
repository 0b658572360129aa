//! The greatest lengths of what a write set is spelled by.
ghost use Rattle.std.specs.Prelude.{◌≡◌};

/// Bytes of the longest spelling of a cell: a text of 1,024 bytes behind its tag and its length.
pub const MAX_CELL_BYTES: u64 = 1_027;

/// Bytes of the longest spelling of a change: 32 such cells behind the table and the kind.
pub const MAX_CHANGE_BYTES: u64 = 32_866;

/// What the limits are. Definitions cite them by their names, and this law says the numbers.
pub fn limits_are_these()
    ensures cell_bytes { MAX_CELL_BYTES ≡ 1027 }
    ensures change_bytes { MAX_CHANGE_BYTES ≡ 32866 }
{}
