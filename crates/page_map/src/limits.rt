//! How wide pages and shelves are, and how much a map can hold.
ghost use Rattle.std.specs.Prelude.{◌≡◌, ◌^◌};

/// Pairs of a page.
pub const PAGE_PAIRS: usize = 64;

/// Chunks of a shelf, but for the uppermost, which has no shelf above it and may grow wider.
pub const SHELF_CHUNKS: usize = 128;

/// Pairs of a map: at this many there is no memory for another.
pub const MOST_PAIRS: u64 = 4_611_686_018_427_387_904;

/// What the limits are. Definitions cite them by their names, and this law says the numbers.
pub fn limits_are_these()
    ensures page { PAGE_PAIRS ≡ 64 }
    ensures shelf { SHELF_CHUNKS ≡ 128 }
    ensures pairs { MOST_PAIRS ≡ 2 ^ 62 }
{}
