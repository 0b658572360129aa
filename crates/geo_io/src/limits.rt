//! What keepers have at most.
ghost use Rattle.std.specs.Prelude.{◌≡◌};

/// The greatest width of keepers: how many regions there can be.
pub const MAX_WIDTH: usize = 8;

/// The most bytes of an entry in the files of a folder: as many as a batch has at most.
pub const MAX_ENTRY_BYTES: u32 = 4_194_304;

/// What the limits are. Definitions cite them by their names, and this law says the numbers.
pub fn limits_are_these()
    ensures width { MAX_WIDTH ≡ 8 }
    ensures entry { MAX_ENTRY_BYTES ≡ 4194304 }
{}
