//! The limits of scripts that no other part of a database knows.
ghost use Rattle.std.specs.Prelude.{◌≡◌};

/// Bytes of the statement of one line, of which it has at least one.
pub const STATEMENT_BYTES: usize = 16_384;

/// Sessions of a run, over all its regions.
pub const SESSIONS_PER_RUN: usize = 64;

/// Seats at which a play's round is worked on.
pub const SEATS_PER_ROUND: u8 = 4;

/// The last epoch whose batch one region may ask of another.
pub const LAST_ASKED_EPOCH: u32 = 4_294_967_293;

/// The last epoch after which a run may crash a region.
pub const LAST_CRASH_EPOCH: u32 = 1000;

/// The greatest number of a packet that a line may name.
pub const LAST_PACKET: u32 = 4_294_967_295;

/// What the limits are. Definitions cite them by their names, and this law says the numbers.
pub fn limits_are_these()
    ensures statement_bytes { STATEMENT_BYTES ≡ 16384 }
    ensures sessions { SESSIONS_PER_RUN ≡ 64 }
    ensures seats { SEATS_PER_ROUND ≡ 4 }
    ensures asked_epoch { LAST_ASKED_EPOCH ≡ 4294967293 }
    ensures crash_epoch { LAST_CRASH_EPOCH ≡ 1000 }
    ensures packet { LAST_PACKET ≡ 4294967295 }
{}
