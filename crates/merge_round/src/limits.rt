//! What a round has at most.
ghost use Rattle.std.specs.Prelude.{◌≡◌, ◌*◌};
ghost use Rattle.geo_base.specs.declared.limits.TheConstants.{MAX_CANDIDATES, MAX_REGIONS, MAX_SET_ROWS};

/// Rows that the candidates of one batch have.
pub const MAX_BATCH_ROWS: u32 = 4_194_304;

/// Candidates of one epoch.
pub const MAX_ENTRIES: u32 = 32_768;

/// Rows that they have.
pub const MAX_ROWS: u32 = 33_554_432;

/// The limits are those of as many batches as there can be regions.
pub fn limits_are_these()
    ensures batch_rows { MAX_BATCH_ROWS ≡ MAX_CANDIDATES * MAX_SET_ROWS }
    ensures entries { MAX_ENTRIES ≡ MAX_REGIONS * MAX_CANDIDATES }
    ensures rows { MAX_ROWS ≡ MAX_REGIONS * MAX_BATCH_ROWS }
{}
