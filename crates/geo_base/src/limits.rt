//! The limits of regions, epochs, values, schemas and runs.
ghost use Rattle.std.specs.Prelude.{◌≡◌};

/// Regions of one database.
pub const MAX_REGIONS: u8 = 8;

/// Epochs between a candidate's start and its own epoch, and epochs of versions that are kept.
pub const MAX_AGE: u32 = 64;

/// Batches of a region that are sealed and not yet published: a seal is refused at this many.
pub const MAX_AHEAD: u32 = 8;

/// Candidates of one batch.
pub const MAX_CANDIDATES: u32 = 4096;

/// Bytes of the spelling of a batch.
pub const MAX_BATCH_BYTES: u64 = 4_194_304;

/// Rows that one transaction changes.
pub const MAX_SET_ROWS: u32 = 1024;

/// Bytes of the spellings of one transaction's changes.
pub const MAX_SET_BYTES: u64 = 1_048_576;

/// Bytes of a text.
pub const MAX_TEXT_BYTES: usize = 1024;

/// Cells of a key.
pub const MAX_KEY_CELLS: usize = 4;

/// Cells of a row.
pub const MAX_ROW_CELLS: usize = 32;

/// Cells of a line of an answer.
pub const MAX_LINE_CELLS: usize = 64;

/// Tables of one schema.
pub const MAX_TABLES: usize = 64;

/// Columns of a table.
pub const MAX_COLUMNS: usize = 32;

/// Indexes of a table.
pub const MAX_INDEXES: usize = 4;

/// Columns of an index.
pub const MAX_INDEX_COLUMNS: usize = 4;

/// Bytes of the name of a table, a column or an index, of which it has at least one.
pub const MAX_NAME_BYTES: usize = 32;

/// Sessions of one region.
pub const SESSIONS_PER_REGION: u8 = 64;

/// Bytes of a script.
pub const SCRIPT_BYTES: usize = 16_777_216;

/// Packets that one line of a script delivers.
pub const PACKETS_PER_LINE: u32 = 10_000;

/// The greatest number of an open epoch.
pub const LAST_EPOCH: u32 = 4_294_967_294;

/// What the limits are. Definitions cite them by their names, and this law says the numbers.
pub fn limits_are_these()
    ensures regions { MAX_REGIONS ≡ 8 }
    ensures age { MAX_AGE ≡ 64 }
    ensures ahead { MAX_AHEAD ≡ 8 }
    ensures candidates { MAX_CANDIDATES ≡ 4096 }
    ensures batch_bytes { MAX_BATCH_BYTES ≡ 4194304 }
    ensures set_rows { MAX_SET_ROWS ≡ 1024 }
    ensures set_bytes { MAX_SET_BYTES ≡ 1048576 }
    ensures text_bytes { MAX_TEXT_BYTES ≡ 1024 }
    ensures key_cells { MAX_KEY_CELLS ≡ 4 }
    ensures row_cells { MAX_ROW_CELLS ≡ 32 }
    ensures line_cells { MAX_LINE_CELLS ≡ 64 }
    ensures tables { MAX_TABLES ≡ 64 }
    ensures columns { MAX_COLUMNS ≡ 32 }
    ensures indexes { MAX_INDEXES ≡ 4 }
    ensures index_columns { MAX_INDEX_COLUMNS ≡ 4 }
    ensures name_bytes { MAX_NAME_BYTES ≡ 32 }
    ensures sessions { SESSIONS_PER_REGION ≡ 64 }
    ensures script_bytes { SCRIPT_BYTES ≡ 16777216 }
    ensures packets { PACKETS_PER_LINE ≡ 10000 }
    ensures last_epoch { LAST_EPOCH ≡ 4294967294 }
{}
