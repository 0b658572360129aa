//! The table that the seats share.
ghost use Rattle.std.specs.Prelude.{◌≡◌, ◌+◌, ◌<◌, ◌≤◌};
ghost use Rattle.claim_rule.specs.declared.limits.TheConstants.{MAX_WORKERS};

use crate::plays::ClaimRule;
use crate::size::TableSize;
use crate::view::ClaimView;
use atomic_table::Table;
use std::alloc::Global;

/// The claim counter, the done word, the judge counter and one header per row, for the seats of one plan.
#[derive(Drop)]
pub struct ClaimTable {
    pub(crate) table: Table<(), ClaimView, TableSize, ClaimRule, Global>,
    pub(crate) rows: u32,
    pub(crate) pieces: u32,
    pub(crate) workers: u8,
    ghost rows_known: { table.shared.key.rows ≡ rows },
    ghost workers_known: { table.shared.key.workers ≡ workers },
    ghost manned: { (0 < workers) × (workers ≤ MAX_WORKERS) },
    ghost sized: { table.shared.table_id.words ≡ rows + 3 },
}

/// The word that counts the draws of claim pieces.
pub(crate) const CLAIMED: usize = 0;

/// The word that counts the finished pieces.
pub(crate) const DONE: usize = 1;

/// The word that counts the draws of judging pieces.
pub(crate) const JUDGED: usize = 2;

/// The first header's word.
pub(crate) const HEADERS: usize = 3;
