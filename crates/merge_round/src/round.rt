//! A round.
ghost use Rattle.write_set.specs.Journal.{candidates_of};
ghost use Rattle.merge_round.specs.inner.Entries.{HoldsAll};

use crate::input::RoundInput;
use crate::numbering::Entry;
use claim_rule::ClaimTable;
use geo_base::RowId;
use indexmap::IndexSet;
use write_set::Changes;

/// The merge of one epoch, which its seats share. Contracts see it as a round (`round_of`): its candidates,
/// what it knows of their rows' last changes, and its table of claims.
#[derive(Drop)]
pub struct MergeRound<C: Changes> {
    pub(crate) input: RoundInput<C>,
    pub(crate) rows: IndexSet<RowId>,
    pub(crate) entries: Vec<Entry>,
    pub(crate) table: ClaimTable,
    ghost held: { HoldsAll (candidates_of input.batches) rows.keys entries.items table },
}
