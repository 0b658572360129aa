//! The indexes of all tables.
ghost use Rattle.std.specs.Prelude.{◌≡◌, ℕ, ◌<◌, [], None, length, map, IfOk, OnOk, OnErr};
ghost use Rattle.geo_base.specs.declared.row_id.RowId.{RowId};
ghost use Rattle.geo_schema.specs.Schemas.{Tables};
ghost use Rattle.write_set.specs.Journal.{candidates_of};
ghost use Rattle.write_set.specs.Merge.{committed_among};
ghost use Rattle.index_store.specs.Kept.{KeptImages, kept_by, IsKeptEpoch, IsNextOf, IsRestOf};
ghost use Rattle.index_store.specs.Ranges.{AreKeysIn};
ghost use Rattle.index_store.specs.Rows.{FindsRows};
ghost use Rattle.index_store.specs.Store.{pairs_of, IsStoreOf};

use crate::dropping::{add_all, drop_lost};
use crate::edges::{HighEdge, LowEdge};
use crate::following::{Moves, follow_all};
use crate::gain::Gain;
use crate::keys::rising_keys;
use crate::lost_pairs::{LostPairs, later_losses};
use crate::pair::IndexPair;
use geo_base::{Key, NoMemory, Outcome, TableNo, copy_items};
use geo_schema::{KeyRange, Schema};
use page_map::PageMap;
use std::alloc::Global;
use std::marker::Model;
use write_set::{Batch, KeptVersions, committed_changes};

/// For each index of a schema the pairs of cells and key that rows had after some epoch that is kept.
///
/// A fork shares its pairs with its source until one of them changes, and never changes with it.
#[derive(Drop)]
pub struct IndexStore {
    alloc: Global,
    entries: PageMap<IndexPair, Gain>,
    /// The pairs that rows lost in each epoch after the horizon, the oldest epoch first.
    losses: Vec<LostPairs>,
}

impl Model for IndexStore {
    ghost use Rattle.index_store.specs.Store.{Stored};

    ghost Value = { Stored };

    ghost view = { λ s. record { entries = s.entries; losses = s.losses.items } };
}

impl IndexStore {
    /// The store without pairs, which is that of a database before its first row. Takes no memory.
    pub fn empty(alloc: Global) -> IndexStore
        ensures empty { result ≡ record { entries = []; losses = [] } }
        ensures begins { (tables : Tables) (kept : KeptImages) → ((row : RowId) (epoch : ℕ) → IsKeptEpoch kept epoch → kept.image row epoch ≡ None) → IsStoreOf tables kept result }
    {
        IndexStore {
            alloc,
            entries: PageMap::empty(alloc),
            losses: Vec::new(alloc),
        }
    }

    /// The keys of the pairs of the table's index that lie in the range, in rising order and each once. In a store of
    /// what is kept they are those of all rows whose cells in the index lay there after some epoch that is kept.
    ///
    /// Takes memory for the answer, two searches, a step for each pair in the range, and the sorting of their keys.
    pub fn range(&self, table: TableNo, index: u8, range: &KeyRange) -> Result<Vec<&Key>, NoMemory>
        ensures keys { IfOk result (λ keys. AreKeysIn table index range.now (pairs_of self.entry.now) (map (λ k. k.now) keys.items)) }
        ensures rows { (tables : Tables) (kept : KeptImages) → IsStoreOf tables kept self.entry.now → IfOk result (λ keys. FindsRows tables kept table index range.now (map (λ k. k.now) keys.items)) }
    {
        self.entries.rises();
        let low = LowEdge {
            table,
            index,
            edge: &range.low,
        };
        let high = HighEdge {
            table,
            index,
            edge: &range.high,
        };
        let first = self.entries.place_where(&low);
        let last = self.entries.place_where(&high);
        let found = self.entries.between(first, last)?;
        rising_keys(self.alloc, found.as_slice())
    }

    /// A second value of the same pairs, which doesn't change when this one does. Takes one step, and one for each
    /// epoch after the horizon: pointers are shared.
    pub fn fork(&self) -> Result<IndexStore, NoMemory>
        ensures { IfOk result (λ fork. fork ≡ self.now) }
    {
        Ok(IndexStore {
            alloc: self.alloc,
            entries: self.entries.fork()?,
            losses: copy_items(self.alloc, self.losses.as_slice())?,
        })
    }

    /// Follows the versions by one epoch: its batches, one for each region in their order, were applied to them, and
    /// the outcomes say which candidates commit. Each pair that a row has from this epoch on is added. A store of what
    /// was kept before is then one of what the versions keep. Without memory nothing changes.
    ///
    /// The rows are read as they were before the epoch too, so that one has to be kept still: versions and store both
    /// follow the epoch before the horizon of either moves.
    ///
    /// Takes a step for each candidate. For each row that a committed one has, and whose table has an index, it takes
    /// two look-ups of the row and for each index a comparison of the cells, and for each pair that the row gets a search
    /// and copies of a page of pairs.
    pub fn apply<K: KeptVersions>(
        &mut self,
        schema: &Schema,
        versions: &K,
        batches: &[&Batch],
        outcomes: &[Outcome],
    ) -> Result<(), NoMemory>
        requires before { K.first_kept versions.now < K.last_kept versions.now }
        requires outcomes { length outcomes.now ≡ length (candidates_of (map (λ b. b.now) batches.now)) }
        ensures applied { (kept : KeptImages) → IsStoreOf schema.now kept self.old →
            IsNextOf (committed_among (candidates_of (map (λ b. b.now) batches.now)) outcomes.now) kept (kept_by (K.first_kept versions.now) (K.last_kept versions.now) (K.image_at versions.now)) →
            OnOk result (IsStoreOf schema.now (kept_by (K.first_kept versions.now) (K.last_kept versions.now) (K.image_at versions.now)) self.new) }
        ensures err { OnErr result (self.new ≡ self.old) }
    {
        let epoch = versions.applied();
        let changes = committed_changes(self.alloc, batches, outcomes)?;
        let moves = follow_all(self.alloc, schema, versions, changes.as_slice())?;
        let Moves { lost, gained } = moves;
        let mut entries = self.entries.fork()?;
        add_all(&mut entries, gained, epoch)?;
        let loss = LostPairs::new(self.alloc, epoch, lost)?;
        self.losses.push(loss)?;
        self.entries = entries;
        Ok(())
    }

    /// Follows the versions to a later horizon: of the pairs those are dropped that no row had after an epoch that is
    /// still kept. A store of what was kept before is then one of what the versions keep. Without memory nothing
    /// changes.
    ///
    /// Takes a step for each epoch after the horizon, and for each pair that a row lost in an epoch up to the new
    /// horizon a search, and where it is dropped copies of a page of pairs. Other pairs aren't looked at.
    pub fn trim<K: KeptVersions>(&mut self, versions: &K) -> Result<(), NoMemory>
        ensures trimmed { (tables : Tables) (kept : KeptImages) → IsStoreOf tables kept self.old →
            IsRestOf kept (kept_by (K.first_kept versions.now) (K.last_kept versions.now) (K.image_at versions.now)) →
            OnOk result (IsStoreOf tables (kept_by (K.first_kept versions.now) (K.last_kept versions.now) (K.image_at versions.now)) self.new) }
        ensures err { OnErr result (self.new ≡ self.old) }
    {
        let horizon = versions.horizon();
        let mut entries = self.entries.fork()?;
        drop_lost(&mut entries, self.losses.as_slice(), horizon)?;
        let losses = later_losses(self.alloc, self.losses.as_slice(), horizon)?;
        self.entries = entries;
        self.losses = losses;
        Ok(())
    }
}
