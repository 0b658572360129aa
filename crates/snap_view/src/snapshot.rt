//! The rows of one epoch.
ghost use Rattle.std.specs.Prelude.{◌≡◌, ◌≤◌, Contains, map, IfOk};
ghost use Rattle.std.specs.Option.{option_copied};
ghost use Rattle.geo_base.specs.declared.row_id.RowId.{RowId};
ghost use Rattle.geo_schema.specs.Indexes.{HasIndex, index_at};
ghost use Rattle.geo_schema.specs.Schemas.{table_at};
ghost use Rattle.index_store.specs.Store.{pairs_of};
ghost use Rattle.page_map.specs.Borders.{pairs_between};
ghost use Rattle.version_store.specs.History.{IsHistoryOf};
ghost use Rattle.write_set.specs.Journal.{Journal, epochs_of};
ghost use Rattle.write_set.specs.Overlay.{image_in};
ghost use Rattle.write_set.specs.Snapshot.{snap_at};
ghost use Rattle.snap_view.specs.Snapshots.{HoldsIndexes, IsSnapshot, IsSnapshotOf, rows_of};
ghost use Rattle.snap_view.specs.inner.Edges.{is_before_high, is_before_low};
ghost use Rattle.snap_view.specs.inner.Naming.{AreNamesIn, HasPairIn};

use crate::edges::{HighEdge, LowEdge};
use crate::naming::names_of;
use geo_base::{Duplicate, Epoch, NoMemory, RowId, RowImage, TableNo};
use geo_schema::{KeyRange, Schema};
use index_store::IndexStore;
use std::alloc::Global;
use std::marker::Model;
use version_store::Versions;
use write_set::Changes;

/// The rows that there were after an epoch. It never changes, whatever its region does.
#[derive(Drop)]
pub struct Snapshot {
    versions: Versions,
    index: IndexStore,
    epoch: Epoch,
}

impl Model for Snapshot {
    ghost use Rattle.index_store.specs.Store.{pairs_of};
    ghost use Rattle.snap_view.specs.Snapshots.{Held, IsSnapshot};

    ghost Value = { Held };

    ghost view = { λ s. record { versions = s.versions; pairs = pairs_of s.index; epoch = s.epoch } };

    ghost invariant = { λ s. IsSnapshot (record { versions = s.versions; pairs = pairs_of s.index; epoch = s.epoch }) };
}

impl Snapshot {
    /// The snapshot of the epoch, which can be read of the versions. Both are forks that nothing else changes. That the
    /// index is that of the versions is asked for where a view is made, and not here. Takes no memory.
    pub fn new(versions: Versions, index: IndexStore, epoch: Epoch) -> Snapshot
        requires from { versions.horizon ≤ epoch }
        requires upto { epoch ≤ versions.applied }
        ensures held { result ≡ record { versions = versions; pairs = pairs_of index; epoch = epoch } }
        ensures journal { (journal : Journal) → IsHistoryOf journal versions → IsSnapshotOf journal result }
    {
        versions.keeps_order();
        Snapshot {
            versions,
            index,
            epoch,
        }
    }

    /// That its versions are in order, and its epoch can be read of them. Does nothing when it runs.
    pub fn is_snapshot(&self)
        ensures { IsSnapshot self.now }
    {
        let _epoch = self.epoch;
    }

    /// The epoch after which the rows were so.
    pub fn epoch(&self) -> Epoch
        ensures { result ≡ self.now.epoch }
    {
        self.epoch
    }

    /// The image of the row, None where there is no such row. Takes no memory: one search, and a look at each version
    /// of the row that is newer than the epoch.
    pub fn read(&self, row: &RowId) -> Option<&RowImage>
        ensures rows { option_copied result ≡ image_in (rows_of self.now) row.now }
        ensures journal { (journal : Journal) → IsSnapshotOf journal self.now → option_copied result ≡ snap_at (epochs_of journal self.now.epoch) row.now }
    {
        self.versions.read_at(row, self.epoch)
    }

    /// The rows from the low edge of a range of a table's keys to its high one, in rising order. Takes memory for the
    /// answer and for a list of the rows between the edges that have versions, two searches, and for each of these rows
    /// a look at each version that is newer than the epoch.
    pub(crate) fn rows_between(
        &self,
        low: &LowEdge,
        high: &HighEdge,
    ) -> Result<Vec<(&RowId, &RowImage)>, NoMemory>
        ensures { IfOk result (λ found. map (λ p. (p.0.now, p.1.now)) found.items ≡ pairs_between (is_before_low low.now.table low.now.edge.now) (is_before_high high.now.table high.now.edge.now) (rows_of self.now)) }
    {
        self.versions.rows_between(low, high, self.epoch)
    }

    /// The names of the rows that the table's index has in the range: of all that lie in it at this epoch, and of others
    /// that lay in it after another epoch that is kept. Each is of a pair in the range, so no table is gone through.
    /// Takes what `IndexStore::range` takes, and a copy of each key.
    pub(crate) fn names_by_index(
        &self,
        alloc: Global,
        schema: &Schema,
        table: TableNo,
        index: u8,
        range: &KeyRange,
    ) -> Result<Vec<RowId>, NoMemory>
        requires index { HasIndex schema.now table index }
        requires held { HoldsIndexes schema.now self.now }
        ensures only { IfOk result (λ names. (row : RowId) → Contains names.items row → HasPairIn table index range.now self.now.pairs row) }
        ensures names { IfOk result (λ names. AreNamesIn table (index_at (table_at schema.now table) index) range.now (rows_of self.now) names.items) }
    {
        let keys = self.index.range(table, index, range)?;
        names_of(alloc, table, keys.as_slice())
    }
}

impl Duplicate for Snapshot {
    fn copy(&self, _alloc: Global) -> Result<Snapshot, NoMemory> {
        Ok(Snapshot {
            versions: self.versions.fork()?,
            index: self.index.fork()?,
            epoch: self.epoch,
        })
    }
}

impl Changes for Snapshot {
    ghost use Rattle.snap_view.specs.Snapshots.{last_held};

    ghost last = { λ s row. last_held s row };

    fn last_change(&self, row: &RowId) -> Epoch {
        self.versions.last_change_at(row, self.epoch)
    }
}
