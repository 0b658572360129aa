//! The versions of all rows.
ghost use Rattle.std.specs.Prelude.{◌≡◌, ◌+◌, ◌<◌, ◌≤◌, [], length, map, IfOk, IfErr, OnOk, OnErr};
ghost use Rattle.std.specs.Option.{option_copied};
ghost use Rattle.page_map.specs.Borders.{IsBorder, pairs_between};
ghost use Rattle.write_set.specs.Journal.{Journal, candidates_of, epochs_of};
ghost use Rattle.write_set.specs.Merge.{committed_among, last_change};
ghost use Rattle.write_set.specs.Snapshot.{snap_at, snap_rows};
ghost use Rattle.version_store.specs.Chains.{image_at, change_at, newest_epoch};
ghost use Rattle.version_store.specs.History.{chain_of, IsKept, IsHistoryOf, TellsChange, AreNextOf, IsApplied, IsTrimmed};
ghost use Rattle.version_store.specs.Listing.{table_at};

use crate::chain::Chain;
use crate::changed_rows::{ChangedRows, leave_later};
use crate::cutting::cut_noted;
use crate::listing::rows_at;
use crate::writing::write_all;
use geo_base::{Epoch, NoMemory, Outcome, RowId, RowImage, copy_items};
use page_map::{Border, PageMap};
use std::alloc::Global;
use std::marker::Model;
use write_set::{Batch, Changes, KeptVersions, committed_changes};

/// The epoch that was asked for is below the horizon, whose number this has.
#[derive(Clone, Copy, Debug, PartialEq, Eq)]
pub struct TooOld(pub Epoch);

/// The versions of rows that a region keeps: every epoch from the horizon to the last one applied can be read.
///
/// A fork shares its rows and images with its source until one of them changes, and never changes with it.
#[derive(Drop)]
pub struct Versions {
    alloc: Global,
    horizon: Epoch,
    applied: Epoch,
    rows: PageMap<RowId, Chain>,
    /// The rows that each epoch after the horizon changed, the oldest epoch first.
    notes: Vec<ChangedRows>,
}

impl Model for Versions {
    ghost use Rattle.version_store.specs.History.{Kept, IsKept};
    ghost use Rattle.version_store.specs.inner.Noting.{Notes};

    ghost Value = { Kept };

    ghost view = { λ v. record { horizon = v.horizon; applied = v.applied; rows = v.rows } };

    ghost invariant = { λ v. IsKept (record { horizon = v.horizon; applied = v.applied; rows = v.rows }) × Notes v.notes.items v.horizon v.rows };
}

impl Versions {
    /// No versions: no epoch is applied yet, and the snapshot of epoch 0, which has no rows, can be read. Takes no
    /// memory.
    pub fn empty(alloc: Global) -> Versions
        ensures { result ≡ record { horizon = 0; applied = 0; rows = [] } }
    {
        Versions {
            alloc,
            horizon: 0,
            applied: 0,
            rows: PageMap::empty(alloc),
            notes: Vec::new(alloc),
        }
    }

    /// That the rows and their versions are in order. Does nothing when it runs.
    pub fn keeps_order(&self)
        ensures { IsKept self.now }
    {
        let _horizon = self.horizon;
    }

    /// The first epoch that can be read.
    pub fn horizon(&self) -> Epoch
        ensures epoch { result ≡ self.now.horizon }
        ensures within { self.now.horizon ≤ self.now.applied }
    {
        self.horizon
    }

    /// The last epoch that can be read, which is the last one applied; 0 before the first.
    pub fn applied(&self) -> Epoch
        ensures { result ≡ self.now.applied }
    {
        self.applied
    }

    /// The image of the row after the epoch, None where there was no such row. Takes no memory: one search, and a
    /// look at each version of the row that is newer than the epoch.
    pub fn read_at(&self, row: &RowId, epoch: Epoch) -> Option<&RowImage>
        requires from { self.now.horizon ≤ epoch }
        requires upto { epoch ≤ self.now.applied }
        ensures kept { option_copied result ≡ image_at (chain_of self.now row.now) epoch }
        ensures snapshot { (journal : Journal) → IsHistoryOf journal self.now → option_copied result ≡ snap_at (epochs_of journal epoch) row.now }
    {
        self.image_of(row, epoch)
    }

    /// The image that the row's versions have after the epoch.
    fn image_of(&self, row: &RowId, epoch: Epoch) -> Option<&RowImage>
        ensures { option_copied result ≡ image_at (chain_of self.now row.now) epoch }
    {
        match self.rows.get(row) {
            Some(chain) => chain.image_at(epoch),
            None => None,
        }
    }

    /// The epoch of the row's newest version, 0 where it has none: the last epoch that changed the row, where that
    /// is after the horizon, and else an epoch that isn't after it. Takes no memory, and one search.
    pub fn last_change(&self, row: &RowId) -> Epoch
        ensures newest { result ≡ newest_epoch (chain_of self.now row.now) }
        ensures change { (journal : Journal) → IsHistoryOf journal self.now → TellsChange self.now.horizon (last_change (epochs_of journal self.now.applied) row.now) result }
    {
        self.newest_of(row)
    }

    /// The epoch of the row's newest version, 0 where it has none.
    fn newest_of(&self, row: &RowId) -> Epoch
        ensures { result ≡ newest_epoch (chain_of self.now row.now) }
    {
        match self.rows.get(row) {
            Some(chain) => chain.newest_epoch(),
            None => 0,
        }
    }

    /// The epoch of the row's newest version that was made up to the epoch, 0 where it has none. At an epoch that can be
    /// read it is the last one up to that which changed the row, where that is after the horizon, and else an epoch that
    /// isn't after it. Takes no memory: one search, and a look at each version of the row that is newer than the epoch.
    pub fn last_change_at(&self, row: &RowId, epoch: Epoch) -> Epoch
        ensures newest { result ≡ change_at (chain_of self.now row.now) epoch }
        ensures change { (journal : Journal) → IsHistoryOf journal self.now → self.now.horizon ≤ epoch → epoch ≤ self.now.applied → TellsChange self.now.horizon (last_change (epochs_of journal epoch) row.now) result }
    {
        self.change_of(row, epoch)
    }

    /// The last change of the row up to the epoch that its versions have.
    fn change_of(&self, row: &RowId, epoch: Epoch) -> Epoch
        ensures { result ≡ change_at (chain_of self.now row.now) epoch }
    {
        match self.rows.get(row) {
            Some(chain) => chain.change_at(epoch),
            None => 0,
        }
    }

    /// Whether the epoch isn't below the horizon. [`TooOld`] has the horizon, and comes exactly where it is.
    pub fn check_at(&self, epoch: Epoch) -> Result<(), TooOld>
        ensures ok { OnOk result (self.now.horizon ≤ epoch) }
        ensures err { IfErr result (λ e. (epoch < self.now.horizon) × (e.0 ≡ self.now.horizon)) }
    {
        if epoch < self.horizon {
            return Err(TooOld(self.horizon));
        }
        Ok(())
    }

    /// The rows that there were after the epoch, from the first border on and before the last one, with their images
    /// and in rising order. Takes memory for the answer and for a list of the rows between the borders that have
    /// versions, two searches, and for each of these rows a look at each version that is newer than the epoch.
    pub fn rows_between<A: Border<RowId>, B: Border<RowId>>(
        &self,
        first: &A,
        last: &B,
        epoch: Epoch,
    ) -> Result<Vec<(&RowId, &RowImage)>, NoMemory>
        requires from { self.now.horizon ≤ epoch }
        requires upto { epoch ≤ self.now.applied }
        requires first { IsBorder (A.before first.now) self.now.rows }
        requires last { IsBorder (B.before last.now) self.now.rows }
        ensures kept { IfOk result (λ found. map (λ p. (p.0.now, p.1.now)) found.items ≡ pairs_between (A.before first.now) (B.before last.now) (table_at self.now epoch)) }
        ensures snapshot { (journal : Journal) → IsHistoryOf journal self.now → IfOk result (λ found. map (λ p. (p.0.now, p.1.now)) found.items ≡ pairs_between (A.before first.now) (B.before last.now) (snap_rows (epochs_of journal epoch))) }
    {
        let pairs = self
            .rows
            .between(self.rows.place_where(first), self.rows.place_where(last))?;
        rows_at(self.alloc, pairs.as_slice(), epoch)
    }

    /// A second value of the same versions, which doesn't change when this one does. Takes one step, and one for
    /// each epoch after the horizon: pointers are shared.
    pub fn fork(&self) -> Result<Versions, NoMemory>
        ensures { IfOk result (λ fork. fork ≡ self.now) }
    {
        Ok(Versions {
            alloc: self.alloc,
            horizon: self.horizon,
            applied: self.applied,
            rows: self.rows.fork()?,
            notes: copy_items(self.alloc, self.notes.as_slice())?,
        })
    }

    /// Applies the next epoch: of its batches, one for each region in their order, the changes of those candidates
    /// that the outcomes say to commit. Without memory nothing changes.
    ///
    /// Takes a step for each candidate, and for each row that changes two searches, a copy of its name and image, a copy
    /// of its list of versions, which share their images, and a copy of a page of rows, with their keys and the pointers
    /// to their versions. Where the horizon is at most 64 epochs back, a row has at most 65 versions.
    pub fn apply_epoch(
        &mut self,
        epoch: Epoch,
        batches: &[&Batch],
        outcomes: &[Outcome],
    ) -> Result<(), NoMemory>
        requires next { epoch ≡ self.old.applied + 1 }
        requires outcomes { length outcomes.now ≡ length (candidates_of (map (λ b. b.now) batches.now)) }
        ensures applied { OnOk result (IsApplied (committed_among (candidates_of (map (λ b. b.now) batches.now)) outcomes.now) self.old self.new) }
        ensures history { OnOk result ((journal : Journal) → IsHistoryOf journal self.old → AreNextOf journal self.old (map (λ b. b.now) batches.now) outcomes.now → IsHistoryOf journal self.new) }
        ensures err { OnErr result (self.new ≡ self.old) }
    {
        let mut rows = self.rows.fork()?;
        let changes = committed_changes(self.alloc, batches, outcomes)?;
        write_all(self.alloc, &mut rows, epoch, changes.as_slice())?;
        let note = ChangedRows::of_changes(self.alloc, epoch, changes.as_slice())?;
        self.notes.push(note)?;
        self.rows = rows;
        self.applied = epoch;
        Ok(())
    }

    /// Moves the horizon up to the epoch, and leaves of each row's versions those that are newer, and of the others
    /// the newest one unless it is a removal. Without memory nothing changes.
    ///
    /// Takes a step for each epoch after the horizon, and for each row that an epoch up to the new horizon changed a
    /// search and a look at each of its versions that is newer than the horizon. Where all of a row's versions are left
    /// that is all, and no memory is taken; else there is a copy of the list of those that are, a second search, and a
    /// copy of a page of rows, with their keys and the pointers to their versions.
    pub fn trim(&mut self, horizon: Epoch) -> Result<(), NoMemory>
        requires from { self.old.horizon ≤ horizon }
        requires upto { horizon ≤ self.old.applied }
        ensures trimmed { OnOk result (IsTrimmed horizon self.old self.new) }
        ensures history { OnOk result ((journal : Journal) → IsHistoryOf journal self.old → IsHistoryOf journal self.new) }
        ensures err { OnErr result (self.new ≡ self.old) }
    {
        let mut rows = self.rows.fork()?;
        cut_noted(self.alloc, &mut rows, self.notes.as_slice(), horizon)?;
        leave_later(&mut self.notes, horizon);
        self.rows = rows;
        self.horizon = horizon;
        Ok(())
    }
}

impl KeptVersions for Versions {
    ghost use Rattle.version_store.specs.Chains.{image_at};
    ghost use Rattle.version_store.specs.History.{chain_of};

    ghost first_kept = { λ v. v.horizon };

    ghost last_kept = { λ v. v.applied };

    ghost image_at = { λ v row epoch. image_at (chain_of v row) epoch };

    fn horizon(&self) -> Epoch {
        Versions::horizon(self)
    }

    fn applied(&self) -> Epoch {
        Versions::applied(self)
    }

    fn read_at<'a>(&'a self, row: &RowId, epoch: Epoch) -> Option<&'a RowImage> {
        self.image_of(row, epoch)
    }
}

impl Changes for Versions {
    ghost use Rattle.version_store.specs.Chains.{newest_epoch};
    ghost use Rattle.version_store.specs.History.{chain_of};

    ghost last = { λ v row. newest_epoch (chain_of v row) };

    fn last_change(&self, row: &RowId) -> Epoch {
        self.newest_of(row)
    }
}
