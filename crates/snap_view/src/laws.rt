//! What snapshots and views have to do with journals and schemas, each the contract of a function that does nothing.
ghost use Rattle.std.specs.Prelude.{◌≡◌, ℕ, ◌≤◌, None, [], List};
ghost use Rattle.geo_base.specs.declared.row_id.RowId.{RowId};
ghost use Rattle.geo_schema.specs.Schemas.{Tables};
ghost use Rattle.index_store.specs.declared.pair.IndexPair.{IndexPair};
ghost use Rattle.index_store.specs.Indexes.{IsIndexOf};
ghost use Rattle.index_store.specs.Kept.{IsKeptEpoch, IsNextOf, IsRestOf};
ghost use Rattle.row_source.specs.Sources.{AreRowsOf};
ghost use Rattle.version_store.specs.Chains.{newest_epoch};
ghost use Rattle.version_store.specs.History.{Kept, IsApplied, IsHistoryOf, IsKept, IsTrimmed, TellsChange, chain_of};
ghost use Rattle.write_set.specs.Journal.{Journal, Placed, Extends, epochs_of};
ghost use Rattle.write_set.specs.Merge.{last_change};
ghost use Rattle.write_set.specs.Overlay.{Table, image_in, overlay};
ghost use Rattle.write_set.specs.Sets.{ChangeOfRow, Rises};
ghost use Rattle.write_set.specs.Snapshot.{snap_at};
ghost use Rattle.snap_view.specs.Snapshots.{Held, HoldsIndexes, ImagesFit, IsSnapshot, IsSnapshotOf, images_of, last_held, rows_of};
ghost use Rattle.snap_view.specs.Views.{PutsFit};

/// A snapshot of versions that are a journal's history has the rows of the journal's snapshot of its epoch: a look-up in
/// them answers what that snapshot has of the row, and they rise. It is one of the journal's still when regions seal
/// more.
pub fn snapshots_are_of_journals()
    ensures rows { (journal : Journal) (held : Held) → IsHistoryOf journal held.versions → IsSnapshot held → IsSnapshotOf journal held }
    ensures read { (journal : Journal) (held : Held) (row : RowId) → IsSnapshotOf journal held → image_in (rows_of held) row ≡ snap_at (epochs_of journal held.epoch) row }
    ensures rises { (held : Held) → IsSnapshot held → Rises (rows_of held) }
    ensures stays { (older newer : Journal) (held : Held) → Extends older newer → IsSnapshotOf older held → IsSnapshotOf newer held }
{}

/// A snapshot has the rows that one of the same epoch has that is taken after the next epoch is applied, or after the
/// horizon is moved up. Snapshots of one epoch of a journal have the same rows, however many epochs were applied and
/// horizons moved between them.
pub fn snapshots_never_change()
    ensures journal { (journal : Journal) (one other : Held) → IsSnapshotOf journal one → IsSnapshotOf journal other → one.epoch ≡ other.epoch → rows_of one ≡ rows_of other }
    ensures applied { (committed : List Placed) (earlier later : Held) → IsSnapshot earlier → IsSnapshot later → earlier.epoch ≡ later.epoch →
        IsApplied committed earlier.versions later.versions → rows_of earlier ≡ rows_of later }
    ensures trimmed { (horizon : ℕ) (earlier later : Held) → IsSnapshot earlier → IsSnapshot later → earlier.epoch ≡ later.epoch →
        IsTrimmed horizon earlier.versions later.versions → rows_of earlier ≡ rows_of later }
{}

/// The last change that a snapshot tells of a row is the journal's up to the snapshot's epoch, where that is after the
/// horizon, and else an epoch that isn't after it. A snapshot of the last epoch applied tells the epoch of the row's
/// newest version.
pub fn snapshots_tell_last_changes()
    ensures change { (journal : Journal) (held : Held) (row : RowId) → IsHistoryOf journal held.versions → IsSnapshot held →
        TellsChange held.versions.horizon (last_change (epochs_of journal held.epoch) row) (last_held held row) }
    ensures newest { (held : Held) (row : RowId) → IsSnapshot held → held.epoch ≡ held.versions.applied → last_held held row ≡ newest_epoch (chain_of held.versions row) }
{}

/// The index of the images that are read of kept versions has the pair of each version, at whatever epoch it is read.
pub fn indexes_of_versions_are_held()
    ensures { (tables : Tables) (kept : Kept) (pairs : List IndexPair) (epoch : ℕ) → IsKept kept → IsIndexOf tables (images_of kept) pairs →
        HoldsIndexes tables (record { versions = kept; pairs = pairs; epoch = epoch }) }
{}

/// What the versions of rows keep goes on as an index follows it: there is no image before the first epoch, the images
/// after an epoch is applied are those of one epoch more, and the images after the horizon is moved up are those that
/// are left. So an index store that follows the versions stays that of their images.
pub fn indexes_follow_versions()
    ensures begins { (row : RowId) (epoch : ℕ) → IsKeptEpoch (images_of (record { horizon = 0; applied = 0; rows = [] })) epoch →
        (images_of (record { horizon = 0; applied = 0; rows = [] })).image row epoch ≡ None }
    ensures applied { (committed : List Placed) (old new : Kept) → IsKept old → IsKept new → IsApplied committed old new →
        IsNextOf committed (images_of old) (images_of new) }
    ensures trimmed { (horizon : ℕ) (old new : Kept) → IsKept new → old.horizon ≤ horizon → IsTrimmed horizon old new →
        IsRestOf (images_of old) (images_of new) }
{}

/// The rows of a snapshot are rows of tables of which each image that its versions keep is one.
pub fn snapshots_fit_their_schema()
    ensures { (tables : Tables) (held : Held) → IsSnapshot held → ImagesFit tables held.versions → AreRowsOf tables (rows_of held) }
{}

/// The rows of a view are rows of its schema's tables, where those of its snapshot are and each image that the own
/// writes put is.
pub fn views_fit_their_schema()
    ensures { (tables : Tables) (base : Table) (own : List ChangeOfRow) → AreRowsOf tables base → PutsFit tables own →
        AreRowsOf tables (overlay base own) }
{}
