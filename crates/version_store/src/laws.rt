//! What kept versions have to do with journals, each the contract of a function that does nothing.
ghost use Rattle.std.specs.Prelude.{◌≡◌, ◌⊎◌, ℕ, suc, ◌<◌, ◌≤◌, false, Some, [], ◌∷◌, List, Contains};
ghost use Rattle.std.specs.List.{list_any};
ghost use Rattle.geo_base.specs.declared.row_id.RowId.{RowId};
ghost use Rattle.geo_base.specs.declared.row_image.RowImage.{RowImage};
ghost use Rattle.write_set.specs.declared.change.Change.TheVariants.{Put};
ghost use Rattle.write_set.specs.Sets.{Rises, changes_row};
ghost use Rattle.write_set.specs.Journal.{Journal, Placed, Epochs, Extends, epochs_of, last_sealed};
ghost use Rattle.write_set.specs.Merge.{committed, last_change};
ghost use Rattle.write_set.specs.Overlay.{Table, image_in};
ghost use Rattle.write_set.specs.Snapshot.{changes_of, image_after, snap_at, snap_rows};
ghost use Rattle.version_store.specs.Chains.{Version, Chain, image_at, change_at, newest_image, newest_epoch, grown};
ghost use Rattle.version_store.specs.History.{Kept, chain_of, IsKept, IsHistoryOf, IsApplied, IsTrimmed, TellsChange};
ghost use Rattle.version_store.specs.Listing.{table_at};

/// At each epoch from the horizon to the last one applied, the kept versions answer what the journal's snapshot
/// has, and the newest version that was made up to the epoch tells the row's last change up to then: it is of that
/// change, where that is after the horizon, and else isn't after the horizon either. So the newest of all versions tells
/// the last change up to the last epoch.
pub fn versions_answer_as_snapshots()
    ensures images { (journal : Journal) (kept : Kept) (row : RowId) (epoch : ℕ) → IsHistoryOf journal kept →
        kept.horizon ≤ epoch → epoch ≤ kept.applied → image_at (chain_of kept row) epoch ≡ snap_at (epochs_of journal epoch) row }
    ensures changes { (journal : Journal) (kept : Kept) (row : RowId) (epoch : ℕ) → IsHistoryOf journal kept →
        kept.horizon ≤ epoch → epoch ≤ kept.applied → TellsChange kept.horizon (last_change (epochs_of journal epoch) row) (change_at (chain_of kept row) epoch) }
    ensures after { (journal : Journal) (kept : Kept) (row : RowId) → IsHistoryOf journal kept →
        kept.horizon < last_change (epochs_of journal kept.applied) row →
        newest_epoch (chain_of kept row) ≡ last_change (epochs_of journal kept.applied) row }
    ensures upto { (journal : Journal) (kept : Kept) (row : RowId) → IsHistoryOf journal kept →
        last_change (epochs_of journal kept.applied) row ≤ kept.horizon → newest_epoch (chain_of kept row) ≤ kept.horizon }
{}

/// What is kept is a history of the journal before the first epoch, after the journal's next epoch is applied, and
/// after the horizon is moved up; and it stays one when regions seal more.
pub fn histories_go_on()
    ensures begins { (journal : Journal) → IsHistoryOf journal (record { horizon = 0; applied = 0; rows = [] }) }
    ensures applied { (journal : Journal) (old new : Kept) → IsHistoryOf journal old → old.applied < last_sealed journal →
        IsApplied (committed (epochs_of journal (suc old.applied))) old new → IsHistoryOf journal new }
    ensures trimmed { (journal : Journal) (horizon : ℕ) (old new : Kept) → IsHistoryOf journal old → old.horizon ≤ horizon → horizon ≤ old.applied →
        IsTrimmed horizon old new → IsHistoryOf journal new }
    ensures stays { (older newer : Journal) (kept : Kept) → Extends older newer → IsHistoryOf older kept → IsHistoryOf newer kept }
{}

/// Once an epoch is applied, what was read at earlier epochs is read still, and at the new epoch its changes are made
/// to the newest image of each row, which was read at the last epoch before it: a row that none of its committed
/// candidates changes reads as it did. Once the horizon is moved, what was read from it on is read still.
pub fn what_is_read_stays()
    ensures earlier { (committed : List Placed) (old new : Kept) (row : RowId) (epoch : ℕ) → IsApplied committed old new → epoch ≤ old.applied →
        image_at (chain_of new row) epoch ≡ image_at (chain_of old row) epoch }
    ensures next { (committed : List Placed) (old new : Kept) (row : RowId) → IsKept old → IsApplied committed old new →
        image_at (chain_of new row) new.applied ≡ image_after (changes_of committed) row (newest_image (chain_of old row)) }
    ensures unchanged { (committed : List Placed) (old new : Kept) (row : RowId) → IsKept old → IsApplied committed old new →
        list_any (λ c. changes_row row c.set) committed ≡ false →
        image_at (chain_of new row) new.applied ≡ image_at (chain_of old row) old.applied }
    ensures newest { (kept : Kept) (row : RowId) → IsKept kept → image_at (chain_of kept row) kept.applied ≡ newest_image (chain_of kept row) }
    ensures change { (kept : Kept) (row : RowId) → IsKept kept → change_at (chain_of kept row) kept.applied ≡ newest_epoch (chain_of kept row) }
    ensures trimmed { (horizon : ℕ) (old new : Kept) (row : RowId) (epoch : ℕ) → IsTrimmed horizon old new → horizon ≤ epoch →
        image_at (chain_of new row) epoch ≡ image_at (chain_of old row) epoch }
{}

/// The images that are kept are exactly those that are read: each version is read at an epoch from the horizon to the
/// last one applied, and each image that is read is a version's. An epoch that is applied brings only images that its
/// committed candidates put.
pub fn kept_images_are_read()
    ensures versions { (kept : Kept) (row : RowId) (version : Version) → IsKept kept → Contains (chain_of kept row) version →
        (epoch : ℕ) × (kept.horizon ≤ epoch) × (epoch ≤ kept.applied) × (image_at (chain_of kept row) epoch ≡ version.image) }
    ensures images { (chain : Chain) (epoch : ℕ) (image : RowImage) → image_at chain epoch ≡ Some image →
        (version : Version) × Contains chain version × (version.image ≡ Some image) }
    ensures grown { (epoch : ℕ) (committed : List Placed) (row : RowId) (chain : Chain) (version : Version) (image : RowImage) →
        Contains (grown epoch committed row chain) version → version.image ≡ Some image →
        ((earlier : Version) × Contains chain earlier × (earlier.image ≡ Some image)) ⊎ Contains (changes_of committed) (row, Put image) }
{}

/// The table of an epoch rises, has of each row what is read of it, and is the journal's snapshot. Two rising tables
/// with the same look-ups are one.
pub fn tables_are_snapshots()
    ensures rises { (kept : Kept) (epoch : ℕ) → IsKept kept → Rises (table_at kept epoch) }
    ensures read { (kept : Kept) (epoch : ℕ) (row : RowId) → IsKept kept → image_in (table_at kept epoch) row ≡ image_at (chain_of kept row) epoch }
    ensures snapshot { (journal : Journal) (kept : Kept) (epoch : ℕ) → IsKept kept → IsHistoryOf journal kept →
        kept.horizon ≤ epoch → epoch ≤ kept.applied → table_at kept epoch ≡ snap_rows (epochs_of journal epoch) }
    ensures same { (a b : Table) → Rises a → Rises b → ((row : RowId) → image_in a row ≡ image_in b row) → a ≡ b }
{}

/// What is kept in order is told by its horizon, its last epoch and the versions of each row. So of one journal there
/// is one value that is kept, at each horizon and last epoch.
pub fn histories_are_one()
    ensures chains { (a b : Kept) → IsKept a → IsKept b → a.horizon ≡ b.horizon → a.applied ≡ b.applied →
        ((row : RowId) → chain_of a row ≡ chain_of b row) → a ≡ b }
    ensures journal { (journal : Journal) (a b : Kept) → IsKept a → IsKept b → IsHistoryOf journal a → IsHistoryOf journal b →
        a.horizon ≡ b.horizon → a.applied ≡ b.applied → a ≡ b }
{}
