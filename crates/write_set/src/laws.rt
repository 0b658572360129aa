//! The laws of every journal, each the contract of a function that does nothing.
ghost use Rattle.std.specs.Prelude.{◌≡◌, ◌⊎◌, ℕ, ◌+◌, ◌≤◌, ◌↔◌, true, false, Some, [], ◌∷◌, List, Contains};
ghost use Rattle.geo_base.specs.declared.row_id.RowId.{RowId};
ghost use Rattle.geo_base.specs.declared.numbers.CandId.{CandId};
ghost use Rattle.geo_base.specs.declared.outcome.Outcome.{Outcome};
ghost use Rattle.geo_base.specs.declared.outcome.Outcome.TheVariants.{Beaten};
ghost use Rattle.write_set.specs.Sets.{ChangeOfRow, Rises, has_row};
ghost use Rattle.write_set.specs.Net.{IsNet, change_in};
ghost use Rattle.write_set.specs.inner.Nets.{net_of};
ghost use Rattle.write_set.specs.declared.change.Change.{Change};
ghost use Rattle.write_set.specs.declared.row_change.RowChange.{RowChange};
ghost use Rattle.write_set.specs.Journal.{Journal, Epochs, Placed, IsJournal, batches_at, candidates_of, epochs_of, last_sealed, Extends};
ghost use Rattle.write_set.specs.Merge.{committed, committed_among, contenders, id_of, is_beaten_on, last_change, verdict_of, verdicts};
ghost use Rattle.write_set.specs.Overlay.{Table, image_in, overlay};
ghost use Rattle.write_set.specs.Snapshot.{image_over, snap_at, snap_rows};
ghost use Rattle.write_set.specs.Isolation.{Commits, IsSnapshotIsolated};
ghost use Rattle.write_set.specs.Rules.{IsLastChange, IsVerdict};

/// Two candidates of one epoch that commit and have a row in common, changed or touched, are one.
pub fn committed_share_no_row()
    ensures { (journal : Journal) (epoch : ℕ) (c d : Placed) (row : RowId) → IsJournal journal →
        Commits journal epoch c → Commits journal epoch d →
        has_row row c.set ≡ true → has_row row d.set ≡ true → c ≡ d }
{}

/// The epochs that all regions have sealed, and so their verdicts and snapshots, stay when regions seal more.
pub fn sealed_epochs_stay()
    ensures epochs { (older newer : Journal) (epoch : ℕ) → Extends older newer → epoch ≤ last_sealed older →
        epochs_of newer epoch ≡ epochs_of older epoch }
    ensures verdicts { (older newer : Journal) (epoch : ℕ) → Extends older newer → epoch ≤ last_sealed older →
        verdicts (epochs_of newer epoch) ≡ verdicts (epochs_of older epoch) }
    ensures snapshots { (older newer : Journal) (epoch : ℕ) → Extends older newer → epoch ≤ last_sealed older →
        ((row : RowId) → snap_at (epochs_of newer epoch) row ≡ snap_at (epochs_of older epoch) row)
        × (snap_rows (epochs_of newer epoch) ≡ snap_rows (epochs_of older epoch)) }
    ensures sealed { (older newer : Journal) → Extends older newer → last_sealed older ≤ last_sealed newer }
{}

/// The committed transactions of every journal are a snapshot-isolated history, in which no row that one of
/// them has, if only touched, is changed by another after its start and up to its epoch.
pub fn journals_are_isolated()
    ensures { (journal : Journal) → IsJournal journal → IsSnapshotIsolated journal }
{}

/// The list of a snapshot's rows rises, and a look-up in it answers as the snapshot does.
pub fn rows_are_the_snapshot()
    ensures rising { (epochs : Epochs) → Rises (snap_rows epochs) }
    ensures images { (epochs : Epochs) (row : RowId) → image_in (snap_rows epochs) row ≡ snap_at epochs row }
{}

/// Rows with a net laid over them rise, and a look-up among them answers what the net leaves of the row: the
/// image that it puts, nothing where it removes the row, and what was there before where it touches the row or
/// hasn't it.
pub fn overlays_are_looked_up()
    ensures rising { (rows : Table) (net : List ChangeOfRow) → Rises rows → Rises (overlay rows net) }
    ensures images { (rows : Table) (net : List ChangeOfRow) (row : RowId) → Rises rows → Rises net →
        image_in (overlay rows net) row ≡ image_over (change_in net row) (image_in rows row) }
{}

/// The net of a set and of changes after it is the one list that has each row once and in rising order, with
/// what the changes of the row leave, in their order, of what the set has of it.
pub fn nets_have_last_changes()
    ensures { (set : List ChangeOfRow) (changes : List RowChange) (net : List ChangeOfRow) → Rises set →
        (net_of set changes ≡ net) ↔ IsNet set changes net }
{}

/// A verdict that names a winner names a fresh candidate that has the row and that no other such one beats.
pub fn winner_is_unbeaten()
    ensures { (last : RowId → ℕ) (epoch : ℕ) (all : List Placed) (c : Placed) (row : RowId) (id : CandId) →
        verdict_of last epoch all c ≡ Beaten row id →
        (w : Placed) × Contains (contenders last all row) w × (id ≡ id_of epoch w) × (is_beaten_on last all w row ≡ false) }
{}

/// A verdict is the one that the rules allow: committed where the candidate is fresh and no contender beats
/// it on a row; changed on its least row that was changed after its start; beaten on the least row where a
/// contender beats it, by the one that none beats.
pub fn verdicts_are_by_the_rules()
    ensures rules { (last : RowId → ℕ) (epoch : ℕ) (all : List Placed) (c : Placed) (outcome : Outcome) → Rises c.set →
        (verdict_of last epoch all c ≡ outcome) ↔ IsVerdict last epoch all c outcome }
    ensures rising { (journal : Journal) (place : ℕ) (c : Placed) → IsJournal journal →
        Contains (candidates_of (batches_at journal place)) c → Rises c.set }
{}

/// A name stands for one candidate of its epoch alone.
pub fn names_are_of_one_candidate()
    ensures { (journal : Journal) (place : ℕ) (c d : Placed) → IsJournal journal →
        Contains (candidates_of (batches_at journal place)) c → Contains (candidates_of (batches_at journal place)) d →
        id_of (place + 1) c ≡ id_of (place + 1) d → c ≡ d }
{}

/// The last change of a row, up to an epoch, is the last epoch in which a candidate that commits changes it,
/// or 0 where there is none.
pub fn last_changes_are_last()
    ensures { (journal : Journal) (upto : ℕ) (row : RowId) (epoch : ℕ) →
        (last_change (epochs_of journal upto) row ≡ epoch) ↔ IsLastChange journal upto row epoch }
{}

/// The candidates of an epoch that its verdicts say to commit are those that commit.
pub fn verdicts_say_who_commits()
    ensures { (all : List Placed) (older : Epochs) → committed_among all (verdicts (all ∷ older)) ≡ committed (all ∷ older) }
{}

/// What a net says of a row is what the set before it says, or what one of the changes makes of the row.
pub fn nets_are_of_their_changes()
    ensures { (set : List ChangeOfRow) (changes : List RowChange) (net : List ChangeOfRow) (row : RowId) (change : Change) →
        IsNet set changes net → change_in net row ≡ Some change →
        (change_in set row ≡ Some change) ⊎ ((c : RowChange) × Contains changes c × (c.row ≡ row) × (c.change ≡ change)) }
{}
