//! The laws of every play, each the contract of a function that does nothing.
//!
//! A play's world is the one that a list of events, whose numbers are in range, leads to from the first
//! world of 1 to 8 regions.
ghost use Rattle.std.specs.Prelude.{◌≡◌, ℕ, ℤ, ◌+◌, ◌-◌, ◌*◌, ◌<◌, ◌≤◌, List, ◌∷◌, ◌++◌, length, All, Some, false, nat_le, nat_lt};
ghost use Rattle.std.specs.List.{slice_get};
ghost use Rattle.geo_base.specs.declared.limits.TheConstants.{MAX_AGE, SESSIONS_PER_REGION, LAST_EPOCH};
ghost use Rattle.geo_base.specs.declared.numbers.CandId.{CandId};
ghost use Rattle.write_set.specs.Journal.{IsJournal, Extends, last_sealed};
ghost use Rattle.write_set.specs.Snapshot.{snap_rows};
ghost use Rattle.write_set.specs.Isolation.{IsSnapshotIsolated};
ghost use Rattle.world_script.specs.declared.event.Event.{Event};
ghost use Rattle.world_script.specs.declared.event.Event.TheVariants.{Publish};
ghost use Rattle.world_script.specs.declared.script.Script.{Script};
ghost use Rattle.world_script.specs.Script.{IsScript, IsWithin};
ghost use Rattle.geo_world.specs.World.{World, Idle, Pending, BatchPacket, first_world, region_of, sealed_by, open_epoch, published_epochs, session_of, holds};
ghost use Rattle.geo_world.specs.Step.{put_candidate, is_full, step};
ghost use Rattle.geo_world.specs.Play.{world_after};
ghost use Rattle.geo_world.specs.Plays.{LeadTo};
ghost use Rattle.geo_world.specs.Answers.{IsAnswer, HasAll, next_epoch, published_lines, waiting_lines};

/// A region has published only epochs that all regions have sealed, itself among them.
pub fn published_epochs_are_sealed()
    ensures by_all { (regions last : ℕ) (events : List Event) (w : World) (region : ℕ) → LeadTo regions last events w →
        region < regions → (region_of w region).published ≤ last_sealed w.journal }
    ensures by_itself { (regions last : ℕ) (events : List Event) (w : World) (region : ℕ) → LeadTo regions last events w →
        region < regions → (region_of w region).published ≤ sealed_by w region }
{}

/// What the regions seal is a journal, and the transactions of it that commit are a snapshot-isolated
/// history.
pub fn plays_are_isolated()
    ensures lawful { (regions last : ℕ) (events : List Event) (w : World) → LeadTo regions last events w → IsJournal w.journal }
    ensures isolated { (regions last : ℕ) (events : List Event) (w : World) → LeadTo regions last events w →
        IsSnapshotIsolated w.journal }
{}

/// Some answers of a step never come: an insert's candidate is never too old, nor too much for its batch
/// where its session takes a statement, and no packet that was sent is far ahead of its region.
pub fn no_other_refusals()
    ensures too_old { (regions last : ℕ) (events : List Event) (w : World) (region : ℕ) → LeadTo regions last events w →
        region < regions → nat_lt MAX_AGE (open_epoch w region - (region_of w region).published) ≡ false }
    ensures full { (regions last : ℕ) (events : List Event) (w : World) (region session : ℕ) (key value : ℤ) → LeadTo regions last events w →
        region < regions → session < SESSIONS_PER_REGION → session_of w region session ≡ Idle →
        is_full (region_of w region).waiting (put_candidate (region_of w region).published key value) ≡ false }
    ensures far { (regions last : ℕ) (events : List Event) (w : World) (packet to region epoch : ℕ) → LeadTo regions last events w →
        slice_get w.packets packet ≡ Some (BatchPacket to region epoch) →
        nat_lt ((region_of w to).published + MAX_AGE) epoch ≡ false }
{}

/// A region's table never has more rows than all regions have sessions: a session gives one candidate,
/// which puts one row. So no answer is long.
pub fn few_rows()
    ensures by_sessions { (regions last : ℕ) (events : List Event) (w : World) (region : ℕ) → LeadTo regions last events w →
        length (snap_rows (published_epochs w region)) ≤ regions * SESSIONS_PER_REGION }
    ensures few { (regions last : ℕ) (events : List Event) (w : World) (region : ℕ) → LeadTo regions last events w →
        length (snap_rows (published_epochs w region)) ≤ 512 }
{}

/// An event seals at most one epoch of a region. So where there were few enough events, no region has
/// come to its last epoch.
pub fn few_seals()
    ensures sealed { (regions last : ℕ) (events : List Event) (w : World) (region : ℕ) → LeadTo regions last events w →
        sealed_by w region ≤ length events }
    ensures not_last { (regions last : ℕ) (events : List Event) (w : World) (region : ℕ) → LeadTo regions last events w →
        length events < last - 1 → nat_le w.last (open_epoch w region) ≡ false }
{}

/// An event is answered in one of a few ways: of the refusals only those of a row that is there, of a
/// session or a region that waits, and of a seal that is far ahead. Which answer a statement gets, its
/// session's state and its region's snapshot say, and of a publish the batches that are there. So it is at
/// each event of a script, whose events are too few for a region to come to its last epoch.
pub fn few_answers()
    ensures play { (regions last : ℕ) (events : List Event) (w : World) (event : Event) → LeadTo regions last events w →
        IsWithin regions event → length events < last - 1 → IsAnswer w event (step w event).lines }
    ensures script { (script : Script) (bytes : List ℕ) (before : List Event) (event : Event) (after : List Event) (w : World) →
        IsScript script bytes → script.events ≡ before ++ event ∷ after →
        w ≡ world_after (first_world script.regions LAST_EPOCH) before → IsAnswer w event (step w event).lines }
{}

/// Later events add to the journal and take nothing away; what a region has published it goes on having;
/// and regions that have published the same epoch, at one time or at two, have the same rows.
pub fn journals_grow()
    ensures journals { (regions last : ℕ) (events more : List Event) (w : World) → LeadTo regions last events w →
        All (IsWithin regions) more → Extends w.journal (world_after w more).journal }
    ensures published { (regions last : ℕ) (events more : List Event) (w : World) (region : ℕ) → LeadTo regions last events w →
        All (IsWithin regions) more → (region_of w region).published ≤ (region_of (world_after w more) region).published }
    ensures rows { (regions last : ℕ) (events more : List Event) (w : World) (r q : ℕ) → LeadTo regions last events w →
        All (IsWithin regions) more → r < regions → (region_of w r).published ≡ (region_of (world_after w more) q).published →
        snap_rows (published_epochs w r) ≡ snap_rows (published_epochs (world_after w more) q) }
{}

/// A publish at a region that has every region's batch of its next epoch prints the epoch with its numbers,
/// and the region has published it. At a region that lacks one, it prints of how many regions the batches
/// are there, and changes nothing.
pub fn whole_epochs_are_published()
    ensures published { (regions last : ℕ) (events : List Event) (w : World) (region : ℕ) → LeadTo regions last events w →
        HasAll w region → (step w (Publish region)).lines ≡ published_lines w region }
    ensures moves_on { (regions last : ℕ) (events : List Event) (w : World) (region : ℕ) → LeadTo regions last events w →
        region < regions → HasAll w region → (region_of (step w (Publish region)).world region).published ≡ next_epoch w region }
    ensures waits { (regions last : ℕ) (events : List Event) (w : World) (region q : ℕ) → LeadTo regions last events w →
        q < regions → holds w region q (next_epoch w region) ≡ false → (step w (Publish region)).lines ≡ waiting_lines w region }
    ensures stays { (regions last : ℕ) (events : List Event) (w : World) (region q : ℕ) → LeadTo regions last events w →
        q < regions → holds w region q (next_epoch w region) ≡ false → (step w (Publish region)).world ≡ w }
{}

/// A session that waits goes on waiting with the same ticket, since no event yet tells it a verdict.
pub fn waiting_sessions_wait()
    ensures { (regions last : ℕ) (events more : List Event) (w : World) (region session : ℕ) (ticket : CandId) → LeadTo regions last events w →
        All (IsWithin regions) more → session_of w region session ≡ Pending ticket →
        session_of (world_after w more) region session ≡ Pending ticket }
{}
