ghost use Rattle.std.specs.Prelude.{◌≡◌, ℕ, ◌+◌, ◌≤◌, ◌∷◌, [], length, IfOk, OnErr};
ghost use Rattle.std.specs.List.{slice_get};
ghost use Rattle.std.specs.Option.{option_copied, option_map};
ghost use Rattle.geo_base.specs.declared.limits.TheConstants.{MAX_REGIONS};
ghost use Rattle.write_set.specs.Overlay.{image_in};
ghost use Rattle.write_set.specs.Journal.{Epochs, AreBatches, candidates_of};
ghost use Rattle.write_set.specs.Merge.{verdicts};
ghost use Rattle.write_set.specs.Plain.{IsMergeOf};

use crate::batch::Batch;
use crate::changes::Changes;
use crate::entrant::entrants;
use crate::table::value_of;
use crate::verdicts::{fresh_ones, judge, last_change};
use crate::writes::{make_changes, note_changes, rows_altered};
use geo_base::{Epoch, NoMemory, Outcome, RowId, RowImage};
use std::alloc::Global;
use std::marker::Model;

/// The plain merge of all regions.
#[derive(Debug, Drop)]
pub struct Plain {
    alloc: Global,
    regions: u8,
    epoch: Epoch,
    rows: Vec<(RowId, RowImage)>,
    changes: Vec<(RowId, Epoch)>,
}

impl Model for Plain {
    ghost use Rattle.std.specs.Prelude.{◌≤◌};
    ghost use Rattle.write_set.specs.Plain.{Merged};
    ghost use Rattle.write_set.specs.Sets.{Rises};

    ghost Value = { Merged };

    ghost view = { λ p. record { regions = p.regions; epoch = p.epoch; rows = p.rows.items; changes = p.changes.items } };

    ghost invariant = { λ p. (1 ≤ p.regions) × Rises p.rows.items × Rises p.changes.items };
}

impl Plain {
    /// The merge of so many regions before the first epoch: no rows.
    pub fn empty(alloc: Global, regions: u8) -> Plain
        requires some { 1 ≤ regions }
        requires few { regions ≤ MAX_REGIONS }
        ensures value { result ≡ record { regions = regions; epoch = 0; rows = []; changes = [] } }
        ensures merged { IsMergeOf [] result }
    {
        Plain {
            alloc,
            regions,
            epoch: 0,
            rows: Vec::new(alloc),
            changes: Vec::new(alloc),
        }
    }

    /// Merges the next epoch, given as one lawful batch of each region in their order, and answers the
    /// verdict on each candidate by region and then commit number. Without memory nothing changes.
    ///
    /// For each row of each candidate it compares the candidate with each fresh one of the epoch, and
    /// searches that one's set. For each row that changes it searches the rows, and the last changes, by
    /// halving, and moves those behind the place.
    pub fn step(&mut self, batches: &[Batch]) -> Result<Vec<Outcome>, NoMemory>
        requires count { length batches.now ≡ self.old.regions }
        requires lawful { AreBatches 0 (self.old.epoch + 1) batches.now }
        ensures verdicts { (epochs : Epochs) → IsMergeOf epochs self.old →
            IfOk result (λ outcomes. outcomes.items ≡ verdicts (candidates_of batches.now ∷ epochs)) }
        ensures merged { (epochs : Epochs) → IsMergeOf epochs self.old →
            IfOk result (λ _. IsMergeOf (candidates_of batches.now ∷ epochs) self.new) }
        ensures regions { self.new.regions ≡ self.old.regions }
        ensures err { OnErr result (self.new ≡ self.old) }
    {
        let all = entrants(self.alloc, batches)?;
        let epoch = epoch_of(batches);
        let changes = self.changes.as_slice();
        let fresh = fresh_ones(self.alloc, changes, all.as_slice())?;
        let judged = judge(self.alloc, changes, epoch, fresh.as_slice(), all.as_slice())?;
        let changed = rows_altered(self.alloc, judged.writes.as_slice())?;
        self.rows.reserve(judged.writes.len())?;
        self.changes.reserve(changed.len())?;
        make_changes(&mut self.rows, judged.writes);
        note_changes(&mut self.changes, changed, epoch);
        self.epoch = epoch;
        Ok(judged.outcomes)
    }

    /// The image of a row.
    pub fn get(&self, row: &RowId) -> Option<&RowImage>
        ensures { option_copied result ≡ image_in self.now.rows row.now }
    {
        value_of(self.rows.as_slice(), row)
    }

    /// How many epochs were merged.
    pub fn epoch(&self) -> Epoch
        ensures { result ≡ self.now.epoch }
    {
        self.epoch
    }

    /// How many rows there are.
    pub fn count(&self) -> u64
        ensures { result ≡ length self.now.rows }
    {
        self.rows.len() as u64
    }

    /// The row at a place of the rising list of rows, counted from 0.
    pub fn row(&self, place: u64) -> Option<(&RowId, &RowImage)>
        ensures { option_map (λ p. (p.0.now, p.1.now)) result ≡ slice_get self.now.rows place }
    {
        match self.rows.get(place as usize) {
            Some(found) => Some((&found.0, &found.1)),
            None => None,
        }
    }
}

/// The last changes of the epochs merged.
impl Changes for Plain {
    ghost use Rattle.write_set.specs.Plain.{last_in};

    ghost last = { λ p. last_in p.changes };

    fn last_change(&self, row: &RowId) -> Epoch {
        last_change(self.changes.as_slice(), row)
    }
}

/// The epoch that the batches are of.
fn epoch_of(batches: &[Batch]) -> Epoch
    requires { 1 ≤ length batches.now }
    ensures { (region epoch : ℕ) → AreBatches region epoch batches.now → result ≡ epoch }
{
    batches[0].epoch
}
