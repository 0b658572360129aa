//! One region of the world.
ghost use Rattle.std.specs.Prelude.{◌≡◌, ◌+◌, ◌^◌, ◌<◌, ◌≤◌, ◌∷◌, ℕ, IfOk, OnOk, IsSome, Some, is_some, vec_len, nat_le, nat_lt, count_by, length};
ghost use Rattle.std.specs.Prelude.{if◌then◌else◌, ◌==◌, ◌||◌};
ghost use Rattle.geo_world.specs.inner.Arrivals.{batch_in};
ghost use Rattle.geo_base.specs.declared.limits.TheConstants.{MAX_AHEAD, MAX_REGIONS};
ghost use Rattle.write_set.specs.Journal.{Epochs, candidates_of};
ghost use Rattle.write_set.specs.Merge.{verdicts};
ghost use Rattle.write_set.specs.Plain.{IsMergeOf};
ghost use Rattle.write_set.specs.Overlay.{image_in};
ghost use Rattle.geo_world.specs.inner.Regions.{IsNew, Takes, Seals, Receives, TakesOut, Gathers, IsReady, Publishes, has_next, next_batch_of, next_batches};
ghost use Rattle.geo_world.specs.Step.{numbers_below};

use crate::inbox::{Inbox, empty_inbox, has_batch, put_batch, take_batch};
use crate::session::Session;
use crate::sessions::{let_wait, new_sessions};
use geo_base::limits::MAX_AHEAD;
use geo_base::{CandId, Duplicate, Epoch, NoMemory, Outcome, RegionNo, RowId};
use std::alloc::Global;
use write_set::{Batch, Candidate, CandidateList, Plain};

/// One region: the epoch that it seals next, the batches that it has sealed, its open candidates, the
/// batches that have come to it, what it has published, and its sessions.
#[derive(Drop)]
pub struct Region {
    pub open: Epoch,
    pub log: Vec<Batch>,
    pub waiting: Vec<Candidate>,
    pub inbox: Inbox,
    pub plain: Plain,
    pub sessions: Vec<Session>,
}

impl Region {
    /// A region at its start, of so many.
    pub fn new(alloc: Global, regions: u8) -> Result<Region, NoMemory>
        requires some { 1 ≤ regions }
        requires few { regions ≤ MAX_REGIONS }
        ensures { IfOk result (λ region. IsNew regions region) }
    {
        let sessions = new_sessions(alloc)?;
        Ok(Region {
            open: 1,
            log: Vec::new(alloc),
            waiting: Vec::new(alloc),
            inbox: empty_inbox(alloc),
            plain: Plain::empty(alloc, regions),
            sessions,
        })
    }

    /// Whether the row is there in what the region has published.
    pub fn has_row(&self, row: &RowId) -> bool
        ensures { result ≡ is_some (image_in self.now.plain.rows row.now) }
    {
        self.plain.get(row).is_some()
    }

    /// Takes a candidate of a session, which waits from now on, and answers its ticket.
    pub fn take(
        &mut self,
        number: RegionNo,
        session: u8,
        candidate: Candidate,
    ) -> Result<CandId, NoMemory>
        requires few { vec_len self.old.waiting < 2 ^ 32 }
        requires session { session < vec_len self.old.sessions }
        ensures { IfOk result (λ ticket. Takes number session candidate ticket self.old self.new) }
    {
        let csn = self.waiting.len() as u32;
        let ticket = CandId {
            epoch: self.open,
            region: number,
            csn,
        };
        self.waiting.push(candidate)?;
        let_wait(&mut self.sessions, session, ticket);
        Ok(ticket)
    }

    /// Whether as many batches as may be are sealed and not published.
    pub fn is_ahead(&self) -> bool
        ensures { result ≡ nat_le (MAX_AHEAD + self.now.plain.epoch + 1) self.now.open }
    {
        u64::from(self.open) > u64::from(self.plain.epoch()) + u64::from(MAX_AHEAD)
    }

    /// Seals the open candidates as a batch, at the end of the log.
    pub fn seal(&mut self, alloc: Global, number: RegionNo) -> Result<(), NoMemory>
        requires { self.old.open < 4294967295 }
        ensures { OnOk result (Seals number self.old self.new) }
    {
        let items = std::mem::replace(&mut self.waiting, Vec::new(alloc));
        let batch = Batch {
            region: number,
            epoch: self.open,
            items: CandidateList::new(items),
        };
        self.log.push(batch)?;
        self.open += 1;
        Ok(())
    }

    /// Whether a batch of another region is here, or its epoch is published.
    pub fn knows(&self, batch: &Batch) -> bool
        ensures { result ≡ nat_le batch.now.epoch self.now.plain.epoch || is_some (batch_in self.now.inbox batch.now.region batch.now.epoch) }
    {
        batch.epoch <= self.plain.epoch() || has_batch(&self.inbox, batch.region, batch.epoch)
    }

    /// Puts a batch of another region into the inbox.
    pub fn receive(&mut self, batch: Batch) -> Result<(), NoMemory>
        ensures { OnOk result (Receives batch self.old self.new) }
    {
        put_batch(&mut self.inbox, batch)
    }

    /// Whether that region's batch of the next epoch is here.
    pub fn has_next(&self, number: RegionNo, of: RegionNo, epoch: Epoch) -> bool
        ensures { result ≡ has_next self.now number epoch of }
    {
        if of == number {
            epoch < self.open
        } else {
            has_batch(&self.inbox, of, epoch)
        }
    }

    /// Of how many regions, of so many, the batch of the epoch is here.
    pub fn count_next(&self, regions: u8, number: RegionNo, epoch: Epoch) -> u8
        ensures { result ≡ count_by (has_next self.now number epoch) (numbers_below regions) }
    {
        let mut have = 0;
        for of in 0..regions {
            if self.has_next(number, of, epoch) {
                have += 1;
            }
        }
        have
    }

    /// That region's batch of the epoch, which is here: the region's own is copied, and another's leaves
    /// the inbox.
    fn take_next(
        &mut self,
        alloc: Global,
        number: RegionNo,
        epoch: Epoch,
        of: RegionNo,
    ) -> Result<Batch, NoMemory>
        requires some { 0 < epoch }
        requires there { IsSome (next_batch_of self.old number epoch of) }
        ensures taken { IfOk result (λ batch. next_batch_of self.old number epoch of ≡ Some batch) }
        ensures kept { TakesOut number of epoch self.old self.new }
    {
        if of != number {
            return Ok(take_batch(&mut self.inbox, of, epoch).unwrap());
        }
        self.log[epoch as usize - 1].copy(alloc)
    }

    /// The batches of the epoch, which are all here, by region. Those of other regions leave the inbox.
    pub fn gather(
        &mut self,
        alloc: Global,
        regions: u8,
        number: RegionNo,
        epoch: Epoch,
    ) -> Result<Vec<Batch>, NoMemory>
        requires some { 0 < epoch }
        requires there { (of : ℕ) → of < regions → IsSome (next_batch_of self.old number epoch of) }
        ensures batches { IfOk result (λ batches. batches.items ≡ next_batches self.old regions number epoch) }
        ensures kept { OnOk result (Gathers regions number epoch self.old self.new) }
    {
        let mut batches = Vec::new(alloc);
        for of in 0..regions {
            batches.push(self.take_next(alloc, number, epoch, of)?)?;
        }
        Ok(batches)
    }

    /// The epoch after the last that is published.
    pub fn next_epoch(&self) -> Epoch
        requires { self.now.plain.epoch + 1 < 2 ^ 32 }
        ensures { result ≡ self.now.plain.epoch + 1 }
    {
        self.plain.epoch() + 1
    }

    /// Merges the batches of the next epoch, which are all here, and answers the verdicts.
    pub fn publish(
        &mut self,
        alloc: Global,
        regions: u8,
        number: RegionNo,
        epoch: Epoch,
    ) -> Result<Vec<Outcome>, NoMemory>
        requires { IsReady regions number epoch self.old }
        ensures verdicts { (epochs : Epochs) → IsMergeOf epochs self.old.plain →
            IfOk result (λ outcomes. outcomes.items ≡ verdicts (candidates_of (next_batches self.old regions number epoch) ∷ epochs)) }
        ensures published { (epochs : Epochs) → IsMergeOf epochs self.old.plain →
            OnOk result (Publishes regions number (candidates_of (next_batches self.old regions number epoch) ∷ epochs) epoch self.old self.new) }
    {
        let batches = self.gather(alloc, regions, number, epoch)?;
        self.plain.step(batches.as_slice())
    }
}
