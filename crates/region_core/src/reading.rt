//! What is read of a region: its snapshots, the round of its next epoch, and what became of candidates.
ghost use Rattle.std.specs.Prelude.{◌≡◌, ◌≤◌, IfOk, length, map};
ghost use Rattle.epoch_inbox.specs.Inbox.{held_of};
ghost use Rattle.geo_base.specs.declared.limits.TheConstants.{MAX_REGIONS};
ghost use Rattle.write_set.specs.Journal.{AreBatches};
ghost use Rattle.region_core.specs.declared.fault.AsOfFault.TheVariants as of_epoch;
ghost use Rattle.region_core.specs.declared.fault.BeginFault.TheVariants as of_begin;
ghost use Rattle.region_core.specs.declared.fault.RoundFault.TheVariants as of_round;
ghost use Rattle.region_core.specs.Refusals.{begin_refusal, as_of_refusal, round_refusal};
ghost use Rattle.region_core.specs.Calls.{Answers, IsOfEpoch, IsNextRound, IsTicketOf, Tells, polled_of};

use crate::fault::{AsOfFault, BeginFault, RoundFault};
use crate::region::Region;
use crate::ticket::Ticket;
use crate::told::Told;
use geo_base::{Duplicate, Epoch, NoMemory};
use merge_round::{BatchList, RoundInput};
use snap_view::Snapshot;
use std::alloc::Global;
use write_set::Batch;

impl Region {
    /// The snapshot of the published epoch, on which a transaction starts. Takes what the forks of versions and index
    /// take.
    pub fn begin(&self) -> Result<Snapshot, BeginFault>
        ensures { Answers of_begin.NoMemory (begin_refusal self.now.standing) result (IsOfEpoch self.now self.now.standing.published) }
    {
        if !self.up {
            return Err(BeginFault::Down);
        }
        Ok(self.snapshot(self.published())?)
    }

    /// The snapshot of an epoch from the horizon to the published one. Takes what [`Region::begin`] takes.
    pub fn as_of(&self, epoch: u64) -> Result<Snapshot, AsOfFault>
        ensures { Answers of_epoch.NoMemory (as_of_refusal epoch self.now.standing) result (IsOfEpoch self.now epoch) }
    {
        if !self.up {
            return Err(AsOfFault::Down);
        }
        let horizon = self.horizon();
        if epoch < u64::from(horizon) {
            return Err(AsOfFault::TooOld(horizon));
        }
        let published = self.published();
        if epoch > u64::from(published) {
            return Err(AsOfFault::NotPublished(published));
        }
        Ok(self.snapshot(epoch as Epoch)?)
    }

    /// The snapshot of an epoch that can be read.
    fn snapshot(&self, epoch: Epoch) -> Result<Snapshot, NoMemory>
        requires from { self.now.versions.horizon ≤ epoch }
        requires upto { epoch ≤ self.now.versions.applied }
        ensures { IfOk result (IsOfEpoch self.now epoch) }
    {
        let versions = self.versions.fork()?;
        let index = self.index.fork()?;
        Ok(Snapshot::new(versions, index, epoch))
    }

    /// What a round of the next epoch is made of, where the region holds the batches of all regions. Takes a copy of
    /// each batch, and what [`Region::begin`] takes.
    pub fn round(&self) -> Result<RoundInput<Snapshot>, RoundFault>
        ensures input { Answers of_round.NoMemory (round_refusal self.now.standing) result (λ input. IsNextRound self.now input.epoch input.batches input.before) }
        ensures few { IfOk result (λ input. length input.batches ≤ MAX_REGIONS) }
        ensures lawful { IfOk result (λ input. AreBatches 0 input.epoch input.batches) }
    {
        if !self.up {
            return Err(RoundFault::Down);
        }
        let epoch = self.published() + 1;
        let have = self.inbox.have(epoch);
        if have < self.regions {
            return Err(RoundFault::Waiting { epoch, have });
        }
        Ok(RoundInput {
            epoch,
            batches: BatchList::new(self.batches_of(epoch)?),
            before: self.snapshot(self.published())?,
        })
    }

    /// Copies of the batches of an epoch.
    fn batches_of(&self, epoch: Epoch) -> Result<Vec<Batch>, NoMemory>
        ensures { IfOk result (λ batches. batches.items ≡ held_of self.now.standing.held epoch) }
    {
        let lent = self.inbox.batches(epoch)?;
        copy_lent(self.alloc, lent.as_slice())
    }

    /// What became of the candidate of a ticket, where its epoch is published. Takes no memory.
    pub fn outcome(&self, ticket: &Ticket) -> Told<'_>
        requires { IsTicketOf self.now.standing ticket.now }
        ensures { Tells self.entry.now ticket.now (polled_of result) }
    {
        if ticket.life != self.life {
            return Told::Gone;
        }
        let published = self.published();
        if published < ticket.id.epoch {
            return Told::NotYet(published);
        }
        let own = &self.outcomes[ticket.id.epoch as usize - 1];
        Told::Outcome(&own.items()[ticket.id.csn as usize])
    }
}

/// Copies of the lent batches.
fn copy_lent(alloc: Global, lent: &[&Batch]) -> Result<Vec<Batch>, NoMemory>
    ensures { IfOk result (λ batches. batches.items ≡ map (λ batch. batch.now) lent.now) }
{
    let mut batches = Vec::with_capacity(alloc, lent.len())?;
    for batch in lent {
        batches.push(batch.copy(alloc)?)?;
    }
    Ok(batches)
}
