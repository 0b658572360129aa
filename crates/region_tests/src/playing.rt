//! A region with its keepers and with the tickets that it gave, as lines play it.
ghost use Rattle.std.specs.Prelude.{◌≡◌, ◌<◌, ◌≤◌, IfOk, length};
ghost use Rattle.geo_base.specs.declared.limits.TheConstants.{MAX_REGIONS};
ghost use Rattle.merge_round.specs.Rounds.{Round};
ghost use Rattle.region_core.specs.Calls.{AreOutcomesFor};
ghost use Rattle.region_core.specs.Rounds.{IsRoundOver, decided_by};
ghost use Rattle.write_set.specs.Journal.{AreBatches};

use crate::making::{batch_for, candidate_for};
use epoch_inbox::Arrival;
use geo_base::limits::{LAST_EPOCH, MAX_REGIONS};
use geo_base::{Epoch, RegionNo};
use geo_io::MemKeepers;
use geo_schema::Schema;
use merge_round::{Judged, MergeRound, RoundInput};
use own_log::LoadFault;
use region_core::{
    BeginFault, FetchFault, Publish, Region, SealFault, Sealed, SubmitFault, Ticket, Told,
    rounds_give_outcomes,
};
use snap_view::Snapshot;
use std::alloc::Global;
use std::marker::Model;
use std::test::Fail;
use write_set::Batch;

/// A region, its keepers, and the tickets that it gave.
#[derive(Drop)]
pub struct Played {
    pub alloc: Global,
    pub region: Region,
    pub logs: MemKeepers,
    pub tickets: Vec<Ticket>,
}

impl Model for Played {
    ghost use Rattle.region_core.specs.Region.{RegionValue};
    ghost use Rattle.region_tests.specs.Played.{IsPlayed};

    ghost Value = { RegionValue };

    ghost view = { λ p. p.region };

    ghost invariant = { λ p. IsPlayed p.region p.logs.lists p.tickets.items };
}

/// The outcomes of a round that one thread works with so many seats.
fn judged_of(alloc: Global, input: RoundInput<Snapshot>, seats: u8) -> Result<Judged, Fail>
    requires few { length input.batches ≤ MAX_REGIONS }
    requires lawful { AreBatches 0 input.epoch input.batches }
    requires seats { (0 < seats) × (seats ≤ 8) }
    ensures { IfOk result (λ judged. (round : Round) × IsRoundOver input.epoch input.batches input.before round × (judged ≡ decided_by round)) }
{
    let (round, workers) = MergeRound::new(alloc, input, seats)?;
    Ok(round.finish(alloc, workers)?)
}

impl Played {
    /// The region of that number, of so many, opened on these keepers.
    pub fn open(
        alloc: Global,
        no: RegionNo,
        regions: u8,
        schema: &Schema,
        last: Epoch,
        logs: MemKeepers,
    ) -> Result<Played, Fail> {
        if regions > MAX_REGIONS || no >= regions || last > LAST_EPOCH {
            return Err("no such region".into());
        }
        let mut logs = logs;
        let region = Region::open(alloc, no, regions, schema, last, &mut logs)?;
        Ok(Played {
            alloc,
            region,
            logs,
            tickets: Vec::new(alloc),
        })
    }

    /// A candidate comes. Of one that is handed back the number of its rows is told.
    pub fn submit(&mut self, words: &str) -> Result<Result<Ticket, (SubmitFault, usize)>, Fail> {
        let candidate = candidate_for(self.alloc, &self.region, words)?;
        match self.region.submit(candidate) {
            Ok(ticket) => {
                self.tickets.push(ticket)?;
                Ok(Ok(ticket))
            }
            Err((fault, back)) => Ok(Err((fault, back.set.changes().len()))),
        }
    }

    /// The open candidates are sealed.
    pub fn seal(&mut self) -> Result<Result<Sealed, SealFault>, Fail> {
        self.region.lawful();
        if self.region.life() == u64::MAX {
            return Err("the last life".into());
        }
        Ok(self.region.seal(&mut self.logs))
    }

    /// A batch of another region comes.
    pub fn arrive(&mut self, words: &str) -> Result<Result<Arrival, BeginFault>, Fail> {
        let batch = batch_for(self.alloc, &self.region, words)?;
        if batch.region == self.region.no() {
            return Err("a batch of the region's own".into());
        }
        Ok(self.region.arrive(batch))
    }

    /// The outcomes of the next epoch, by a round that one thread works with so many seats.
    fn judged(&self, seats: u8) -> Result<Judged, Fail>
        requires { (0 < seats) × (seats ≤ 8) }
        ensures { IfOk result (AreOutcomesFor self.now) }
    {
        rounds_give_outcomes();
        self.region.lawful();
        let input = self.region.round()?;
        judged_of(self.alloc, input, seats)
    }

    /// Publishes the next epoch by such a round.
    pub fn publish(&mut self, seats: u8) -> Result<Publish, Fail>
        requires { (0 < seats) × (seats ≤ 8) }
    {
        let judged = self.judged(seats)?;
        Ok(self.region.publish(judged)?)
    }

    /// Publishes the next epoch by one of two such rounds, and then comes with the outcomes of the other.
    pub fn publish_twice(&mut self, seats: u8) -> Result<(Publish, Publish), Fail>
        requires { (0 < seats) × (seats ≤ 8) }
    {
        let again = self.judged(seats)?;
        let published = self.publish(seats)?;
        if again.epoch() > self.region.published() {
            return Err("an epoch that isn't published".into());
        }
        Ok((published, self.region.publish(again)?))
    }

    /// The region crashes between a round and the publication by it.
    pub fn publish_late(&mut self, seats: u8) -> Result<Result<Publish, BeginFault>, Fail>
        requires { (0 < seats) × (seats ≤ 8) }
    {
        let judged = self.judged(seats)?;
        self.crash()?;
        if self.region.up() {
            return Err("a region that is up after a crash".into());
        }
        Ok(self.region.publish(judged))
    }

    /// The region crashes.
    pub fn crash(&mut self) -> Result<(), Fail> {
        if self.region.life() == u64::MAX {
            return Err("the last life".into());
        }
        self.region.crash();
        Ok(())
    }

    /// The region starts again.
    pub fn restart(&mut self) -> Result<Result<u64, LoadFault>, Fail> {
        self.region.lawful();
        if self.region.up() {
            return Err("a region that is up".into());
        }
        Ok(self.region.restart(&mut self.logs))
    }

    /// The same, with the batches that it has read.
    pub fn restart_log(&mut self) -> Result<Result<Vec<Batch>, LoadFault>, Fail> {
        self.region.lawful();
        if self.region.up() {
            return Err("a region that is up".into());
        }
        Ok(self.region.restart_log(&mut self.logs))
    }

    /// What another region is answered that asks for the batch of an epoch.
    pub fn fetch(&mut self, epoch: Epoch) -> Result<Option<Vec<u8>>, FetchFault> {
        self.region.lawful();
        self.region.fetch_reply(epoch, &mut self.logs)
    }

    /// What is told by the ticket in this place.
    pub fn told(&self, place: usize) -> Result<Told<'_>, Fail> {
        let ticket = self.tickets.get(place).ok_or("no such ticket")?;
        Ok(self.region.outcome(ticket))
    }
}
