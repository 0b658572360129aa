//! Epochs: a region seals its batch, and merges and publishes the next.
ghost use Rattle.std.specs.Prelude.{◌≡◌, ◌<◌, ◌++◌, OnOk, string_bytes, count_by, not};
ghost use Rattle.write_set.specs.Merge.{is_committed};
ghost use Rattle.geo_world.specs.World.{World as WorldState};
ghost use Rattle.geo_world.specs.Step.{seal, publish};

use super::World;
use crate::printing::{
    print_batch_sealed, print_epoch_published, print_region_waits, print_seal_ahead,
    print_seal_last,
};
use crate::sending::send_all;
use geo_base::{NoMemory, Outcome, RegionNo};

impl World {
    ghost use Rattle.geo_world.specs.inner.Standing.{StandsFor, IsSomeWorld, Makes, region_count};

    /// Seals the open epoch of a region and sends its batch to every other region.
    pub(super) fn seal(&mut self, out: &mut String, number: RegionNo) -> Result<(), NoMemory>
        requires region { number < region_count self.old }
        requires stands { IsSomeWorld self.old }
        ensures count { region_count self.new ≡ region_count self.old }
        ensures step { (w : WorldState) → StandsFor w self.old →
            OnOk result (Makes (seal w number) (string_bytes out.old) (string_bytes out.new) self.new) }
    {
        let region = &self.regions[number as usize];
        let epoch = region.open;
        if epoch >= self.last {
            return print_seal_last(out, number);
        }
        if region.is_ahead() {
            return print_seal_ahead(out, number);
        }
        let count = region.waiting.len() as u32;
        let regions = self.regions.len() as u8;
        self.regions[number as usize].seal(self.alloc, number)?;
        print_batch_sealed(out, number, epoch, count)?;
        let log = &self.regions[number as usize].log;
        let last = log.len() - 1;
        let batch = &log[last];
        send_all(self.alloc, &mut self.packets, out, regions, batch)
    }

    /// Publishes the next epoch of a region, if it has the batch of every region.
    pub(super) fn publish(&mut self, out: &mut String, number: RegionNo) -> Result<(), NoMemory>
        requires region { number < region_count self.old }
        requires stands { IsSomeWorld self.old }
        ensures count { region_count self.new ≡ region_count self.old }
        ensures step { (w : WorldState) → StandsFor w self.old →
            OnOk result (Makes (publish w number) (string_bytes out.old) (string_bytes out.new) self.new) }
    {
        let regions = self.regions.len() as u8;
        let region = &self.regions[number as usize];
        let epoch = region.next_epoch();
        let have = region.count_next(regions, number, epoch);
        if have < regions {
            return print_region_waits(out, number, epoch, have, regions);
        }
        let outcomes = self.regions[number as usize].publish(self.alloc, regions, number, epoch)?;
        let commits = count_committed(outcomes.as_slice()) as u32;
        let aborts = count_aborted(outcomes.as_slice()) as u32;
        print_epoch_published(out, number, epoch, commits, aborts)
    }
}

/// How many of the candidates committed.
fn count_committed(outcomes: &[Outcome]) -> usize
    ensures { result ≡ count_by is_committed outcomes.now }
{
    outcomes
        .iter()
        .filter(|outcome| matches!(outcome, Outcome::Committed))
        .count()
}

/// How many of them did not.
fn count_aborted(outcomes: &[Outcome]) -> usize
    ensures { result ≡ count_by (λ o. not (is_committed o)) outcomes.now }
{
    outcomes
        .iter()
        .filter(|outcome| !matches!(outcome, Outcome::Committed))
        .count()
}
