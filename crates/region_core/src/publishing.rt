//! The next epoch, published.
ghost use Rattle.std.specs.Prelude.{◌≡◌, ◌+◌, ◌<◌, ◌^◌, ◌++◌, Ok, true, not, count_by, length, map, IfOk, OnOk, OnErr};
ghost use Rattle.write_set.specs.Journal.{candidates_of};
ghost use Rattle.write_set.specs.Merge.{is_committed};
ghost use Rattle.region_core.specs.Region.{next_batches, next_epoch};
ghost use Rattle.region_core.specs.Publishing.{next_outcomes, next_own_outcomes};
ghost use Rattle.region_core.specs.Calls.{AreOutcomesFor, PublishesBy};
ghost use Rattle.region_core.specs.inner.Publishing.{IsAdvance, own_among};

use crate::fault::BeginFault;
use crate::publish::Publish;
use crate::region::{OutcomeList, Region};
use geo_base::limits::MAX_AGE;
use geo_base::{Duplicate, Epoch, NoMemory, Outcome, RegionNo};
use index_store::IndexStore;
use merge_round::Judged;
use std::alloc::Global;
use version_store::Versions;
use write_set::Batch;

/// What a publication makes of a region, before the region changes.
struct Advance {
    versions: Versions,
    index: IndexStore,
    own: OutcomeList,
}

impl Region {
    /// Publishes the next epoch by the outcomes of its candidates, of whose batches the region holds all: the changes of
    /// the committed ones are applied, the horizon follows, and the batches of the epoch are let go. An epoch that is
    /// published already changes nothing.
    ///
    /// Takes its memory first. Costs what the versions and the index take for the epoch's rows, and a copy of the
    /// outcomes of the region's own candidates, which are kept until a crash.
    pub fn publish(&mut self, judged: Judged) -> Result<Publish, BeginFault>
        requires { AreOutcomesFor self.old judged }
        ensures { PublishesBy judged self.old result self.new }
    {
        let published = self.publish_by(judged.epoch(), judged.outcomes());
        drop(judged);
        published
    }

    fn publish_by(&mut self, epoch: Epoch, outcomes: &[Outcome]) -> Result<Publish, BeginFault>
        requires { AreOutcomesFor self.old (record { epoch = epoch; outcomes = outcomes.now }) }
        ensures { PublishesBy (record { epoch = epoch; outcomes = outcomes.now }) self.old result self.new }
    {
        if !self.up {
            return Err(BeginFault::Down);
        }
        let published = self.published();
        if epoch <= published {
            return Ok(Publish::Already(published));
        }
        Ok(self.publish_next(epoch, outcomes)?)
    }

    /// Publishes the next epoch, of which the region holds all batches.
    fn publish_next(&mut self, epoch: Epoch, outcomes: &[Outcome]) -> Result<Publish, NoMemory>
        requires up { self.old.standing.up ≡ true }
        requires epoch { epoch ≡ next_epoch self.old.standing }
        requires whole { length (next_batches self.old.standing) ≡ self.old.standing.regions }
        requires outcomes { outcomes.now ≡ next_outcomes self.old }
        ensures published { IfOk result (λ told. PublishesBy (record { epoch = epoch; outcomes = outcomes.now }) self.old (Ok told) self.new) }
        ensures unchanged { OnErr result (self.new ≡ self.old) }
    {
        self.lawful();
        let commits = count_committed(outcomes);
        let aborts = outcomes.len() as u32 - commits;
        let Advance {
            versions,
            index,
            own,
        } = self.advance(epoch, outcomes)?;
        self.outcomes.push(own)?;
        self.versions = versions;
        self.index = index;
        self.inbox.drop_epoch(epoch);
        Ok(Publish::Published {
            epoch,
            commits,
            aborts,
        })
    }

    /// What the next epoch makes of versions and index, and the outcomes of the region's own candidates.
    fn advance(&self, epoch: Epoch, outcomes: &[Outcome]) -> Result<Advance, NoMemory>
        requires epoch { epoch ≡ next_epoch self.now.standing }
        requires outcomes { outcomes.now ≡ next_outcomes self.now }
        ensures made { IfOk result (λ made. IsAdvance self.now made.versions made.index) }
        ensures own { IfOk result (λ made. made.own ≡ next_own_outcomes self.now) }
    {
        let batches = self.inbox.batches(epoch)?;
        let own = own_outcomes(self.alloc, self.no, batches.as_slice(), outcomes)?;
        let mut versions = self.versions.fork()?;
        versions.apply_epoch(epoch, batches.as_slice(), outcomes)?;
        versions.keeps_order();
        let mut index = self.index.fork()?;
        index.apply(&self.schema, &versions, batches.as_slice(), outcomes)?;
        versions.trim(epoch.saturating_sub(MAX_AGE))?;
        versions.keeps_order();
        index.trim(&versions)?;
        Ok(Advance {
            versions,
            index,
            own,
        })
    }
}

/// How many of the outcomes are that a candidate commits.
fn count_committed(outcomes: &[Outcome]) -> u32
    requires { length outcomes.now < 2 ^ 32 }
    ensures count { result ≡ count_by is_committed outcomes.now }
    ensures others { length outcomes.now ≡ result + count_by (λ o. not (is_committed o)) outcomes.now }
{
    let mut count = 0;
    for outcome in outcomes {
        if let Outcome::Committed = outcome {
            count += 1;
        }
    }
    count
}

/// The outcomes of the region's own candidates, where the others are those of the batches' candidates in their order.
fn own_outcomes(
    alloc: Global,
    no: RegionNo,
    batches: &[&Batch],
    outcomes: &[Outcome],
) -> Result<OutcomeList, NoMemory>
    requires { length outcomes.now ≡ length (candidates_of (map (λ b. b.now) batches.now)) }
    ensures { IfOk result (λ own. own ≡ own_among no (candidates_of (map (λ b. b.now) batches.now)) outcomes.now) }
{
    let mut own = Vec::new(alloc);
    let mut place = 0;
    for batch in batches {
        let count = batch.items.items().len();
        if batch.region == no {
            add_copies(alloc, &mut own, &outcomes[place..place + count])?;
        }
        place += count;
    }
    Ok(OutcomeList::new(own))
}

/// Adds a copy of each of the outcomes.
fn add_copies(alloc: Global, own: &mut Vec<Outcome>, outcomes: &[Outcome]) -> Result<(), NoMemory>
    ensures { OnOk result (own.new.items ≡ own.old.items ++ outcomes.now) }
{
    for outcome in outcomes {
        own.push(outcome.copy(alloc)?)?;
    }
    Ok(())
}
