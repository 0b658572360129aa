//! The inbox and its calls.
ghost use Rattle.std.specs.Prelude.{◌≡◌, ◌<◌, ◌↔◌, not, [], length, map, IfOk, OnErr, OnOk, IsErr, IsTrue};
ghost use Rattle.std.specs.Option.{option_copied};
ghost use Rattle.epoch_inbox.specs.Inbox.{IsLawful, IsWhole, held_at, held_of, is_held, others, with_batch, without_batch, arrival_of, after_arrival};

use crate::arrival::Arrival;
use crate::taking::{BatchMap, drop_batches, lend_epoch, let_go, take_epoch};
use geo_base::limits::MAX_AGE;
use geo_base::{Epoch, NoMemory, RegionNo};
use std::alloc::Global;
use std::collections::BTreeMap;
use std::marker::Model;
use write_set::Batch;

/// The batches that have come and aren't published yet, at most one of each region and epoch.
#[derive(Drop)]
pub struct Inbox {
    alloc: Global,
    regions: u8,
    batches: BatchMap,
}

impl Model for Inbox {
    ghost use Rattle.epoch_inbox.specs.Inbox.{Holding};

    ghost Value = { Holding };

    ghost use Rattle.epoch_inbox.specs.inner.Entries.{seen, IsKept};

    ghost view = { λ a. seen a.regions a.batches.entries };

    ghost invariant = { λ a. IsKept a.regions a.batches.entries };
}

impl Inbox {
    /// An inbox for so many regions that holds nothing. Takes no memory.
    pub fn new(alloc: Global, regions: u8) -> Inbox
        ensures { result ≡ record { regions = regions; held = [] } }
    {
        Inbox {
            alloc,
            regions,
            batches: BTreeMap::new(alloc),
        }
    }

    /// Takes a batch in: it is known where its epoch is at or below the published one or a batch of its region
    /// and epoch is held, else too far ahead where its epoch is more than 64 above the published one, and else
    /// new, and held from now on. A known or far batch takes no memory, and is let go.
    ///
    /// The only error is want of memory for a new batch, which leaves the inbox as it was. Costs two searches
    /// by halving.
    pub fn put(&mut self, published: Epoch, batch: Batch) -> Result<Arrival, NoMemory>
        requires { batch.region < self.old.regions }
        ensures arrival { IfOk result (λ arrival. arrival ≡ arrival_of self.old.held published batch) }
        ensures held { IfOk result (λ arrival. self.new ≡ after_arrival self.old batch arrival) }
        ensures refused { IsErr result → arrival_of self.old.held published batch ≡ Arrival.New }
        ensures unchanged { OnErr result (self.new ≡ self.old) }
    {
        let arrival = self.arrival(published, &batch);
        if let Arrival::New = arrival {
            self.hold(batch)?;
        }
        Ok(arrival)
    }

    /// Holds a batch, whatever is published: one that is held of its region and epoch gives way. So a region that
    /// starts again has its own batches.
    ///
    /// The only error is want of memory, which leaves the inbox as it was. Costs a search by halving.
    pub fn hold(&mut self, batch: Batch) -> Result<(), NoMemory>
        requires { batch.region < self.old.regions }
        ensures held { OnOk result (self.new ≡ record { regions = self.old.regions; held = with_batch self.old.held batch }) }
        ensures unchanged { OnErr result (self.new ≡ self.old) }
    {
        self.batches.insert((batch.epoch, batch.region), batch)?;
        Ok(())
    }

    /// What becomes of a batch that comes.
    fn arrival(&self, published: Epoch, batch: &Batch) -> Arrival
        ensures { result ≡ arrival_of self.now.held published batch.now }
    {
        if batch.epoch <= published || !self.missing(batch.epoch, batch.region) {
            return Arrival::Known;
        }
        let limit = u64::from(published) + u64::from(MAX_AGE);
        if u64::from(batch.epoch) > limit {
            return Arrival::Far(limit);
        }
        Arrival::New
    }

    /// That what is held is lawful: its places rise, and its batches are of the regions that there are. Does
    /// nothing when it runs.
    pub fn lawful(&self)
        ensures { IsLawful self.now }
    {
        let _regions = self.regions;
    }

    /// Whether the epoch's batch of every region is held. Costs a search by halving for each region.
    pub fn whole(&self, epoch: Epoch) -> bool
        ensures whole { IsTrue result ↔ IsWhole self.now epoch }
        ensures lawful { IsLawful self.now }
    {
        for region in 0..self.regions {
            if self.missing(epoch, region) {
                return false;
            }
        }
        true
    }

    /// How many batches of the epoch are held. Costs a search by halving for each region.
    pub fn have(&self, epoch: Epoch) -> u8
        ensures { result ≡ length (held_of self.now.held epoch) }
    {
        let mut have = 0;
        for region in 0..self.regions {
            if !self.missing(epoch, region) {
                have += 1;
            }
        }
        have
    }

    /// Whether the region's batch of the epoch isn't held. Costs a search by halving.
    pub fn missing(&self, epoch: Epoch, region: RegionNo) -> bool
        ensures { result ≡ not (is_held self.now.held epoch region) }
    {
        !self.batches.contains_key(&(epoch, region))
    }

    /// The region's batch of the epoch, if it is held. Costs a search by halving.
    pub fn get(&self, epoch: Epoch, region: RegionNo) -> Option<&Batch>
        ensures { option_copied result ≡ held_at self.now.held epoch region }
    {
        self.batches.get(&(epoch, region))
    }

    /// Lends the batches of an epoch, in the order of their regions: what [`Inbox::take`] would take out, which
    /// stays held.
    ///
    /// The only error is want of memory for the list. Costs a search by halving for each region.
    pub fn batches(&self, epoch: Epoch) -> Result<Vec<&Batch>, NoMemory>
        ensures { IfOk result (λ batches. map (λ batch. batch.now) batches.items ≡ held_of self.now.held epoch) }
    {
        lend_epoch(self.alloc, &self.batches, self.regions, epoch)
    }

    /// Takes the batches of an epoch out, in the order of their regions. Of a whole epoch that is one batch of
    /// each region, where region 0's comes first; of another epoch it is those that are held.
    ///
    /// The only error is want of memory for the list, which leaves the inbox as it was. Costs two searches by
    /// halving for each region.
    pub fn take(&mut self, epoch: Epoch) -> Result<Vec<Batch>, NoMemory>
        ensures taken { IfOk result (λ batches. batches.items ≡ held_of self.old.held epoch) }
        ensures left { OnOk result (self.new ≡ record { regions = self.old.regions; held = others self.old.held epoch }) }
        ensures unchanged { OnErr result (self.new ≡ self.old) }
    {
        let regions = self.regions;
        let mut taken = Vec::with_capacity(self.alloc, regions as usize)?;
        take_epoch(&mut self.batches, regions, epoch, &mut taken);
        Ok(taken)
    }

    /// Lets the region's batch of an epoch go, if it is held. Takes no memory. Costs a search by halving.
    pub fn drop_batch(&mut self, epoch: Epoch, region: RegionNo)
        ensures { self.new ≡ record { regions = self.old.regions; held = without_batch self.old.held epoch region } }
    {
        let regions = self.regions;
        let_go(&mut self.batches, regions, epoch, region);
    }

    /// Lets the batches of an epoch go. Takes no memory. Costs a search by halving for each region.
    pub fn drop_epoch(&mut self, epoch: Epoch)
        ensures { self.new ≡ record { regions = self.old.regions; held = others self.old.held epoch } }
    {
        let regions = self.regions;
        drop_batches(&mut self.batches, regions, epoch);
    }
}
