//! Lending an epoch's batches, taking them out of a map, and letting them go.
ghost use Rattle.std.specs.Prelude.{◌≡◌, ◌<◌, ◌≤◌, ◌++◌, [], map, vec_len, IfOk};
ghost use Rattle.std.specs.BTreeMap.{is_at};
ghost use Rattle.std.specs.List.Sorted.{IsStrictlySortedBy};
ghost use Rattle.std.specs.Map.{keys_of, values_of, lookup, remove_entry};
ghost use Rattle.std.specs.Vec.{vec_capacity};
ghost use Rattle.epoch_inbox.specs.Inbox.{place_cmp, held_of, others, without_batch};
ghost use Rattle.epoch_inbox.specs.inner.Entries.{IsKept, listed};

use geo_base::{Epoch, NoMemory, RegionNo};
use std::alloc::Global;
use std::collections::BTreeMap;
use write_set::Batch;

/// Batches by their epochs and regions.
pub(crate) type BatchMap = BTreeMap<(Epoch, RegionNo), Batch>;

/// The batches of an epoch, lent, in the order of their regions.
pub(crate) fn lend_epoch(
    alloc: Global,
    batches: &BatchMap,
    regions: u8,
    epoch: Epoch,
) -> Result<Vec<&Batch>, NoMemory>
    requires kept { IsKept regions batches.now.entries }
    ensures { IfOk result (λ lent. map (λ batch. batch.now) lent.items ≡ held_of (values_of batches.now.entries) epoch) }
{
    let mut lent = Vec::new(alloc);
    for region in 0..regions {
        match batches.get(&(epoch, region)) {
            Some(batch) => lent.push(batch)?,
            None => {}
        }
    }
    Ok(lent)
}

/// Moves a region's batch of an epoch, if there is one, to the end of a list that has room for it.
fn take_batch(batches: &mut BatchMap, epoch: Epoch, region: RegionNo, taken: &mut Vec<Batch>)
    requires { vec_len taken.old < vec_capacity taken.old }
    ensures taken { taken.new.items ≡ taken.old.items ++ listed (lookup (is_at (place_cmp (epoch, region))) batches.old.entries) }
    ensures left { batches.new.entries ≡ remove_entry (is_at (place_cmp (epoch, region))) batches.old.entries }
    ensures sorted { IsStrictlySortedBy place_cmp (keys_of batches.new.entries) }
    ensures capacity { vec_capacity taken.old ≤ vec_capacity taken.new }
{
    match batches.remove(&(epoch, region)) {
        Some(batch) => taken.push(batch).unwrap(),
        None => {}
    }
}

/// Moves the batches of an epoch to an empty list that has room for one of each region.
pub(crate) fn take_epoch(batches: &mut BatchMap, regions: u8, epoch: Epoch, taken: &mut Vec<Batch>)
    requires kept { IsKept regions batches.old.entries }
    requires empty { taken.old.items ≡ [] }
    requires room { regions ≤ vec_capacity taken.old }
    ensures taken { taken.new.items ≡ held_of (values_of batches.old.entries) epoch }
    ensures left { values_of batches.new.entries ≡ others (values_of batches.old.entries) epoch }
    ensures kept { IsKept regions batches.new.entries }
{
    for region in 0..regions {
        take_batch(batches, epoch, region, taken);
    }
}

/// Lets a region's batch of an epoch go, if there is one.
fn drop_batch(batches: &mut BatchMap, epoch: Epoch, region: RegionNo)
    ensures left { batches.new.entries ≡ remove_entry (is_at (place_cmp (epoch, region))) batches.old.entries }
    ensures sorted { IsStrictlySortedBy place_cmp (keys_of batches.new.entries) }
{
    drop(batches.remove(&(epoch, region)));
}

/// The same of a map that is kept, which stays so.
pub(crate) fn let_go(batches: &mut BatchMap, regions: u8, epoch: Epoch, region: RegionNo)
    requires kept { IsKept regions batches.old.entries }
    ensures left { values_of batches.new.entries ≡ without_batch (values_of batches.old.entries) epoch region }
    ensures kept { IsKept regions batches.new.entries }
{
    drop_batch(batches, epoch, region);
}

/// Lets the batches of an epoch go.
pub(crate) fn drop_batches(batches: &mut BatchMap, regions: u8, epoch: Epoch)
    requires kept { IsKept regions batches.old.entries }
    ensures left { values_of batches.new.entries ≡ others (values_of batches.old.entries) epoch }
    ensures kept { IsKept regions batches.new.entries }
{
    for region in 0..regions {
        drop_batch(batches, epoch, region);
    }
}
