//! The batches of other regions that have come to a region.
ghost use Rattle.std.specs.Prelude.{◌≡◌, ℕ, None, Some, is_some, OnOk, IfOk};
ghost use Rattle.geo_world.specs.inner.Arrivals.{batch_in, with_batch, without_batch};

use geo_base::{Epoch, NoMemory, RegionNo};
use std::alloc::Global;
use std::collections::BTreeMap;
use write_set::Batch;

/// The batches that have come and are not published yet, by their regions and epochs.
#[derive(Drop)]
pub struct Inbox {
    pub batches: BTreeMap<(RegionNo, Epoch), Batch>,
}

/// No batches.
pub fn empty_inbox(alloc: Global) -> Inbox
    ensures { (of epoch : ℕ) → batch_in result of epoch ≡ None }
{
    Inbox {
        batches: BTreeMap::new(alloc),
    }
}

/// Whether the batch is there.
pub fn has_batch(inbox: &Inbox, of: RegionNo, epoch: Epoch) -> bool
    ensures { result ≡ is_some (batch_in inbox.now of epoch) }
{
    inbox.batches.contains_key(&(of, epoch))
}

/// Puts a batch in.
pub fn put_batch(inbox: &mut Inbox, batch: Batch) -> Result<(), NoMemory>
    ensures { OnOk result ((of epoch : ℕ) → batch_in inbox.new of epoch ≡ with_batch batch (batch_in inbox.old) of epoch) }
{
    inbox.batches.insert((batch.region, batch.epoch), batch)?;
    Ok(())
}

/// Takes a batch out.
pub fn take_batch(inbox: &mut Inbox, of: RegionNo, epoch: Epoch) -> Option<Batch>
    ensures taken { result ≡ batch_in inbox.old of epoch }
    ensures left { (q later : ℕ) → batch_in inbox.new q later ≡ without_batch of epoch (batch_in inbox.old) q later }
{
    inbox.batches.remove(&(of, epoch))
}
