//! A crash, and how a region starts again on its log.
ghost use Rattle.std.specs.Prelude.{◌≡◌, ◌⊎◌, ◌^◌, ◌-◌, ◌<◌, ℕ, None, Some, true, false, [], length, IfOk, IfErr, OnOk, OnErr, IfSome, IsErrOf};
ghost use Rattle.geo_base.specs.Results.{Refuses};
ghost use Rattle.geo_io.specs.Causes.{HasCauseOf};
ghost use Rattle.geo_schema.specs.Schemas.{Tables};
ghost use Rattle.geo_io.specs.Told.{list_of};
ghost use Rattle.own_log.specs.declared.fault.EntryFault.{EntryFault};
ghost use Rattle.own_log.specs.Logs.{IsLogFault, IsBadLog, AreOfLog, SpellsLog};
ghost use Rattle.set_codec.specs.declared.fault.CodecFault.TheVariants as codec;
ghost use Rattle.region_core.specs.Region.{unpublished};
ghost use Rattle.region_core.specs.Entries.{Crash, after};
ghost use Rattle.region_core.specs.Calls.{Starts};

use crate::region::{EMPTY_BATCH, Region};
use epoch_inbox::Inbox;
use geo_base::{Duplicate, NoMemory, copy_items};
use geo_io::Keepers;
use index_store::IndexStore;
use own_log::{LoadFault, load_log};
use std::alloc::Global;
use version_store::Versions;
use write_set::Batch;

/// Puts a copy of each batch of a log into an empty inbox.
pub(crate) fn hold_all(alloc: Global, log: &[Batch], inbox: &mut Inbox) -> Result<(), NoMemory>
    requires empty { inbox.old.held ≡ [] }
    requires of_log { (tables : Tables) × ((region : ℕ) × (region < inbox.old.regions) × AreOfLog tables inbox.old.regions region log.now) }
    ensures { OnOk result (inbox.new ≡ record { regions = inbox.old.regions; held = log.now }) }
{
    for batch in log {
        inbox.hold(batch.copy(alloc)?)?;
    }
    Ok(())
}

impl Region {
    /// The region goes down, into its next life, and loses all but its log: open candidates, batches of other regions,
    /// versions and outcomes. One that is down stays as it is. Takes no memory.
    pub fn crash(&mut self)
        requires { self.old.standing.up ≡ true → self.old.standing.life < 2 ^ 64 - 1 }
        ensures crashes { self.new ≡ unpublished (after (Crash None) self.old.standing) }
        ensures down { self.new.standing.up ≡ false }
    {
        if !self.up {
            return;
        }
        self.up = false;
        self.life += 1;
        self.open_candidates = Vec::new(self.alloc);
        self.size = EMPTY_BATCH;
        self.inbox = Inbox::new(self.alloc, self.regions);
        self.versions = Versions::empty(self.alloc);
        self.index = IndexStore::empty(self.alloc);
        self.outcomes = Vec::new(self.alloc);
    }

    /// A region that is down is up again: its log is what the keepers have of it, whose batches it holds, and it has
    /// published nothing. Answers how many batches the log has. After a fault it stays down, as it was.
    ///
    /// The faults are those of [`Region::open`], and so are the costs.
    pub fn restart<L: Keepers>(&mut self, logs: &mut L) -> Result<u64, LoadFault>
        requires down { self.old.standing.up ≡ false }
        requires width { self.old.standing.number < L.width logs.old }
        ensures starts { OnOk result (Starts (L.lists logs.old) self.old self.new) }
        ensures count { IfOk result (λ count. count ≡ length self.new.standing.log) }
        ensures unchanged { OnErr result (self.new ≡ self.old) }
        ensures bad { (entry : ℕ) (fault : EntryFault) → IsErrOf result (LoadFault.BadLog entry fault) →
            IfSome (L.lists logs.old) (λ all. IsLogFault self.old.standing.tables self.old.standing.regions self.old.standing.number (list_of all self.old.standing.number) entry fault) }
        ensures no_want { (entry : ℕ) → IsErrOf result (LoadFault.BadLog entry (EntryFault.Codec codec.NoMemory)) → ⊥ }
        ensures refused { IfSome (L.lists logs.old) (λ all. IsErrOf result LoadFault.LogFault
            ⊎ Refuses LoadFault.NoMemory result (IsBadLog self.old.standing.tables self.old.standing.regions self.old.standing.number (list_of all self.old.standing.number))) }
        ensures lists { L.lists logs.new ≡ L.lists logs.old }
        ensures width { L.width logs.new ≡ L.width logs.old }
        ensures cause { HasCauseOf LoadFault.LogFault (L.faults logs.old) (L.faults logs.new) result }
    {
        let log = self.load(logs)?;
        let count = log.len() as u64;
        self.start(log)?;
        Ok(count)
    }

    /// [`Region::restart`], which answers a copy of the batches that it has read. Their memory is taken before the
    /// region is up.
    pub fn restart_log<L: Keepers>(&mut self, logs: &mut L) -> Result<Vec<Batch>, LoadFault>
        requires down { self.old.standing.up ≡ false }
        requires width { self.old.standing.number < L.width logs.old }
        ensures starts { OnOk result (Starts (L.lists logs.old) self.old self.new) }
        ensures batches { IfOk result (λ batches. batches.items ≡ self.new.standing.log) }
        ensures unchanged { OnErr result (self.new ≡ self.old) }
        ensures bad { (entry : ℕ) (fault : EntryFault) → IsErrOf result (LoadFault.BadLog entry fault) →
            IfSome (L.lists logs.old) (λ all. IsLogFault self.old.standing.tables self.old.standing.regions self.old.standing.number (list_of all self.old.standing.number) entry fault) }
        ensures no_want { (entry : ℕ) → IsErrOf result (LoadFault.BadLog entry (EntryFault.Codec codec.NoMemory)) → ⊥ }
        ensures refused { IfSome (L.lists logs.old) (λ all. IsErrOf result LoadFault.LogFault
            ⊎ Refuses LoadFault.NoMemory result (IsBadLog self.old.standing.tables self.old.standing.regions self.old.standing.number (list_of all self.old.standing.number))) }
        ensures lists { L.lists logs.new ≡ L.lists logs.old }
        ensures width { L.width logs.new ≡ L.width logs.old }
        ensures cause { HasCauseOf LoadFault.LogFault (L.faults logs.old) (L.faults logs.new) result }
    {
        let log = self.load(logs)?;
        let batches = match copy_items(self.alloc, log.as_slice()) {
            Ok(batches) => batches,
            Err(_) => return Err(LoadFault::NoMemory),
        };
        self.start(log)?;
        Ok(batches)
    }

    /// The batches of the log that the keepers have of the region.
    fn load<L: Keepers>(&self, logs: &mut L) -> Result<Vec<Batch>, LoadFault>
        requires width { self.now.standing.number < L.width logs.old }
        ensures of_log { IfOk result (λ batches. AreOfLog self.now.standing.tables self.now.standing.regions self.now.standing.number batches.items) }
        ensures spelled { IfOk result (λ batches. IfSome (L.lists logs.old)
            (λ all. SpellsLog self.now.standing.tables self.now.standing.regions self.now.standing.number (list_of all self.now.standing.number) batches.items)) }
        ensures bad { (entry : ℕ) (fault : EntryFault) → IsErrOf result (LoadFault.BadLog entry fault) →
            IfSome (L.lists logs.old) (λ all. IsLogFault self.now.standing.tables self.now.standing.regions self.now.standing.number (list_of all self.now.standing.number) entry fault) }
        ensures no_want { (entry : ℕ) → IsErrOf result (LoadFault.BadLog entry (EntryFault.Codec codec.NoMemory)) → ⊥ }
        ensures refused { IfSome (L.lists logs.old) (λ all. IsErrOf result LoadFault.LogFault
            ⊎ Refuses LoadFault.NoMemory result (IsBadLog self.now.standing.tables self.now.standing.regions self.now.standing.number (list_of all self.now.standing.number))) }
        ensures lists { L.lists logs.new ≡ L.lists logs.old }
        ensures width { L.width logs.new ≡ L.width logs.old }
        ensures cause { HasCauseOf LoadFault.LogFault (L.faults logs.old) (L.faults logs.new) result }
    {
        load_log(self.alloc, logs, &self.schema, self.regions, self.no)
    }

    /// The region is up on this log.
    fn start(&mut self, log: Vec<Batch>) -> Result<(), LoadFault>
        requires down { self.old.standing.up ≡ false }
        requires of_log { AreOfLog self.old.standing.tables self.old.standing.regions self.old.standing.number log.items }
        ensures ok { OnOk result (self.new ≡ unpublished (after (Crash (Some log.items)) self.old.standing)) }
        ensures err { OnErr result (self.new ≡ self.old) }
        ensures fault { IfErr result (λ e. e ≡ LoadFault.NoMemory) }
    {
        let mut inbox = Inbox::new(self.alloc, self.regions);
        if hold_all(self.alloc, log.as_slice(), &mut inbox).is_err() {
            return Err(LoadFault::NoMemory);
        }
        self.inbox = inbox;
        self.log = log;
        self.up = true;
        Ok(())
    }
}
