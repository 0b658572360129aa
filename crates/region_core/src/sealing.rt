//! The batch that a region seals.
ghost use Rattle.std.specs.Prelude.{◌≡◌, ◌^◌, ◌-◌, ◌<◌, true, None, length, IfOk, IfSome, OnOk, OnErr};
ghost use Rattle.geo_io.specs.Causes.{HasCauseOf};
ghost use Rattle.region_core.specs.Region.{with_standing};
ghost use Rattle.region_core.specs.Entries.{Seal, after, next_batch};
ghost use Rattle.region_core.specs.Refusals.{seal_refusal};
ghost use Rattle.region_core.specs.inner.Sealing.{IsLogged, KeepsEntry};
ghost use Rattle.region_core.specs.Calls.{AreItsKeepers, KeepsSeal, Seals, Tests};

use crate::fault::SealFault;
use crate::region::{EMPTY_BATCH, Region};
use crate::room::make_room;
use crate::sealed::Sealed;
use geo_base::limits::MAX_AHEAD;
use geo_base::{Epoch, NoMemory, RegionNo, copy_items};
use geo_io::Keepers;
use own_log::{LogAppendFault, append};
use set_codec::ByteList;
use std::alloc::Global;
use write_set::{Batch, Candidate, CandidateList};

impl Region {
    /// Whether [`Region::seal`] would be refused: by the region being down, by its last epoch, or by how far it is
    /// ahead. Never for another cause. Takes no memory.
    pub fn can_seal(&self) -> Result<(), SealFault>
        ensures { Tests (seal_refusal self.now.standing) result }
    {
        if !self.up {
            return Err(SealFault::Down);
        }
        if self.open_epoch() >= self.last {
            return Err(SealFault::LastEpoch);
        }
        if self.log.len() as u64 >= u64::from(self.published()) + u64::from(MAX_AHEAD) {
            return Err(SealFault::Ahead);
        }
        Ok(())
    }

    /// Seals the open candidates as the region's batch of the open epoch: it stands at the end of the log before this
    /// call answers, and its bytes may then go to the other regions.
    ///
    /// With [`SealFault::LogFault`], which comes only where the keepers' count of faults rose, the log may have got the
    /// batch, and the region is down, as after a crash. After another fault all is as it was. Costs a copy of the batch,
    /// a step for each of its bytes, and one append of the keepers.
    pub fn seal<L: Keepers>(&mut self, logs: &mut L) -> Result<Sealed, SealFault>
        requires width { self.old.standing.number < L.width logs.old }
        requires life { self.old.standing.up ≡ true → self.old.standing.life < 2 ^ 64 - 1 }
        ensures seals { Seals self.old result self.new }
        ensures log { KeepsSeal self.old.standing result (L.lists logs.old) (L.lists logs.new) }
        ensures keepers { OnOk result (AreItsKeepers self.old.standing (L.lists logs.old) → AreItsKeepers self.new.standing (L.lists logs.new)) }
        ensures width { L.width logs.new ≡ L.width logs.old }
        ensures cause { HasCauseOf SealFault.LogFault (L.faults logs.old) (L.faults logs.new) result }
    {
        self.can_seal()?;
        let epoch = self.open_epoch();
        let count = self.open_count();
        match self.log_next(logs) {
            Ok(bytes) => Ok(Sealed {
                epoch,
                count,
                bytes: ByteList::new(bytes),
            }),
            Err(LogAppendFault::LogFault) => {
                self.crash();
                Err(SealFault::LogFault)
            }
            Err(LogAppendFault::NoMemory) => Err(SealFault::NoMemory),
        }
    }

    /// Logs the batch of the open candidates, whose bytes are answered. After a fault the region is as it was.
    fn log_next<L: Keepers>(&mut self, logs: &mut L) -> Result<Vec<u8>, LogAppendFault>
        requires width { self.old.standing.number < L.width logs.old }
        requires sealable { seal_refusal self.old.standing ≡ None }
        ensures ok { IfOk result (λ bytes. IsLogged self.old.standing bytes.items × (self.new ≡ with_standing (after (Seal (next_batch self.old.standing)) self.old.standing) self.old)) }
        ensures err { OnErr result (self.new ≡ self.old) }
        ensures log { KeepsEntry self.old.standing result (L.lists logs.old) (L.lists logs.new) }
        ensures told { OnOk result (IfSome (L.lists logs.old) (λ all. length all ≡ L.width logs.old)) }
        ensures width { L.width logs.new ≡ L.width logs.old }
        ensures cause { HasCauseOf LogAppendFault.LogFault (L.faults logs.old) (L.faults logs.new) result }
    {
        let epoch = self.open_epoch();
        let no = self.no;
        make_room(&mut self.log)?;
        let copy = copy_of_next(self.alloc, no, epoch, self.open_candidates.as_slice())?;
        self.inbox.hold(copy)?;
        let batch = self.inbox.get(epoch, no).unwrap();
        let appended = append(self.alloc, logs, &self.schema, batch);
        match appended {
            Ok(bytes) => {
                let items = std::mem::replace(&mut self.open_candidates, Vec::new(self.alloc));
                self.size = EMPTY_BATCH;
                self.log.push(next_of(no, epoch, items)).unwrap();
                Ok(bytes)
            }
            Err(fault) => {
                self.inbox.drop_batch(epoch, no);
                Err(fault)
            }
        }
    }
}

/// A copy of the batch of these candidates.
fn copy_of_next(
    alloc: Global,
    no: RegionNo,
    epoch: Epoch,
    open_candidates: &[Candidate],
) -> Result<Batch, NoMemory>
    ensures { IfOk result (λ batch. batch ≡ record { region = no; epoch = epoch; items = open_candidates.now }) }
{
    Ok(next_of(no, epoch, copy_items(alloc, open_candidates)?))
}

/// The batch of these candidates.
fn next_of(no: RegionNo, epoch: Epoch, open_candidates: Vec<Candidate>) -> Batch
    ensures { result ≡ record { region = no; epoch = epoch; items = open_candidates.items } }
{
    Batch {
        region: no,
        epoch,
        items: CandidateList::new(open_candidates),
    }
}
