//! What another region is sent that asks for a batch.
ghost use Rattle.std.specs.Prelude.{◌≡◌, ◌<◌, true, IfOk, IfErr};
ghost use Rattle.std.specs.Option.{option_map, option_copied};
ghost use Rattle.geo_io.specs.Causes.{HasCauseOf};
ghost use Rattle.set_codec.specs.Fits.{FitsRegions};
ghost use Rattle.region_core.specs.Region.{own_batch};
ghost use Rattle.region_core.specs.Calls.{AreItsKeepers, Replies, RefusesReply};
ghost use Rattle.region_core.specs.inner.Fetching.{Compares};

use crate::fault::FetchFault;
use crate::region::Region;
use geo_base::{Epoch, NoMemory};
use geo_io::Keepers;
use own_log::{LogAppendFault, entry};
use set_codec::{CodecFault, batch_bytes, read_batch};
use write_set::Batch;

impl Region {
    /// The bytes of the region's batch of an epoch, as its log has them; None exactly where it has sealed none.
    ///
    /// [`FetchFault::LogFault`] comes only where the keepers' count of faults rose. [`FetchFault::BadLog`] says that the
    /// bytes that they gave don't spell the batch that the region keeps, and never comes where they tell. Costs one read
    /// of the keepers, a batch that is read of its bytes, and two spellings of a batch.
    pub fn fetch_reply<L: Keepers>(
        &mut self,
        epoch: Epoch,
        logs: &mut L,
    ) -> Result<Option<Vec<u8>>, FetchFault>
        requires width { self.old.standing.number < L.width logs.old }
        requires keepers { self.old.standing.up ≡ true → AreItsKeepers self.old.standing (L.lists logs.old) }
        ensures reply { IfOk result (λ reply. Replies epoch self.old.standing (L.lists logs.old) (option_map (λ bytes. bytes.items) reply)) }
        ensures refused { IfErr result (RefusesReply epoch self.old.standing (L.lists logs.old)) }
        ensures unchanged { self.new ≡ self.old }
        ensures lists { L.lists logs.new ≡ L.lists logs.old }
        ensures width { L.width logs.new ≡ L.width logs.old }
        ensures cause { HasCauseOf FetchFault.LogFault (L.faults logs.old) (L.faults logs.new) result }
    {
        if !self.up {
            return Err(FetchFault::Down);
        }
        if self.logged(epoch).is_none() {
            return Ok(None);
        }
        let bytes = match entry(self.alloc, logs, self.no, epoch) {
            Ok(bytes) => bytes,
            Err(LogAppendFault::LogFault) => return Err(FetchFault::LogFault),
            Err(LogAppendFault::NoMemory) => return Err(FetchFault::NoMemory),
        };
        let kept = self.logged(epoch).unwrap();
        if self.spell(bytes.as_slice(), kept)? {
            Ok(Some(bytes))
        } else {
            Err(FetchFault::BadLog(epoch))
        }
    }

    /// The batch that the region has sealed for an epoch.
    fn logged(&self, epoch: Epoch) -> Option<&Batch>
        ensures { option_copied result ≡ own_batch self.now.standing epoch }
    {
        if epoch == 0 {
            return None;
        }
        self.log.get(epoch as usize - 1)
    }

    /// Whether the bytes spell the batch, in either format.
    fn spell(&self, bytes: &[u8], batch: &Batch) -> Result<bool, NoMemory>
        requires { FitsRegions self.now.standing.tables self.now.standing.regions batch.now }
        ensures { IfOk result (Compares self.now.standing bytes.now batch.now) }
    {
        let read = match read_batch(self.alloc, &self.schema, self.regions, bytes) {
            Ok(read) => read,
            Err(CodecFault::NoMemory) => return Err(NoMemory),
            Err(_) => return Ok(false),
        };
        let again = batch_bytes(self.alloc, &self.schema, &read)?;
        let kept = batch_bytes(self.alloc, &self.schema, batch)?;
        Ok(again.as_slice() == kept.as_slice())
    }
}
