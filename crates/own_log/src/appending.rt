//! One entry of a log: appended, or read.
ghost use Rattle.std.specs.Prelude.{◌≡◌, ◌⊎◌, ℕ, ◌-◌, ◌<◌, ◌≤◌, [], length, slice_index_or, IfOk, OnOk, IfSome, IsErrOf};
ghost use Rattle.geo_io.specs.Causes.{HasCauseOf};
ghost use Rattle.geo_io.specs.Told.{list_of, Gains, MayGain, Moves};
ghost use Rattle.set_codec.specs.Alone.{SpellsBatch};
ghost use Rattle.set_codec.specs.Fits.{FitsSchema};
ghost use Rattle.set_codec.specs.Spelling.{batch_spelling};
ghost use Rattle.set_codec.specs.declared.format.Format.TheVariants.{Ggb2};

use crate::fault::LogAppendFault;
use geo_base::{Epoch, RegionNo};
use geo_io::Keepers;
use geo_schema::Schema;
use set_codec::batch_bytes;
use std::alloc::Global;
use write_set::Batch;

/// Puts a batch at the end of its region's log: the list gains its GGB2 spelling, from which it is read back, and which
/// is answered, so that it need be spelled only once.
///
/// [`LogAppendFault::LogFault`] comes only where the keepers' count of faults rose, and the list may then have
/// gained the entry; with [`LogAppendFault::NoMemory`] it is as it was. Unless there was no memory the keepers are
/// asked, and then what they tell has a list for each region. Costs a step for each byte, and one append of the
/// keepers.
#[tactic(auto, using(crate::proofs::Spelled::spelled_alone))]
pub fn append<L: Keepers>(
    alloc: Global,
    logs: &mut L,
    schema: &Schema,
    batch: &Batch,
) -> Result<Vec<u8>, LogAppendFault>
    requires fits { FitsSchema schema.now batch.now }
    requires width { batch.now.region < L.width logs.old }
    ensures bytes { IfOk result (λ bytes. bytes.items ≡ batch_spelling Ggb2 schema.now batch.now) }
    ensures ok { OnOk result (Moves (Gains batch.now.region (batch_spelling Ggb2 schema.now batch.now)) (L.lists logs.old) (L.lists logs.new)) }
    ensures spelled { OnOk result ((regions : ℕ) → batch.now.region < regions → SpellsBatch schema.now regions (batch_spelling Ggb2 schema.now batch.now) batch.now) }
    ensures failed { IsErrOf result LogAppendFault.LogFault →
        Moves (MayGain batch.now.region (batch_spelling Ggb2 schema.now batch.now)) (L.lists logs.old) (L.lists logs.new) }
    ensures no_memory { IsErrOf result LogAppendFault.NoMemory → L.lists logs.new ≡ L.lists logs.old }
    ensures told { IsErrOf result LogAppendFault.NoMemory ⊎ IfSome (L.lists logs.old) (λ all. length all ≡ L.width logs.old) }
    ensures width { L.width logs.new ≡ L.width logs.old }
    ensures cause { HasCauseOf LogAppendFault.LogFault (L.faults logs.old) (L.faults logs.new) result }
{
    let bytes = batch_bytes(alloc, schema, batch)?;
    logs.append(batch.region, &bytes)?;
    Ok(bytes)
}

/// The bytes of the entry that a region's log has for an epoch, which stands at the place before it.
///
/// [`LogAppendFault::LogFault`] comes only where the keepers' count of faults rose. The lists stay as they
/// are. Costs one read of the keepers.
pub fn entry<L: Keepers>(
    alloc: Global,
    logs: &mut L,
    region: RegionNo,
    epoch: Epoch,
) -> Result<Vec<u8>, LogAppendFault>
    requires width { region < L.width logs.old }
    requires first { 1 ≤ epoch }
    requires last { IfSome (L.lists logs.old) (λ all. epoch ≤ length (list_of all region)) }
    ensures bytes { IfOk result (λ bytes. IfSome (L.lists logs.old)
        (λ all. bytes.items ≡ slice_index_or (list_of all region) (epoch - 1) [])) }
    ensures told { IfSome (L.lists logs.old) (λ all. length all ≡ L.width logs.old) }
    ensures lists { L.lists logs.new ≡ L.lists logs.old }
    ensures width { L.width logs.new ≡ L.width logs.old }
    ensures cause { HasCauseOf LogAppendFault.LogFault (L.faults logs.old) (L.faults logs.new) result }
{
    let bytes = logs.read(alloc, region, u64::from(epoch) - 1)?;
    Ok(bytes)
}
