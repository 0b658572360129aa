//! A whole log, read.
ghost use Rattle.std.specs.Prelude.{◌≡◌, ◌⊎◌, ℕ, ◌<◌, ◌≤◌, [], length, slice_index_or, IfOk, IfErr, IfSome, IsErrOf};
ghost use Rattle.geo_base.specs.Results.{Reads, Refuses};
ghost use Rattle.geo_base.specs.declared.limits.TheConstants.{MAX_REGIONS};
ghost use Rattle.geo_io.specs.Causes.{HasCauseOf};
ghost use Rattle.geo_io.specs.Told.{list_of};
ghost use Rattle.set_codec.specs.declared.fault.CodecFault.TheVariants as codec;
ghost use Rattle.own_log.specs.Logs.{IsEntry, IsEntryFault, IsOfLog, SpellsLog, IsLogFault, IsBadLog, AreOfLog};
ghost use Rattle.own_log.specs.declared.fault.EntryFault.{EntryFault};
ghost use Rattle.own_log.specs.inner.Faults.{blamed, NamesEntry, NamesFirst, NamesNoWant};

use crate::fault::{EntryFault, LoadFault};
use geo_base::RegionNo;
use geo_io::Keepers;
use geo_schema::Schema;
use set_codec::{CodecFault, read_batch};
use std::alloc::Global;
use write_set::Batch;

/// The batch that an entry spells, which has to be of the region and of the epoch that is one greater than the
/// place.
fn read_entry(
    alloc: Global,
    schema: &Schema,
    regions: u8,
    region: RegionNo,
    place: u64,
    bytes: &[u8],
) -> Result<Batch, EntryFault>
    requires regions { regions ≤ MAX_REGIONS }
    requires place { place < u64.MAX }
    ensures entry { IfOk result (IsEntry schema.now regions region place bytes.now) }
    ensures fault { IfErr result (λ e. (e ≡ EntryFault.Codec codec.NoMemory) ⊎ IsEntryFault schema.now regions region place bytes.now e) }
{
    let batch = read_batch(alloc, schema, regions, bytes)?;
    if batch.region != region {
        return Err(EntryFault::Region(batch.region));
    }
    if u64::from(batch.epoch) != place + 1 {
        return Err(EntryFault::Epoch(batch.epoch));
    }
    Ok(batch)
}

/// The fault of loading that an entry's fault is.
fn blamed(entry: u64, fault: EntryFault) -> LoadFault
    ensures { result ≡ blamed entry fault }
{
    match fault {
        EntryFault::Codec(CodecFault::NoMemory) => LoadFault::NoMemory,
        fault => LoadFault::BadLog { entry, fault },
    }
}

/// The batch of the entry at a place.
#[tactic(auto, using(crate::proofs::Loaded::names_io, crate::proofs::Loaded::names_told, crate::proofs::Loaded::entry_told, crate::proofs::Loaded::entry_of_log, crate::proofs::Loaded::io_no_want, crate::proofs::Loaded::blamed_no_want))]
fn load_entry<L: Keepers>(
    alloc: Global,
    logs: &mut L,
    schema: &Schema,
    regions: u8,
    region: RegionNo,
    place: u64,
) -> Result<Batch, LoadFault>
    requires regions { regions ≤ MAX_REGIONS }
    requires width { region < L.width logs.old }
    requires place { place < u64.MAX }
    requires within { IfSome (L.lists logs.old) (λ all. place < length (list_of all region)) }
    ensures entry { IfOk result (λ batch. IfSome (L.lists logs.old)
        (λ all. IsEntry schema.now regions region place (slice_index_or (list_of all region) place []) batch)) }
    ensures of_log { IfOk result (IsOfLog schema.now regions region place) }
    ensures fault { IfErr result (λ e. IfSome (L.lists logs.old)
        (λ all. NamesEntry schema.now regions region place (slice_index_or (list_of all region) place []) e)) }
    ensures no_want { IfErr result NamesNoWant }
    ensures told { IfSome (L.lists logs.old) (λ all. length all ≡ L.width logs.old) }
    ensures lists { L.lists logs.new ≡ L.lists logs.old }
    ensures width { L.width logs.new ≡ L.width logs.old }
    ensures cause { HasCauseOf LoadFault.LogFault (L.faults logs.old) (L.faults logs.new) result }
{
    let bytes = logs.read(alloc, region, place)?;
    match read_entry(alloc, schema, regions, region, place, &bytes) {
        Ok(batch) => Ok(batch),
        Err(fault) => Err(blamed(place, fault)),
    }
}

/// The batches of all entries.
fn load_entries<L: Keepers>(
    alloc: Global,
    logs: &mut L,
    schema: &Schema,
    regions: u8,
    region: RegionNo,
) -> Result<Vec<Batch>, LoadFault>
    requires regions { regions ≤ MAX_REGIONS }
    requires width { region < L.width logs.old }
    ensures spelled { IfOk result (λ batches. IfSome (L.lists logs.old)
        (λ all. SpellsLog schema.now regions region (list_of all region) batches.items)) }
    ensures of_log { IfOk result (λ batches. AreOfLog schema.now regions region batches.items) }
    ensures fault { IfErr result (λ e. IfSome (L.lists logs.old)
        (λ all. NamesFirst schema.now regions region (list_of all region) e)) }
    ensures no_want { IfErr result NamesNoWant }
    ensures told { IfSome (L.lists logs.old) (λ all. length all ≡ L.width logs.old) }
    ensures lists { L.lists logs.new ≡ L.lists logs.old }
    ensures width { L.width logs.new ≡ L.width logs.old }
    ensures cause { HasCauseOf LoadFault.LogFault (L.faults logs.old) (L.faults logs.new) result }
{
    let count = logs.len(region)?;
    let mut batches = Vec::new(alloc);
    for place in 0..count {
        let batch = load_entry(alloc, logs, schema, regions, region, place)?;
        batches.push(batch)?;
    }
    Ok(batches)
}

/// The batches that a region's log spells, oldest first, where `regions` is the number of regions, from 1 to 8,
/// and the region is one of them. An old log's entries may be of either format.
///
/// Where the keepers tell the list, a batch is answered for each entry, and these are the only batches that
/// the list spells; [`LoadFault::BadLog`] names the first entry that is none, with its fault, and comes exactly
/// where there is one. Where they tell nothing, which entries they gave isn't known, and so neither is
/// where `BadLog` comes from, but that it never names want of memory; and what is answered may still be a log of
/// the region. Instead of these answers, [`LoadFault::LogFault`] may come, where the keepers' count of faults
/// rose, and [`LoadFault::NoMemory`]. The lists stay as they are.
///
/// Costs one read of the keepers for each entry up to the first bad one, and a step for each of its bytes: no
/// entry is read twice.
pub fn load_log<L: Keepers>(
    alloc: Global,
    logs: &mut L,
    schema: &Schema,
    regions: u8,
    region: RegionNo,
) -> Result<Vec<Batch>, LoadFault>
    requires regions { regions ≤ MAX_REGIONS }
    requires width { region < L.width logs.old }
    ensures spelled { IfOk result (λ batches. IfSome (L.lists logs.old)
        (λ all. SpellsLog schema.now regions region (list_of all region) batches.items)) }
    ensures only { IfSome (L.lists logs.old) (λ all. IsErrOf result LoadFault.LogFault
        ⊎ Reads LoadFault.NoMemory (λ batches. batches.items) result (SpellsLog schema.now regions region (list_of all region))) }
    ensures bad { (entry : ℕ) (fault : EntryFault) → IsErrOf result (LoadFault.BadLog entry fault) →
        IfSome (L.lists logs.old) (λ all. IsLogFault schema.now regions region (list_of all region) entry fault) }
    ensures no_want { (entry : ℕ) → IsErrOf result (LoadFault.BadLog entry (EntryFault.Codec codec.NoMemory)) → ⊥ }
    ensures refused { IfSome (L.lists logs.old) (λ all. IsErrOf result LoadFault.LogFault
        ⊎ Refuses LoadFault.NoMemory result (IsBadLog schema.now regions region (list_of all region))) }
    ensures of_log { IfOk result (λ batches. AreOfLog schema.now regions region batches.items) }
    ensures told { IfSome (L.lists logs.old) (λ all. length all ≡ L.width logs.old) }
    ensures lists { L.lists logs.new ≡ L.lists logs.old }
    ensures width { L.width logs.new ≡ L.width logs.old }
    ensures cause { HasCauseOf LoadFault.LogFault (L.faults logs.old) (L.faults logs.new) result }
{
    // The call says that the tables are a schema's.
    let _tables = schema.count();
    load_entries(alloc, logs, schema, regions, region)
}
