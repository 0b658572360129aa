//! Candidates, and the batch that bytes spell.
ghost use Rattle.std.specs.Prelude.{◌≡◌, ◌≤◌, ◌<◌, ◌⊎◌, length, IfOk, IfErr};
ghost use Rattle.geo_base.specs.declared.limits.TheConstants.{MAX_REGIONS};
ghost use Rattle.geo_base.specs.Results.{Gives, Reads, Refuses};
ghost use Rattle.set_codec.specs.declared.fault.CodecFault.TheVariants.{NoMemory};
ghost use Rattle.set_codec.specs.Alone.{SpellsBatch};
ghost use Rattle.set_codec.specs.Faults.{IsBatchFault};
ghost use Rattle.set_codec.specs.Fits.{FitsRegions, IsSpelling};
ghost use Rattle.set_codec.specs.inner.Reading.{candidate_at, candidates_at, front_at, body_at, batch_at};

use crate::change_reading::read_changes;
use crate::fault::{CodecFault, Limit};
use crate::fields::{
    read_count, read_end, read_epoch, read_mark, read_other, read_rows, read_start,
};
use crate::format::Format;
use geo_base::limits::{MAX_BATCH_BYTES, MAX_SET_BYTES};
use geo_base::{Epoch, RegionNo};
use geo_schema::Schema;
use std::alloc::Global;
use write_set::{Batch, Candidate, CandidateList, WriteSet};

#[tactic(auto, unfolding(crate::specs::inner::Reading::candidate_at))]
fn read_candidate(
    alloc: Global,
    schema: &Schema,
    format: Format,
    epoch: Epoch,
    bytes: &[u8],
    at: usize,
) -> Result<(Candidate, usize), CodecFault>
    requires { at ≤ length bytes.now }
    ensures exact { Gives NoMemory (λ x. x) result (candidate_at format schema.now epoch bytes.now at) }
    ensures within { IfOk result (λ x. x.1 ≤ length bytes.now) }
{
    let (start, next) = read_start(bytes, at, epoch)?;
    let (rows, from) = read_rows(bytes, next)?;
    let (changes, next) = read_changes(alloc, schema, format, rows, bytes, from)?;
    if next.saturating_sub(from) as u64 > MAX_SET_BYTES {
        return Err(CodecFault::OverLimit(at, Limit::SetBytes));
    }
    // The call says that the tables are a schema's, so that what was read is a set.
    let _tables = schema.count();
    let set = WriteSet::from_changes(changes);
    Ok((Candidate { start, set }, next))
}

/// So many candidates, one after another.
#[tactic(auto, unfolding(crate::specs::inner::Reading::candidates_at))]
fn read_candidates(
    alloc: Global,
    schema: &Schema,
    format: Format,
    epoch: Epoch,
    count: u32,
    bytes: &[u8],
    at: usize,
) -> Result<(Vec<Candidate>, usize), CodecFault>
    requires { at ≤ length bytes.now }
    ensures exact { Gives NoMemory (λ x. (x.0.items, x.1)) result (candidates_at format schema.now epoch count bytes.now at) }
    ensures within { IfOk result (λ x. x.1 ≤ length bytes.now) }
{
    let mut items = Vec::new(alloc);
    let mut next = at;
    for _ in 0..count {
        let (item, behind) = read_candidate(alloc, schema, format, epoch, bytes, next)?;
        items.push(item)?;
        next = behind;
    }
    Ok((items, next))
}

/// The batch at the place, for the region that it goes to, if it is in a packet.
#[tactic(auto, unfolding(crate::specs::inner::Reading::front_at))]
fn read_front(
    alloc: Global,
    schema: &Schema,
    regions: u8,
    to: Option<RegionNo>,
    bytes: &[u8],
    at: usize,
) -> Result<(Batch, usize), CodecFault>
    requires { at ≤ length bytes.now }
    ensures exact { Gives NoMemory (λ x. x) result (front_at schema.now regions to bytes.now at) }
{
    let (format, next) = read_mark(bytes, at)?;
    let (region, next) = read_other(bytes, next, regions, to, 1)?;
    let (epoch, next) = read_epoch(bytes, next)?;
    let (count, next) = read_count(bytes, next)?;
    let (items, next) = read_candidates(alloc, schema, format, epoch, count, bytes, next)?;
    let items = CandidateList::new(items);
    let batch = Batch {
        region,
        epoch,
        items,
    };
    Ok((batch, next))
}

/// The batch from the place to the end.
#[tactic(auto, unfolding(crate::specs::inner::Reading::body_at))]
fn read_body(
    alloc: Global,
    schema: &Schema,
    regions: u8,
    to: Option<RegionNo>,
    bytes: &[u8],
    at: usize,
) -> Result<Batch, CodecFault>
    requires { at ≤ length bytes.now }
    ensures exact { Gives NoMemory (λ b. b) result (body_at schema.now regions to bytes.now at) }
{
    let (batch, next) = read_front(alloc, schema, regions, to, bytes, at)?;
    read_end(batch, bytes, next)
}

/// The same, where the bytes from the place on are not too many.
#[tactic(auto, unfolding(crate::specs::inner::Reading::batch_at))]
pub(crate) fn read_batch_at(
    alloc: Global,
    schema: &Schema,
    regions: u8,
    to: Option<RegionNo>,
    bytes: &[u8],
    at: usize,
) -> Result<Batch, CodecFault>
    requires { at ≤ length bytes.now }
    ensures exact { Gives NoMemory (λ b. b) result (batch_at schema.now regions to bytes.now at) }
{
    if (bytes.len() - at) as u64 > MAX_BATCH_BYTES {
        return Err(CodecFault::OverLimit(at + MAX_BATCH_BYTES as usize, Limit::BatchBytes));
    }
    read_body(alloc, schema, regions, to, bytes, at)
}

/// The batch that the bytes spell, in either format, where `regions` is the number of regions, from 1 to 8. Takes a step for
/// each byte, and for each cell one for each key place.
///
/// Nothing is reserved for a number that the bytes announce. By the sizes of the types, which nothing proves,
/// the batch takes at most 64 bytes of memory for each byte read, which is 256 MiB for the most bytes of a
/// batch; not counted is a list's old room while it grows, nor what the allocator adds. So much is taken where
/// a change of 3 bytes puts a row of one cell: 32 bytes for the cell, 32 for its copy in the key, and 64 for
/// the change, in a list that has up to twice the room that it needs.
pub fn read_batch(
    alloc: Global,
    schema: &Schema,
    regions: u8,
    bytes: &[u8],
) -> Result<Batch, CodecFault>
    ensures fits { IfOk result (λ batch. regions ≤ MAX_REGIONS → FitsRegions schema.now regions batch) }
    ensures spelled { IfOk result (λ batch. IsSpelling schema.now batch bytes.now) }
    ensures only { Reads NoMemory (λ b. b) result (SpellsBatch schema.now regions bytes.now) }
    ensures fault { IfErr result (λ e. (e ≡ NoMemory) ⊎ IsBatchFault schema.now regions bytes.now e) }
    ensures refused { Refuses NoMemory result (IsBatchFault schema.now regions bytes.now) }
{
    // The call says that the tables are a schema's.
    let _tables = schema.count();
    read_batch_at(alloc, schema, regions, None, bytes, 0)
}
