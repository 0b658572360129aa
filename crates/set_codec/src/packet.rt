ghost use Rattle.std.specs.Prelude.{◌≡◌, ◌≤◌, ◌<◌, ◌⊎◌, length, IfOk, IfErr};
ghost use Rattle.geo_base.specs.declared.limits.TheConstants.{MAX_REGIONS};
ghost use Rattle.geo_base.specs.Results.{Gives, Reads, Refuses};
ghost use Rattle.set_codec.specs.declared.fault.CodecFault.TheVariants as fault;
ghost use Rattle.set_codec.specs.Alone.{SpellsPacket};
ghost use Rattle.set_codec.specs.Faults.{IsPacketFault};
ghost use Rattle.set_codec.specs.Fits.{FitsPacket};
ghost use Rattle.set_codec.specs.Spelling.{packet_spelling};
ghost use Rattle.set_codec.specs.inner.Reading.{batch_packet_at, fetch_packet_at, packet_at};

use crate::batch_reading::read_batch_at;
use crate::fault::CodecFault;
use crate::fields::{read_end, read_epoch, read_other, read_region};
use crate::kind;
use geo_base::{Epoch, Many, NoMemory, RegionNo};
use geo_schema::Schema;
use row_codec::fields::read_byte;
use std::alloc::Global;

/// Bytes in a packet.
pub type ByteList = Many<u8>;

/// What one region sends to another.
#[derive(Debug, Drop)]
pub enum Packet {
    /// A spelling of a batch, in either format, on its way to the region `to`.
    Batch {
        to: RegionNo,
        bytes: ByteList,
    },
    /// The region `from` asks the region `to`, another one, for its batch of an epoch from 1 to 4,294,967,293.
    Fetch {
        from: RegionNo,
        to: RegionNo,
        epoch: Epoch,
    },
}

/// The spelling of a packet.
pub fn packet_bytes(alloc: Global, packet: &Packet) -> Result<Vec<u8>, NoMemory>
    ensures { IfOk result (λ bytes. bytes.items ≡ packet_spelling packet.now) }
{
    let mut out = Vec::new(alloc);
    match packet {
        Packet::Batch { to, bytes } => {
            out.extend_from_slice(&[kind::BATCH, *to])?;
            out.extend_from_slice(bytes.items())?;
        }
        Packet::Fetch { from, to, epoch } => {
            out.extend_from_slice(&[kind::FETCH, *from, *to])?;
            out.extend_from_slice(&epoch.to_be_bytes())?;
        }
    }
    Ok(out)
}

/// A packet with a batch, whose kind was read.
#[tactic(auto, unfolding(crate::specs::inner::Reading::batch_packet_at))]
fn read_batch_packet(
    alloc: Global,
    schema: &Schema,
    regions: u8,
    bytes: &[u8],
    at: usize,
) -> Result<Packet, CodecFault>
    requires { at ≤ length bytes.now }
    ensures exact { Gives fault.NoMemory (λ p. p) result (batch_packet_at schema.now regions bytes.now at) }
{
    let (to, next) = read_region(bytes, at, regions)?;
    read_batch_at(alloc, schema, regions, Some(to), bytes, next)?;
    let bytes = Vec::from_slice(alloc, &bytes[next..])?;
    Ok(Packet::Batch {
        to,
        bytes: ByteList::new(bytes),
    })
}

/// A packet that asks for a batch, whose kind was read.
#[tactic(auto, unfolding(crate::specs::inner::Reading::fetch_packet_at))]
fn read_fetch_packet(bytes: &[u8], at: usize, regions: u8) -> Result<Packet, CodecFault>
    requires { at ≤ length bytes.now }
    ensures exact { Gives fault.NoMemory (λ p. p) result (fetch_packet_at regions bytes.now at) }
{
    let (from, place) = read_region(bytes, at, regions)?;
    let (to, next) = read_other(bytes, place, regions, Some(from), place)?;
    let (epoch, next) = read_epoch(bytes, next)?;
    read_end(Packet::Fetch { from, to, epoch }, bytes, next)
}

/// The packet of the kind that the first byte names.
#[tactic(auto, unfolding(crate::specs::inner::Reading::packet_at))]
fn read_of_kind(
    alloc: Global,
    schema: &Schema,
    regions: u8,
    bytes: &[u8],
) -> Result<Packet, CodecFault>
    ensures exact { Gives fault.NoMemory (λ p. p) result (packet_at schema.now regions bytes.now) }
{
    let (tag, next) = read_byte::<CodecFault>(bytes, 0)?;
    match tag {
        kind::BATCH => read_batch_packet(alloc, schema, regions, bytes, next),
        kind::FETCH => read_fetch_packet(bytes, next, regions),
        _ => Err(CodecFault::BadTag(0)),
    }
}

/// The packet that the bytes spell, where `regions` is the number of regions, from 1 to 8. Takes a step for
/// each byte, and for each cell one for each key place.
///
/// A packet's batch is read and let go, with the memory of [`crate::read_batch`]; its bytes are kept.
pub fn read_packet(
    alloc: Global,
    schema: &Schema,
    regions: u8,
    bytes: &[u8],
) -> Result<Packet, CodecFault>
    ensures fits { IfOk result (λ packet. regions ≤ MAX_REGIONS → FitsPacket schema.now regions packet) }
    ensures spelled { IfOk result (λ packet. packet_spelling packet ≡ bytes.now) }
    ensures only { Reads fault.NoMemory (λ p. p) result (SpellsPacket schema.now regions bytes.now) }
    ensures fault { IfErr result (λ e. (e ≡ fault.NoMemory) ⊎ IsPacketFault schema.now regions bytes.now e) }
    ensures refused { Refuses fault.NoMemory result (IsPacketFault schema.now regions bytes.now) }
{
    // The call says that the tables are a schema's.
    let _tables = schema.count();
    read_of_kind(alloc, schema, regions, bytes)
}
