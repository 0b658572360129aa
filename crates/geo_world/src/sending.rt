//! A region sends a batch to the others.
ghost use Rattle.std.specs.Prelude.{◌≡◌, ◌++◌, ◌∷◌, [], OnOk, map, string_bytes, vec_len};
ghost use Rattle.geo_world.specs.Lines.{sent};
ghost use Rattle.geo_world.specs.inner.Sending.{packet_with};
ghost use Rattle.geo_world.specs.Step.{others, sent_lines};

use crate::packet::Packet;
use crate::printing::print_sent;
use geo_base::{Duplicate, NoMemory, RegionNo};
use std::alloc::Global;
use write_set::Batch;

/// Sends a batch to a region.
fn send(
    alloc: Global,
    packets: &mut Vec<Packet>,
    out: &mut String,
    to: RegionNo,
    batch: &Batch,
) -> Result<(), NoMemory>
    ensures packet { OnOk result (packets.new.items ≡ packets.old.items ++ packet_with batch.now to ∷ []) }
    ensures line { OnOk result (string_bytes out.new ≡ string_bytes out.old ++ sent (vec_len packets.old) to) }
{
    let number = packets.len() as u64;
    let batch = batch.copy(alloc)?;
    packets.push(Packet { to, batch })?;
    print_sent(out, number, to)
}

/// Sends a batch to every region but its own, of so many.
pub fn send_all(
    alloc: Global,
    packets: &mut Vec<Packet>,
    out: &mut String,
    regions: u8,
    batch: &Batch,
) -> Result<(), NoMemory>
    ensures packets { OnOk result (packets.new.items ≡ packets.old.items ++ map (packet_with batch.now) (others regions batch.now.region)) }
    ensures lines { OnOk result (string_bytes out.new ≡ string_bytes out.old ++ sent_lines (vec_len packets.old) (others regions batch.now.region)) }
{
    for to in 0..regions {
        if to != batch.region {
            send(alloc, packets, out, to, batch)?;
        }
    }
    Ok(())
}
