//! Packets come to their regions.
ghost use Rattle.std.specs.Prelude.{◌≡◌, ◌<◌, ◌≤◌, ◌+◌, ◌-◌, ◌++◌, ◌^◌, OnOk, string_bytes};
ghost use Rattle.std.specs.List.{slice_get};
ghost use Rattle.geo_base.specs.declared.limits.TheConstants.{PACKETS_PER_LINE};
ghost use Rattle.geo_world.specs.World.{World as WorldState};
ghost use Rattle.geo_world.specs.Step.{deliver, deliver_one};

use super::World;
use crate::printing::{print_packet_absent, print_packet_known, print_packet_new};
use geo_base::{Duplicate, NoMemory};

impl World {
    ghost use Rattle.geo_world.specs.inner.Standing.{StandsFor, IsSomeWorld, Makes, region_count};

    /// Delivers the packets of these numbers, one after another.
    pub(super) fn deliver(
        &mut self,
        out: &mut String,
        first: u32,
        last: u32,
    ) -> Result<(), NoMemory>
        requires order { first ≤ last }
        requires stands { IsSomeWorld self.old }
        ensures count { region_count self.new ≡ region_count self.old }
        ensures step { (w : WorldState) → StandsFor w self.old →
            OnOk result (Makes (deliver (last + 1 - first) first w) (string_bytes out.old) (string_bytes out.new) self.new) }
    {
        for packet in first..=last {
            self.deliver_one(out, packet)?;
        }
        Ok(())
    }

    /// Delivers one packet, if it was ever sent.
    fn deliver_one(&mut self, out: &mut String, packet: u32) -> Result<(), NoMemory>
        requires { IsSomeWorld self.old }
        ensures count { region_count self.new ≡ region_count self.old }
        ensures step { (w : WorldState) → StandsFor w self.old →
            OnOk result (Makes (deliver_one w packet (slice_get w.packets packet)) (string_bytes out.old) (string_bytes out.new) self.new) }
    {
        let Some(found) = self.packets.get(packet as usize) else {
            return print_packet_absent(out, packet as u64);
        };
        let to = found.to as usize;
        if self.regions[to].knows(&found.batch) {
            return print_packet_known(out, packet as u64);
        }
        let batch = found.batch.copy(self.alloc)?;
        self.regions[to].receive(batch)?;
        print_packet_new(out, packet as u64)
    }
}
