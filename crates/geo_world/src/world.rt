ghost use Rattle.std.specs.Prelude.{◌≡◌, IfOk, OnOk, ◌≤◌, string_bytes};
ghost use Rattle.geo_base.specs.declared.limits.TheConstants.{MAX_REGIONS};
ghost use Rattle.world_script.specs.Script.{IsWithin};
ghost use Rattle.geo_world.specs.World.{World as WorldState, first_world};
ghost use Rattle.geo_world.specs.Step.{step};

mod delivering;
mod epochs;
mod statements;

use crate::packet::Packet;
use crate::region::Region;
use crate::tables::kv_schema;
use geo_base::{Epoch, NoMemory};
use geo_schema::Schema;
use std::alloc::Global;
use world_script::Event;

/// The schema, all regions, and every packet that was ever sent.
#[derive(Drop)]
pub struct World {
    alloc: Global,
    schema: Schema,
    last: Epoch,
    regions: Vec<Region>,
    packets: Vec<Packet>,
}

impl World {
    ghost use Rattle.geo_world.specs.inner.Standing.{StandsFor, IsSomeWorld, Makes, region_count};

    /// The world before the first event. `regions` is 1 to 8; no region opens an epoch past `last`.
    pub fn open(alloc: Global, regions: u8, last: Epoch) -> Result<World, NoMemory>
        requires some { 1 ≤ regions }
        requires few { regions ≤ MAX_REGIONS }
        ensures count { IfOk result (λ world. region_count world ≡ regions) }
        ensures first { IfOk result (λ world. StandsFor (first_world regions last) world) }
    {
        let schema = kv_schema(alloc)?;
        let mut all = Vec::new(alloc);
        for _made in 0..regions {
            all.push(Region::new(alloc, regions)?)?;
        }
        Ok(World {
            alloc,
            schema,
            last,
            regions: all,
            packets: Vec::new(alloc),
        })
    }

    /// Makes the step of an event and gives the lines that it prints. A publication costs what
    /// [`write_set::Plain::step`] says; any other event costs the rows and packets that it names or prints,
    /// each packet with its candidates, times a logarithm of what the region keeps. After an error the world
    /// is in no stated state.
    pub fn step(&mut self, event: &Event) -> Result<Vec<u8>, NoMemory>
        requires within { IsWithin (region_count self.old) event.now }
        requires stands { IsSomeWorld self.old }
        ensures count { region_count self.new ≡ region_count self.old }
        ensures lines { (w : WorldState) → StandsFor w self.old → IfOk result (λ lines. lines.items ≡ (step w event.now).lines) }
        ensures world { (w : WorldState) → StandsFor w self.old → IfOk result (λ _. StandsFor (step w event.now).world self.new) }
    {
        let mut out = String::new(self.alloc);
        self.play(&mut out, *event)?;
        Ok(out.into_bytes())
    }

    /// Makes the step of an event and puts its lines at the end of the text.
    fn play(&mut self, out: &mut String, event: Event) -> Result<(), NoMemory>
        requires within { IsWithin (region_count self.old) event }
        requires stands { IsSomeWorld self.old }
        ensures count { region_count self.new ≡ region_count self.old }
        ensures step { (w : WorldState) → StandsFor w self.old →
            OnOk result (Makes (step w event) (string_bytes out.old) (string_bytes out.new) self.new) }
    {
        match event {
            Event::Sql {
                region,
                session,
                statement,
            } => self.run(out, region, session, statement),
            Event::Seal { region } => self.seal(out, region),
            Event::Deliver { first, last } => self.deliver(out, first, last),
            Event::Publish { region } => self.publish(out, region),
            Event::Show { region } => self.show(out, region),
        }
    }
}
