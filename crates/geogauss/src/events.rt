//! Playing events one after another, each with its lines written before the next one.
ghost use Rattle.std.specs.Prelude.{◌≡◌, ◌≤◌, OnOk, OnErr, All};
ghost use Rattle.std.specs.Io.KnownBytes.{Appends};
ghost use Rattle.geo_io.specs.Causes.{HasCauseOf};
ghost use Rattle.geo_io.specs.Told.{AppendsFrontOf};
ghost use Rattle.world_script.specs.Script.{IsWithin};
ghost use Rattle.geo_world.specs.inner.Standing.{StandsFor, IsSomeWorld, region_count};
ghost use Rattle.geo_world.specs.Step.{step};
ghost use Rattle.geo_world.specs.Play.{text_of};
ghost use Rattle.geo_world.specs.World.{World as WorldState};
ghost use Rattle.geogauss.specs.Playing.{StoppedAfter};
ghost use Rattle.geogauss.specs.inner.Reading.{IsPlayable};
ghost use Rattle.geogauss.specs.inner.Playing.{IsPlayed};

use crate::status::Status;
use geo_base::limits::LAST_EPOCH;
use geo_base::{Epoch, NoMemory};
use geo_io::{IoFault, Sink, write_whole};
use geo_world::World;
use std::alloc::Global;
use world_script::{Event, Script};

/// Makes the step of an event and writes its lines.
fn play_event<K: Sink>(world: &mut World, event: &Event, out: &mut K) -> Result<(), IoFault>
    requires within { IsWithin (region_count world.old) event.now }
    requires stands { IsSomeWorld world.old }
    ensures count { region_count world.new ≡ region_count world.old }
    ensures world { (w : WorldState) → StandsFor w world.old → OnOk result (StandsFor (step w event.now).world world.new) }
    ensures ok { (w : WorldState) → StandsFor w world.old →
        OnOk result (Appends (K.written out.old) (K.written out.new) (step w event.now).lines) }
    ensures err { (w : WorldState) → StandsFor w world.old →
        OnErr result (AppendsFrontOf (step w event.now).lines (K.written out.old) (K.written out.new)) }
    ensures cause { HasCauseOf IoFault.Failed (K.faults out.old) (K.faults out.new) result }
{
    match world.step(event) {
        Ok(lines) => write_whole(out, lines.as_slice()),
        Err(NoMemory) => Err(IoFault::NoMemory),
    }
}

/// Plays all events in a world.
fn play_events<K: Sink>(world: &mut World, events: &[Event], out: &mut K) -> Result<(), IoFault>
    requires within { All (IsWithin (region_count world.old)) events.now }
    requires stands { IsSomeWorld world.old }
    ensures ok { (w : WorldState) → StandsFor w world.old →
        OnOk result (Appends (K.written out.old) (K.written out.new) (text_of w events.now)) }
    ensures err { (w : WorldState) → StandsFor w world.old →
        OnErr result (StoppedAfter w events.now (K.written out.old) (K.written out.new)) }
    ensures cause { HasCauseOf IoFault.Failed (K.faults out.old) (K.faults out.new) result }
{
    for event in events {
        play_event(world, event, out)?;
    }
    Ok(())
}

/// Plays a script from its first world on.
pub(crate) fn play_script<K: Sink>(
    alloc: Global,
    script: &Script,
    last: Epoch,
    out: &mut K,
) -> Status
    requires { IsPlayable script.now }
    ensures played { IsPlayed last script.now (K.written out.old) (K.written out.new) (K.faults out.old) (K.faults out.new) result }
    ensures later { K.faults out.old ≤ K.faults out.new }
{
    let Ok(mut world) = World::open(alloc, script.regions, last) else {
        return Status::NoMemory;
    };
    match play_events(&mut world, script.events.items(), out) {
        Ok(()) => Status::Done,
        Err(IoFault::Failed) => Status::WriteFault,
        Err(IoFault::NoMemory) => Status::NoMemory,
    }
}
