//! What small worlds print.
ghost use Rattle.std.specs.Prelude.{◌≡◌, OnOk};
ghost use Rattle.world_script.specs.Script.{IsWithin};
ghost use Rattle.geo_world.specs.inner.Standing.{IsSomeWorld, region_count};

use geo_world::World;
use std::test::Fail;
use world_script::{Event, Statement};

const SHOW: Event = Event::Show { region: 0 };

const SEAL: Event = Event::Seal { region: 0 };

const INSERT: Event = Event::Sql {
    region: 0,
    session: 0,
    statement: Statement::Insert { key: 1, value: 10 },
};

const INSERT_AGAIN: Event = Event::Sql {
    region: 0,
    session: 1,
    statement: Statement::Insert { key: 1, value: 11 },
};

/// Makes the step of an event in a world of two regions, and puts what it prints behind the text.
fn play(world: &mut World, text: &mut Vec<u8>, event: Event) -> Result<(), Fail>
    requires count { region_count world.old ≡ 2 }
    requires within { IsWithin 2 event }
    requires stands { IsSomeWorld world.old }
    ensures count { region_count world.new ≡ 2 }
    ensures stands { OnOk result (IsSomeWorld world.new) }
{
    let lines = world.step(&event)?;
    text.extend_from_slice(lines.as_slice())?;
    Ok(())
}

#[test]
fn one_epoch_of_two_regions(rt: HostRuntime) -> Result<(), Fail> {
    let mut world = World::open(rt.alloc(), 2, 4_294_967_294)?;
    let mut text = Vec::new(rt.alloc());
    play(&mut world, &mut text, INSERT)?;
    play(&mut world, &mut text, INSERT)?;
    play(&mut world, &mut text, SEAL)?;
    play(&mut world, &mut text, Event::Publish { region: 0 })?;
    play(&mut world, &mut text, Event::Seal { region: 1 })?;
    play(&mut world, &mut text, Event::Deliver { first: 0, last: 2 })?;
    play(&mut world, &mut text, Event::Deliver { first: 1, last: 1 })?;
    play(&mut world, &mut text, Event::Publish { region: 0 })?;
    play(&mut world, &mut text, INSERT_AGAIN)?;
    play(&mut world, &mut text, SHOW)?;
    let wanted =
        "0.0 changed 1 ticket 1.0.0\n0.0 refused 46 Waiting 1.0.0\nregion 0 sealed 1 with 1\npacket 0 to 1\nregion 0 waiting 1: have 1 of 2\nregion 1 sealed 1 with 0\npacket 1 to 0\npacket 0 new\npacket 1 new\npacket 2 absent\npacket 1 known\nregion 0 published 1 commits 1 aborts 0\n0.1 refused 30 Duplicate kv(1)\nregion 0 at 1\ntable kv 1 rows\n(1, 10)\n";
    assert_eq!(rt; text.as_slice(), wanted.as_bytes());
    Ok(())
}

#[test]
fn the_last_epoch(rt: HostRuntime) -> Result<(), Fail> {
    let mut world = World::open(rt.alloc(), 2, 2)?;
    let mut text = Vec::new(rt.alloc());
    play(&mut world, &mut text, SEAL)?;
    play(&mut world, &mut text, SEAL)?;
    let select = Event::Sql {
        region: 1,
        session: 63,
        statement: Statement::Select,
    };
    play(&mut world, &mut text, select)?;
    let wanted =
        "region 0 sealed 1 with 0\npacket 0 to 1\nregion 0 refused 51 LastEpoch\n1.63 rows 0\n";
    assert_eq!(rt; text.as_slice(), wanted.as_bytes());
    Ok(())
}
