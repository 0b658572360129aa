//! Maps and their forks beside plain tables, each of which changes alone.
use crate::number::Number;
use crate::plain::{KEYS, agrees, play};
use geo_base::NoMemory;
use page_map::PageMap;
use std::alloc::Global;
use std::test::Fail;

/// A map, a fork of it and a fork of the fork, which all change behind the forks.
fn go_apart(alloc: Global) -> Result<bool, NoMemory> {
    let mut map = PageMap::empty(alloc);
    let mut table = [None; KEYS];
    let mut went = play(&mut map, &mut table, 0, 150)?;
    let mut fork = map.fork()?;
    let mut fork_table = table;
    went &= play(&mut map, &mut table, 150, 250)?;
    let still = fork.fork()?;
    let still_table = fork_table;
    went &= play(&mut fork, &mut fork_table, 700, 250)?;
    went &= play(&mut map, &mut table, 400, 50)?;
    Ok(went && agrees(&map, &table) && agrees(&fork, &fork_table) && agrees(&still, &still_table))
}

#[test]
fn forks_go_apart(rt: HostRuntime) -> Result<(), Fail> {
    assert!(rt; go_apart(rt.alloc())?);
    Ok(())
}

#[test]
fn a_fork_of_nothing_stays_empty(rt: HostRuntime) -> Result<(), Fail> {
    let mut map = PageMap::empty(rt.alloc());
    let fork = map.fork()?;
    map.set(Number(3), Number(4))?;
    assert!(rt; fork.at(0).is_none());
    assert_eq!(rt; map.get(&Number(3)), Some(&Number(4)));
    Ok(())
}
