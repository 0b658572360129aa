//! Maps that two threads read, and a fork that another thread has.
use crate::counting::{counts, fill};
use crate::number::Number;
use page_map::PageMap;
use std::sync::Arc;
use std::test::Fail;
use std::thread;

#[test]
fn two_threads_read_one_map(rt: HostRuntime) -> Result<(), Fail> {
    let mut map = PageMap::empty(rt.alloc());
    fill(&mut map, 500, false)?;
    let here = Arc::new(rt.alloc(), map)?;
    let there = Arc::try_clone(&here)?;
    let (first, last) = thread::join(
        &rt,
        move || counts(&there, 500),
        || here.place_of(&Number(101)),
    );
    assert!(rt; first);
    assert_eq!(rt; last, 101);
    Ok(())
}

#[test]
fn a_fork_is_read_while_its_source_changes(rt: HostRuntime) -> Result<(), Fail> {
    let mut map = PageMap::empty(rt.alloc());
    fill(&mut map, 500, true)?;
    let fork = map.fork()?;
    let (there, here) = thread::join(
        &rt,
        move || counts(&fork, 500),
        || map.take(&Number(0)).is_ok(),
    );
    assert!(rt; there);
    assert!(rt; here);
    Ok(())
}
