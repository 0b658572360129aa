//! Nothing is copied that no fork shares: values that can't be copied tell.
use crate::number::Number;
use geo_base::{Duplicate, NoMemory};
use page_map::PageMap;
use std::alloc::Global;
use std::test::Fail;

/// A value that can't be copied.
#[derive(Debug, PartialEq, Drop)]
struct Single(u64);

impl Duplicate for Single {
    fn copy(&self, _alloc: Global) -> Result<Single, NoMemory> {
        Err(NoMemory)
    }
}

/// Values at the keys below 60.
fn singles(alloc: Global) -> Result<PageMap<Number, Single>, NoMemory> {
    let mut map = PageMap::empty(alloc);
    for key in 0..60u64 {
        map.set(Number(key), Single(key))?;
    }
    Ok(map)
}

#[test]
fn a_change_is_made_in_place(rt: HostRuntime) -> Result<(), Fail> {
    let mut map = singles(rt.alloc())?;
    assert_eq!(rt; map.set(Number(7), Single(70))?, Some(Single(7)));
    assert_eq!(rt; map.take(&Number(8))?, Some(Single(8)));
    assert_eq!(rt; map.place_of(&Number(9)), 8);
    Ok(())
}

#[test]
fn a_change_under_a_fork_copies(rt: HostRuntime) -> Result<(), Fail> {
    let mut map = singles(rt.alloc())?;
    let fork = map.fork()?;
    assert!(rt; map.set(Number(7), Single(71)).is_err());
    assert!(rt; map.take(&Number(7)).is_err());
    assert_eq!(rt; map.get(&Number(7)), Some(&Single(7)));
    drop(fork);
    assert_eq!(rt; map.set(Number(7), Single(71))?, Some(Single(7)));
    Ok(())
}
