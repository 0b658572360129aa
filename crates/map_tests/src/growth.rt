//! Maps that grow by pages and shelves, and become empty again.
use crate::counting::{counts, fill, take_all};
use crate::number::Number;
use geo_base::NoMemory;
use page_map::PageMap;
use std::alloc::Global;
use std::test::Fail;

/// Fills a map, forks it and empties it, and says whether each was as it should be.
fn grows_and_shrinks(alloc: Global, count: u64, falling: bool) -> Result<bool, NoMemory> {
    let mut map = PageMap::empty(alloc);
    fill(&mut map, count, falling)?;
    let fork = map.fork()?;
    let whole = counts(&map, count);
    let emptied = take_all(&mut map, count)?;
    fill(&mut map, 10, falling)?;
    Ok(whole && emptied && counts(&map, 10) && counts(&fork, count))
}

#[test]
fn pages_and_shelves(rt: HostRuntime) -> Result<(), Fail> {
    let table = [
        (1u64, false),
        (64, false),
        (65, false),
        (65, true),
        (1_000, true),
        (10_000, false),
        (10_000, true),
    ];
    for (count, falling) in table {
        assert!(rt; grows_and_shrinks(rt.alloc(), count, falling)?, "{count}");
    }
    Ok(())
}

/// So many pairs that the uppermost shelf has two chunks: below it 128 shelves of 64 pages of 32 pairs are full
/// when keys come in their order.
#[test]
fn the_uppermost_shelf(rt: HostRuntime) -> Result<(), Fail> {
    let mut map = PageMap::empty(rt.alloc());
    fill(&mut map, 263_000, false)?;
    let fork = map.fork()?;
    assert_eq!(rt; map.take(&Number(262_999))?, Some(Number(262_999)));
    assert!(rt; counts(&map, 262_999));
    assert!(rt; counts(&fork, 263_000));
    Ok(())
}

#[test]
fn a_key_that_is_not_there(rt: HostRuntime) -> Result<(), Fail> {
    let mut map = PageMap::empty(rt.alloc());
    assert!(rt; map.take(&Number(5))?.is_none());
    fill(&mut map, 100, false)?;
    assert!(rt; map.take(&Number(100))?.is_none());
    assert!(rt; map.get(&Number(100)).is_none());
    assert!(rt; counts(&map, 100));
    Ok(())
}
