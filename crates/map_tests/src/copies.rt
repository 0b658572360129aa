//! What a change under a fork copies: values that count their copies tell.
use crate::number::Number;
use geo_base::{Duplicate, NoMemory};
use page_map::PageMap;
use std::alloc::Global;
use std::sync::atomic::{AtomicU64, Ordering};
use std::test::Fail;

/// A value that counts its copies.
#[derive(Drop)]
struct Counted<'a> {
    copies: &'a AtomicU64,
}

impl<'a> Duplicate for Counted<'a> {
    fn copy(&self, _alloc: Global) -> Result<Counted<'a>, NoMemory> {
        self.copies.fetch_add(1, Ordering::SeqCst);
        Ok(Counted {
            copies: self.copies,
        })
    }
}

/// The keys below the count, each with a value that counts at the counter.
fn filled(
    alloc: Global,
    count: u64,
    copies: &AtomicU64,
) -> Result<PageMap<Number, Counted<'_>>, NoMemory> {
    let mut map = PageMap::empty(alloc);
    for key in 0..count {
        map.set(Number(key), Counted { copies })?;
    }
    Ok(map)
}

/// How many values are copied where a map of so many keys is forked, and then a key is put in, or taken out.
fn copied(alloc: Global, count: u64, key: u64, takes: bool) -> Result<u64, NoMemory> {
    let copies = AtomicU64::new(0);
    let mut map = filled(alloc, count, &copies)?;
    let fork = map.fork()?;
    let before = copies.load(Ordering::SeqCst);
    if takes {
        map.take(&Number(key))?;
    } else {
        map.set(Number(key), Counted { copies: &copies })?;
    }
    drop(fork);
    drop(map);
    Ok(copies.load(Ordering::SeqCst).saturating_sub(before))
}

/// One page has at most 64 pairs.
#[test]
fn a_change_under_a_fork_copies_one_page(rt: HostRuntime) -> Result<(), Fail> {
    let table = [
        (0u64, false),
        (500, false),
        (500, true),
        (999, true),
        (1_000, false),
    ];
    for (key, takes) in table {
        let copies = copied(rt.alloc(), 1_000, key, takes)?;
        assert!(rt; 0 < copies && copies <= 64, "{key}: {copies}");
    }
    Ok(())
}
