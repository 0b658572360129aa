//! Places of borders, and the pairs between two places.
ghost use Rattle.std.specs.Prelude.{◌≡◌};

use crate::number::Number;
use geo_base::{Duplicate, NoMemory};
use page_map::{Border, PageMap};
use std::alloc::Global;
use std::test::Fail;

/// The border behind a key, which need not be in the map.
#[derive(Drop)]
struct Behind<'a, K> {
    key: &'a K,
}

impl<'a, K: Ord> Border<K> for Behind<'a, K> {
    ghost use Rattle.std.specs.Prelude.{not};
    ghost use Rattle.std.specs.Ordering.{is_gt};

    ghost before = { λ border other. not (is_gt (K.cmp other border.key.now)) };

    fn comes_after(&self, key: &K) -> bool {
        !key.cmp(self.key).is_gt()
    }
}

/// How many keys are not above the key.
fn place_behind<K: Ord + Duplicate + Drop, V: Duplicate + Drop>(
    map: &PageMap<K, V>,
    key: &K,
) -> u64 {
    map.rises();
    map.place_where(&Behind { key })
}

/// Each third number from 0 on, so many of them, each with its place as its value.
fn thirds(alloc: Global, count: u64) -> Result<PageMap<Number, Number>, NoMemory> {
    let mut map = PageMap::empty(alloc);
    for place in 0..count {
        map.set(Number(place.saturating_mul(3)), Number(place))?;
    }
    Ok(map)
}

#[test]
fn a_border_need_be_no_key(rt: HostRuntime) -> Result<(), Fail> {
    let map = thirds(rt.alloc(), 10_000)?;
    let table = [
        (0u64, 1u64),
        (2, 1),
        (3, 2),
        (14_999, 5_000),
        (15_000, 5_001),
        (29_996, 9_999),
        (29_997, 10_000),
        (u64::MAX, 10_000),
    ];
    for (key, place) in table {
        assert_eq!(rt; place_behind(&map, &Number(key)), place, "{key}");
    }
    let empty = thirds(rt.alloc(), 0)?;
    assert_eq!(rt; place_behind(&empty, &Number(7)), 0);
    Ok(())
}

/// Whether the pairs between the places are so many, and each has its place for its value and thrice that for its
/// key, by leaps from one pair to the next.
fn stands_between(
    map: &PageMap<Number, Number>,
    first: u64,
    last: u64,
    count: u64,
    leap: u64,
) -> Result<bool, NoMemory> {
    let found = map.between(first, last)?;
    let mut seen = 0u64;
    for pair in &found {
        let place = first.saturating_add(seen).saturating_mul(leap);
        if pair.0.0 != place.saturating_mul(3) || pair.1.0 != place {
            return Ok(false);
        }
        seen = seen.saturating_add(1);
    }
    Ok(seen == count)
}

#[test]
fn pairs_between_places(rt: HostRuntime) -> Result<(), Fail> {
    let table = [
        (0u64, 0u64, 5u64, 0u64),
        (1, 0, 1, 1),
        (1_000, 0, 1_000, 1_000),
        (1_000, 0, u64::MAX, 1_000),
        (1_000, 998, 5_000, 2),
        (1_000, 40, 40, 0),
        (1_000, 41, 40, 0),
        (1_000, 1_000, 1_001, 0),
        (10_000, 63, 65, 2),
        (10_000, 4_000, 6_000, 2_000),
    ];
    for (size, first, last, count) in table {
        let map = thirds(rt.alloc(), size)?;
        assert!(rt;
            stands_between(&map, first, last, count, 1)?,
            "{size} {first}"
        );
    }
    Ok(())
}

/// Most pages have one pair left, and some are gone.
#[test]
fn pairs_that_stand_far_apart(rt: HostRuntime) -> Result<(), Fail> {
    let mut map = thirds(rt.alloc(), 10_000)?;
    for place in 0..10_000u64 {
        if place % 50 != 0 {
            map.take(&Number(place.saturating_mul(3)))?;
        }
    }
    assert!(rt; stands_between(&map, 0, 200, 200, 50)?);
    assert!(rt; stands_between(&map, 77, 133, 56, 50)?);
    Ok(())
}
