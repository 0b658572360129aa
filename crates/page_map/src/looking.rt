//! What a whole map is asked, which has no root while it is empty.
ghost use Rattle.std.specs.Prelude.{◌≡◌, map, slice_range, IfOk, option_copied};
ghost use Rattle.std.specs.Option.{option_map};
ghost use Rattle.std.specs.List.{slice_get};
ghost use Rattle.page_map.specs.Borders.{IsBorder, border_in};
ghost use Rattle.page_map.specs.Pairs.{IsRising, found_at};
ghost use Rattle.page_map.specs.inner.Chunks.{root_entries, IsRoot};

use crate::border::Border;
use crate::chunk::Chunk;
use geo_base::NoMemory;
use std::alloc::Global;
use std::sync::Arc;

/// The value at the key.
pub(crate) fn get_root<'a, K: Ord, V, C: Chunk<K, V>>(
    root: &'a Option<Arc<C>>,
    key: &K,
) -> Option<&'a V>
    requires whole { IsRoot C.entries C.sound root.now }
    requires rising { IsRising K.cmp (root_entries C.entries root.now) }
    ensures { option_copied result ≡ found_at K.cmp key.now (root_entries C.entries root.now) }
{
    match root {
        Some(top) => top.get(key),
        None => None,
    }
}

/// How many keys stand before the border.
pub(crate) fn border_root<K: Ord, V, C: Chunk<K, V>, B: Border<K>>(
    root: &Option<Arc<C>>,
    border: &B,
) -> u64
    requires whole { IsRoot C.entries C.sound root.now }
    requires parted { IsBorder (B.before border.now) (root_entries C.entries root.now) }
    ensures { result ≡ border_in (B.before border.now) (root_entries C.entries root.now) }
{
    match root {
        Some(top) => top.place_where(border),
        None => 0,
    }
}

/// The pair at the place.
pub(crate) fn at_root<'a, K: Ord, V, C: Chunk<K, V>>(
    root: &'a Option<Arc<C>>,
    place: u64,
) -> Option<(&'a K, &'a V)>
    requires { IsRoot C.entries C.sound root.now }
    ensures { option_map (λ pair. (pair.0.now, pair.1.now)) result ≡ slice_get (root_entries C.entries root.now) place }
{
    match root {
        Some(top) => {
            if place < top.count() {
                return Some(top.at(place));
            }
            None
        }
        None => None,
    }
}

/// The pairs at the places from the first on and before the last.
pub(crate) fn between_root<'a, K: Ord, V, C: Chunk<K, V>>(
    root: &'a Option<Arc<C>>,
    alloc: Global,
    first: u64,
    last: u64,
) -> Result<Vec<(&'a K, &'a V)>, NoMemory>
    requires { IsRoot C.entries C.sound root.now }
    ensures { IfOk result (λ found. map (λ pair. (pair.0.now, pair.1.now)) found.items ≡ slice_range (root_entries C.entries root.entry.now) first last) }
{
    let mut found = Vec::new(alloc);
    let Some(top) = root else {
        return Ok(found);
    };
    if last <= first {
        return Ok(found);
    }
    if top.count() <= first {
        return Ok(found);
    }
    top.list(first, last - first, &mut found)?;
    Ok(found)
}
