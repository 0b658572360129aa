//! Handing out the pairs that stand in a row.
ghost use Rattle.std.specs.Prelude.{◌≡◌, ◌<◌, ◌++◌, length, map, take, drop, OnOk};
ghost use Rattle.page_map.specs.inner.Chunks.{shelf_entries, IsShelf};

use crate::chunk::Chunk;
use crate::finding::find_place;
use crate::shelf::Shelf;
use geo_base::NoMemory;

/// Adds the pairs to those that were found.
pub(crate) fn add_pairs<'a, K, V>(
    pairs: &'a [(K, V)],
    found: &mut Vec<(&'a K, &'a V)>,
) -> Result<(), NoMemory>
    ensures { OnOk result (map (λ pair. (pair.0.now, pair.1.now)) found.new.items ≡ map (λ pair. (pair.0.now, pair.1.now)) found.old.items ++ pairs.entry.now) }
{
    for pair in pairs {
        found.push((&pair.0, &pair.1))?;
    }
    Ok(())
}

/// Adds so many pairs of the shelf, from the place on, or as many as there are, to those that were found.
pub(crate) fn add_chunks<'a, K: Ord, V, C: Chunk<K, V>>(
    shelf: &'a Shelf<C>,
    place: u64,
    count: u64,
    found: &mut Vec<(&'a K, &'a V)>,
) -> Result<(), NoMemory>
    requires whole { IsShelf C.entries C.sound shelf.now }
    requires within { place < length (shelf_entries C.entries shelf.now) }
    ensures { OnOk result (map (λ pair. (pair.0.now, pair.1.now)) found.new.items ≡ map (λ pair. (pair.0.now, pair.1.now)) found.old.items ++ take count (drop place (shelf_entries C.entries shelf.entry.now))) }
{
    let (first, rest) = find_place::<K, V, C>(shelf, place);
    let mut skipped = rest;
    let mut left = count;
    for chunk in first..shelf.chunks.len() {
        if left == 0 {
            return Ok(());
        }
        let here = &shelf.chunks[chunk];
        here.list(skipped, left, found)?;
        left = left.saturating_sub(here.count() - skipped);
        skipped = 0;
    }
    Ok(())
}
