//! Changes of one chunk of a shelf.
ghost use Rattle.std.specs.Prelude.{◌≡◌, ◌<◌, length, IfOk, OnOk, OnErr, slice_index_or};
ghost use Rattle.std.specs.Arc.{arc_value};
ghost use Rattle.page_map.specs.Pairs.{IsRising, found_at, put_in, without};
ghost use Rattle.page_map.specs.declared.limits.TheConstants.{MOST_PAIRS};
ghost use Rattle.page_map.specs.inner.Cuts.{IsInChunk};
ghost use Rattle.page_map.specs.inner.Chunks.{shared_entries, shelf_entries, IsShelf};

use crate::chunk::Chunk;
use crate::sharing::{set_in, take_in};
use crate::shelf::Shelf;
use geo_base::NoMemory;
use std::alloc::Global;

/// Puts the value at the key, which belongs in the chunk at the place, and gives the one that was there.
pub(crate) fn set_at<K: Ord + Drop, V: Drop, C: Chunk<K, V>>(
    shelf: &mut Shelf<C>,
    place: usize,
    alloc: Global,
    key: K,
    value: V,
) -> Result<Option<V>, NoMemory>
    requires whole { IsShelf C.entries C.sound shelf.old }
    requires rising { IsRising K.cmp (shelf_entries C.entries shelf.old) }
    requires place { IsInChunk K.cmp (shared_entries C.entries) key shelf.old.chunks.items place }
    requires room { (d : _) → C.room (arc_value (slice_index_or shelf.old.chunks.items place d)) }
    requires small { length (shelf_entries C.entries shelf.old) < MOST_PAIRS }
    ensures whole { IsShelf C.entries C.sound shelf.new }
    ensures old { IfOk result (λ old. old ≡ found_at K.cmp key (shelf_entries C.entries shelf.old)) }
    ensures new { OnOk result (shelf_entries C.entries shelf.new ≡ put_in K.cmp key value (shelf_entries C.entries shelf.old)) }
    ensures err { OnErr result (shelf_entries C.entries shelf.new ≡ shelf_entries C.entries shelf.old) }
{
    let before = shelf.chunks[place].count();
    let old = set_in::<K, V, C>(&mut shelf.chunks[place], alloc, key, value)?;
    let after = shelf.chunks[place].count();
    shelf.count = shelf.count - before + after;
    Ok(old)
}

/// Takes the pair of the key out of the chunk at the place, where the key belongs, and gives its value. A chunk
/// that becomes empty goes.
pub(crate) fn take_at<K: Ord, V: Drop, C: Chunk<K, V>>(
    shelf: &mut Shelf<C>,
    place: usize,
    alloc: Global,
    key: &K,
) -> Result<Option<V>, NoMemory>
    requires whole { IsShelf C.entries C.sound shelf.old }
    requires rising { IsRising K.cmp (shelf_entries C.entries shelf.old) }
    requires place { IsInChunk K.cmp (shared_entries C.entries) key.now shelf.old.chunks.items place }
    ensures whole { IsShelf C.entries C.sound shelf.new }
    ensures old { IfOk result (λ old. old ≡ found_at K.cmp key.now (shelf_entries C.entries shelf.old)) }
    ensures new { OnOk result (shelf_entries C.entries shelf.new ≡ without K.cmp key.now (shelf_entries C.entries shelf.old)) }
    ensures err { OnErr result (shelf_entries C.entries shelf.new ≡ shelf_entries C.entries shelf.old) }
{
    let before = shelf.chunks[place].count();
    let old = take_in::<K, V, C>(&mut shelf.chunks[place], alloc, key)?;
    let after = shelf.chunks[place].count();
    shelf.count = shelf.count - before + after;
    if after == 0 {
        drop(shelf.chunks.remove(place));
        return Ok(old);
    }
    Ok(old)
}
