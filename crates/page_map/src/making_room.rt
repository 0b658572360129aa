//! Making room in a shelf before a pair is put in: what is full is halved, and no pair changes.
ghost use Rattle.std.specs.Prelude.{◌≡◌, ◌+◌, ◌<◌, ◌++◌, ◌∷◌, length, take, drop, IfOk, OnOk, OnErr, slice_index_or};
ghost use Rattle.std.specs.Arc.{arc_value};
ghost use Rattle.page_map.specs.Pairs.{IsRising};
ghost use Rattle.page_map.specs.inner.Cuts.{IsInChunk};
ghost use Rattle.page_map.specs.inner.Chunks.{shared_entries, shelf_entries, IsShelf};

use crate::chunk::Chunk;
use crate::finding::{begins_above, place_for};
use crate::sharing::shared_halves;
use crate::shelf::Shelf;
use geo_base::NoMemory;
use std::alloc::Global;
use std::sync::Arc;

/// Puts two chunks in the place of one.
fn put_halves<C: Drop>(
    shelf: &mut Shelf<C>,
    place: usize,
    first: Arc<C>,
    last: Arc<C>,
) -> Result<(), NoMemory>
    requires { place < length shelf.old.chunks.items }
    ensures count { shelf.new.count ≡ shelf.old.count }
    ensures ok { OnOk result (shelf.new.chunks.items ≡ take place shelf.old.chunks.items ++ (first ∷ (last ∷ drop (place + 1) shelf.old.chunks.items))) }
    ensures err { OnErr result (shelf.new.chunks.items ≡ shelf.old.chunks.items) }
{
    shelf.chunks.insert(place + 1, last)?;
    shelf.chunks[place] = first;
    Ok(())
}

/// Makes room for a pair in the chunk in which the key belongs, and gives the place of that chunk.
pub(crate) fn make_room<K: Ord, V, C: Chunk<K, V>>(
    shelf: &mut Shelf<C>,
    alloc: Global,
    key: &K,
) -> Result<usize, NoMemory>
    requires whole { IsShelf C.entries C.sound shelf.old }
    requires rising { IsRising K.cmp (shelf_entries C.entries shelf.old) }
    requires some { 0 < length (shelf_entries C.entries shelf.old) }
    ensures whole { IsShelf C.entries C.sound shelf.new }
    ensures pairs { shelf_entries C.entries shelf.new ≡ shelf_entries C.entries shelf.old }
    ensures place { IfOk result (IsInChunk K.cmp (shared_entries C.entries) key.now shelf.new.chunks.items) }
    ensures room { IfOk result (λ place. (d : _) → C.room (arc_value (slice_index_or shelf.new.chunks.items place d))) }
{
    let place = place_for::<K, V, C>(shelf, key);
    if !shelf.chunks[place].is_full() {
        return Ok(place);
    }
    let (first, last) = shared_halves::<K, V, C>(&shelf.chunks[place], alloc)?;
    let above = begins_above::<K, V, C>(&last, key);
    put_halves(shelf, place, first, last)?;
    if above {
        return Ok(place);
    }
    Ok(place + 1)
}
