//! Finding the chunk of a shelf in which a key or a place lies.
ghost use Rattle.std.specs.Prelude.{◌≡◌, ◌+◌, ◌<◌, ◌≤◌, Some, length, take, slice_get, slice_index_or};
ghost use Rattle.std.specs.List.{flat_map};
ghost use Rattle.std.specs.Arc.{arc_value};
ghost use Rattle.page_map.specs.Borders.{IsBorder};
ghost use Rattle.page_map.specs.Pairs.{IsRising};
ghost use Rattle.page_map.specs.inner.Cuts.{IsBorderedIn, IsInChunk, head_is_over};
ghost use Rattle.page_map.specs.inner.Chunks.{shared_entries, shelf_entries, IsChunk, IsShelf};

use crate::border::Border;
use crate::chunk::Chunk;
use crate::shelf::Shelf;
use std::sync::Arc;

/// Whether the first key of the chunk is above the key.
pub(crate) fn begins_above<K: Ord, V, C: Chunk<K, V>>(chunk: &Arc<C>, key: &K) -> bool
    requires { IsChunk C.entries C.sound chunk.now }
    ensures { result ≡ head_is_over K.cmp key.now (C.entries (arc_value chunk.now)) }
{
    chunk.at(0).0.cmp(key).is_gt()
}

/// The place of the chunk in which the key lies, if it is there, and else belongs.
pub(crate) fn place_for<K: Ord, V, C: Chunk<K, V>>(shelf: &Shelf<C>, key: &K) -> usize
    requires whole { IsShelf C.entries C.sound shelf.now }
    requires rising { IsRising K.cmp (shelf_entries C.entries shelf.now) }
    requires some { 0 < length (shelf_entries C.entries shelf.now) }
    ensures { IsInChunk K.cmp (shared_entries C.entries) key.now shelf.now.chunks.items result }
{
    let mut low = 0;
    let mut high = shelf.chunks.len();
    while low + 1 < high {
        let middle = low + (high - low) / 2;
        if begins_above::<K, V, C>(&shelf.chunks[middle], key) {
            high = middle;
        } else {
            low = middle;
        }
    }
    low
}

/// Whether the chunk's first key stands before the border.
fn begins_before<K: Ord, V, C: Chunk<K, V>, B: Border<K>>(chunk: &Arc<C>, border: &B) -> bool
    requires { IsChunk C.entries C.sound chunk.now }
    ensures { (first : K × V) × (slice_get (C.entries (arc_value chunk.now)) 0 ≡ Some first) × (result ≡ B.before border.now first.0) }
{
    border.comes_after(chunk.at(0).0)
}

/// The place of the chunk in which the border lies.
pub(crate) fn border_chunk<K: Ord, V, C: Chunk<K, V>, B: Border<K>>(
    shelf: &Shelf<C>,
    border: &B,
) -> usize
    requires whole { IsShelf C.entries C.sound shelf.now }
    requires parted { IsBorder (B.before border.now) (shelf_entries C.entries shelf.now) }
    requires some { 0 < length (shelf_entries C.entries shelf.now) }
    ensures { IsBorderedIn (B.before border.now) (shared_entries C.entries) shelf.now.chunks.items result (result + 1) }
{
    let mut low = 0;
    let mut high = shelf.chunks.len();
    while low + 1 < high {
        let middle = low + (high - low) / 2;
        if begins_before::<K, V, C, B>(&shelf.chunks[middle], border) {
            low = middle;
        } else {
            high = middle;
        }
    }
    low
}

/// How many pairs stand in the chunks before the place.
pub(crate) fn count_before<K: Ord, V, C: Chunk<K, V>>(shelf: &Shelf<C>, place: usize) -> u64
    requires whole { IsShelf C.entries C.sound shelf.now }
    requires within { place ≤ length shelf.now.chunks.items }
    ensures { result ≡ length (flat_map (shared_entries C.entries) (take place shelf.now.chunks.items)) }
{
    let mut count = 0;
    for chunk in 0..place {
        count += shelf.chunks[chunk].count();
    }
    count
}

/// The place of the chunk in which the pair at the place stands, and its place there.
pub(crate) fn find_place<K: Ord, V, C: Chunk<K, V>>(shelf: &Shelf<C>, place: u64) -> (usize, u64)
    requires whole { IsShelf C.entries C.sound shelf.now }
    requires within { place < length (shelf_entries C.entries shelf.now) }
    ensures chunk { result.0 < length shelf.now.chunks.items }
    ensures rest { (d : _) → result.1 < length (shared_entries C.entries (slice_index_or shelf.now.chunks.items result.0 d)) }
    ensures place { length (flat_map (shared_entries C.entries) (take result.0 shelf.now.chunks.items)) + result.1 ≡ place }
{
    let mut chunk = 0;
    let mut rest = place;
    let mut count = shelf.chunks[0].count();
    while count <= rest {
        rest -= count;
        chunk += 1;
        count = shelf.chunks[chunk].count();
    }
    (chunk, rest)
}
