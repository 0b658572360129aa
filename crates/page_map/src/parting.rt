//! Shelves of chunks that another shelf has, which are shared from then on.
ghost use Rattle.std.specs.Prelude.{◌≡◌, ◌<◌, ◌≤◌, ◌++◌, length, IfOk};
ghost use Rattle.std.specs.List.{All, flat_map};
ghost use Rattle.page_map.specs.declared.limits.TheConstants.{MOST_PAIRS};
ghost use Rattle.page_map.specs.inner.Chunks.{shared_entries, shelf_entries, IsChunk, IsShelf};

use crate::chunk::Chunk;
use crate::finding::count_before;
use crate::sharing::share;
use crate::shelf::Shelf;
use geo_base::NoMemory;
use std::alloc::Global;
use std::sync::Arc;

/// A shelf of the chunks, which have so many pairs.
pub(crate) fn shelf_of<K: Ord, V, C: Chunk<K, V>>(
    alloc: Global,
    chunks: &[Arc<C>],
    count: u64,
) -> Result<Shelf<C>, NoMemory>
    requires chunks { All (IsChunk C.entries C.sound) chunks.now }
    requires counted { count ≡ length (flat_map (shared_entries C.entries) chunks.now) }
    requires small { length (flat_map (shared_entries C.entries) chunks.now) ≤ MOST_PAIRS }
    ensures pairs { IfOk result (λ shelf. shelf_entries C.entries shelf ≡ flat_map (shared_entries C.entries) chunks.now) }
    ensures whole { IfOk result (λ shelf. IsShelf C.entries C.sound shelf) }
{
    let shared = share(alloc, chunks)?;
    Ok(Shelf {
        count,
        chunks: shared,
    })
}

/// A shelf of the chunks before the place, and one of those from there on.
pub(crate) fn parts_at<K: Ord, V, C: Chunk<K, V>>(
    shelf: &Shelf<C>,
    alloc: Global,
    place: usize,
) -> Result<(Shelf<C>, Shelf<C>), NoMemory>
    requires whole { IsShelf C.entries C.sound shelf.now }
    requires some { 0 < place }
    requires within { place < length shelf.now.chunks.items }
    ensures pairs { IfOk result (λ both. shelf_entries C.entries shelf.now ≡ shelf_entries C.entries both.0 ++ shelf_entries C.entries both.1) }
    ensures whole { IfOk result (λ both. IsShelf C.entries C.sound both.0 × IsShelf C.entries C.sound both.1) }
    ensures some { IfOk result (λ both. (0 < length (shelf_entries C.entries both.0)) × (0 < length (shelf_entries C.entries both.1))) }
{
    let count = count_before::<K, V, C>(shelf, place);
    let (first, last) = shelf.chunks.as_slice().split_at(place);
    let first = shelf_of::<K, V, C>(alloc, first, count)?;
    let last = shelf_of::<K, V, C>(alloc, last, shelf.count - count)?;
    Ok((first, last))
}
