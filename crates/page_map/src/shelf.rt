//! Shelves: chunks beside one another, each of which several maps may share.
use crate::border::Border;
use crate::changing::{set_at, take_at};
use crate::chunk::Chunk;
use crate::finding::{border_chunk, count_before, find_place, place_for};
use crate::limits::SHELF_CHUNKS;
use crate::listing::add_chunks;
use crate::making_room::make_room;
use crate::parting::{parts_at, shelf_of};
use geo_base::{Duplicate, NoMemory};
use std::alloc::Global;
use std::sync::Arc;

/// Chunks in the order of their keys, and how many pairs there are in all of them.
#[derive(Drop)]
pub(crate) struct Shelf<C> {
    pub(crate) count: u64,
    pub(crate) chunks: Vec<Arc<C>>,
}

impl<K: Ord + Duplicate + Drop, V: Duplicate + Drop, C: Chunk<K, V>> Chunk<K, V> for Shelf<C> {
    ghost use Rattle.std.specs.Prelude.{length};
    ghost use Rattle.page_map.specs.inner.Chunks.{shelf_entries, IsShelf};

    ghost entries = { shelf_entries C.entries };

    ghost sound = { IsShelf C.entries C.sound };

    ghost room = { λ shelf. Unit {0} };

    ghost parts = { λ shelf. length shelf.chunks.items };

    fn of_one(alloc: Global, key: K, value: V) -> Result<Shelf<C>, NoMemory> {
        let chunk = Arc::new(alloc, C::of_one(alloc, key, value)?)?;
        let mut chunks = Vec::new(alloc);
        chunks.push(chunk)?;
        Ok(Shelf { count: 1, chunks })
    }

    fn count(&self) -> u64 {
        self.count
    }

    fn is_full(&self) -> bool {
        self.chunks.len() >= SHELF_CHUNKS
    }

    fn get(&self, key: &K) -> Option<&V> {
        let place = place_for::<K, V, C>(self, key);
        self.chunks[place].get(key)
    }

    fn place_where<B: Border<K>>(&self, border: &B) -> u64 {
        let place = border_chunk::<K, V, C, B>(self, border);
        count_before::<K, V, C>(self, place) + self.chunks[place].place_where(border)
    }

    fn at(&self, place: u64) -> (&K, &V) {
        let (chunk, rest) = find_place::<K, V, C>(self, place);
        self.chunks[chunk].at(rest)
    }

    fn list<'a>(
        &'a self,
        place: u64,
        count: u64,
        found: &mut Vec<(&'a K, &'a V)>,
    ) -> Result<(), NoMemory> {
        add_chunks::<K, V, C>(self, place, count, found)
    }

    fn set(&mut self, alloc: Global, key: K, value: V) -> Result<Option<V>, NoMemory> {
        let place = make_room::<K, V, C>(self, alloc, &key)?;
        set_at::<K, V, C>(self, place, alloc, key, value)
    }

    fn take(&mut self, alloc: Global, key: &K) -> Result<Option<V>, NoMemory> {
        let place = place_for::<K, V, C>(self, key);
        take_at::<K, V, C>(self, place, alloc, key)
    }

    fn duplicate(&self, alloc: Global) -> Result<Shelf<C>, NoMemory> {
        shelf_of::<K, V, C>(alloc, self.chunks.as_slice(), self.count)
    }

    fn halves(&self, alloc: Global) -> Result<(Shelf<C>, Shelf<C>), NoMemory> {
        parts_at::<K, V, C>(self, alloc, self.chunks.len() / 2)
    }
}
