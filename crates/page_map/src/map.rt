//! The map itself.
ghost use Rattle.std.specs.Prelude.{◌≡◌, [], length, map, slice_range, IfOk, OnOk, OnErr, option_copied};
ghost use Rattle.std.specs.Option.{option_map};
ghost use Rattle.std.specs.List.{slice_get};
ghost use Rattle.page_map.specs.Borders.{IsBorder, border_in};
ghost use Rattle.page_map.specs.Pairs.{IsRising, found_at, put_in, without, place_in};

use crate::border::{Below, Border};
use crate::looking::{at_root, between_root, border_root, get_root};
use crate::page::Page;
use crate::root::{set_root, take_root};
use crate::shelf::Shelf;
use geo_base::{Duplicate, NoMemory};
use std::alloc::Global;
use std::marker::Model;
use std::sync::Arc;

/// Three shelves over pages. It stands here alone, since each function at so deep a type is dear to check.
type Top<K, V> = Shelf<Shelf<Shelf<Page<K, V>>>>;

/// An ordered map whose forks don't change with it. Contracts see the list of its pairs, by rising keys.
///
/// A fork shares everything with its source until one of them changes. A search takes as many comparisons as
/// the number of pairs has binary digits, about, and goes from a shelf's chunk down to its first page for each.
#[derive(Drop)]
pub struct PageMap<K: Ord, V> {
    alloc: Global,
    root: Option<Arc<Top<K, V>>>,
}

impl<K: Ord, V> Model for PageMap<K, V> {
    ghost use Rattle.std.specs.Prelude.{List};
    ghost use Rattle.std.specs.Coded.{coded_list, coded×};

    ghost Value = { List (K × V) };

    ghost coded = { coded_list (coded× K.code V.code) };

    ghost use Rattle.page_map.specs.Pairs.{IsRising};
    ghost use Rattle.page_map.specs.inner.Chunks.{root_entries, top_entries, IsRoot, IsTop};

    ghost view = { λ m. root_entries top_entries m.root };

    ghost invariant = { λ m. IsRoot top_entries IsTop m.root × IsRising K.cmp (root_entries top_entries m.root) };
}

impl<K: Ord + Duplicate + Drop, V: Duplicate + Drop> PageMap<K, V> {
    /// The map without pairs. Takes no memory.
    pub fn empty(alloc: Global) -> PageMap<K, V>
        ensures { result ≡ [] }
    {
        PageMap { alloc, root: None }
    }

    /// That the keys rise, and none comes twice. Does nothing when it runs.
    pub fn rises(&self)
        ensures { IsRising K.cmp self.now }
    {
        let _root = &self.root;
    }

    /// How many pairs there are. Takes no memory, and one step.
    pub fn len(&self) -> u64
        ensures { result ≡ length self.now }
    {
        match &self.root {
            Some(root) => root.count,
            None => 0,
        }
    }

    /// The value at the key. Takes no memory, and one search.
    pub fn get(&self, key: &K) -> Option<&V>
        ensures { option_copied result ≡ found_at K.cmp key.now self.now }
    {
        get_root::<K, V, Top<K, V>>(&self.root, key)
    }

    /// How many keys are below the key. Takes no memory, one search, and a look at the count of each chunk that
    /// stands before it in its shelf: at most 128 in each of three shelves, and more in the uppermost past some
    /// millions of pairs.
    pub fn place_of(&self, key: &K) -> u64
        ensures { result ≡ place_in K.cmp key.now self.now }
    {
        self.rises();
        self.place_where(&Below { key })
    }

    /// How many keys stand before the border, which is the place of the first pair from it on. Costs what
    /// [`place_of`] costs.
    ///
    /// [`place_of`]: PageMap::place_of
    pub fn place_where<B: Border<K>>(&self, border: &B) -> u64
        requires { IsBorder (B.before border.now) self.now }
        ensures { result ≡ border_in (B.before border.now) self.now }
    {
        border_root::<K, V, Top<K, V>, B>(&self.root, border)
    }

    /// The pair at the place, counted from 0. Takes no memory, and as many looks at counts as [`place_of`].
    ///
    /// [`place_of`]: PageMap::place_of
    pub fn at(&self, place: u64) -> Option<(&K, &V)>
        ensures { option_map (λ pair. (pair.0.now, pair.1.now)) result ≡ slice_get self.now place }
    {
        at_root::<K, V, Top<K, V>>(&self.root, place)
    }

    /// The pairs at the places from the first on and before the last, in their order, and none behind the end of
    /// the map. Takes memory for the answer, a look at counts as [`place_of`] for the first pair, and a step for
    /// each.
    ///
    /// [`place_of`]: PageMap::place_of
    pub fn between(&self, first: u64, last: u64) -> Result<Vec<(&K, &V)>, NoMemory>
        ensures { IfOk result (λ found. map (λ pair. (pair.0.now, pair.1.now)) found.items ≡ slice_range self.now first last) }
    {
        between_root::<K, V, Top<K, V>>(&self.root, self.alloc, first, last)
    }

    /// Puts the value at the key, and gives the one that was there. An error leaves the map as it was.
    ///
    /// Takes a search and moves within one page, where no fork shares it. What a fork shares is copied first, on
    /// the way to the key alone: one page with its keys and values, and of three shelves the pointers to their
    /// chunks. A page of 64 pairs, or a shelf of 128 chunks, is halved into two copies on the way.
    pub fn set(&mut self, key: K, value: V) -> Result<Option<V>, NoMemory>
        ensures old { IfOk result (λ old. old ≡ found_at K.cmp key self.old) }
        ensures new { OnOk result (self.new ≡ put_in K.cmp key value self.old) }
        ensures err { OnErr result (self.new ≡ self.old) }
    {
        set_root::<K, V, Top<K, V>>(&mut self.root, self.alloc, key, value)
    }

    /// Takes the pair of the key out, and gives its value. An error leaves the map as it was.
    ///
    /// Costs what [`set`] costs without halving, also where the key isn't there.
    ///
    /// [`set`]: PageMap::set
    pub fn take(&mut self, key: &K) -> Result<Option<V>, NoMemory>
        ensures old { IfOk result (λ old. old ≡ found_at K.cmp key.now self.old) }
        ensures new { OnOk result (self.new ≡ without K.cmp key.now self.old) }
        ensures err { OnErr result (self.new ≡ self.old) }
    {
        take_root::<K, V, Top<K, V>>(&mut self.root, self.alloc, key)
    }

    /// A map of the same pairs, which doesn't change when this one does. Takes one step: one pointer is shared.
    pub fn fork(&self) -> Result<PageMap<K, V>, NoMemory>
        ensures { IfOk result (λ fork. fork ≡ self.now) }
    {
        match &self.root {
            Some(root) => Ok(PageMap {
                alloc: self.alloc,
                root: Some(Arc::try_clone(root)?),
            }),
            None => Ok(PageMap {
                alloc: self.alloc,
                root: None,
            }),
        }
    }
}
