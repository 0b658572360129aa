//! Pages: the pairs themselves, at the bottom of a map.
ghost use Rattle.std.specs.Prelude.{◌≡◌, ◌<◌, ◌≤◌, length, IfOk, IfErr};
ghost use Rattle.page_map.specs.Borders.{IsBorder, border_in};
ghost use Rattle.page_map.specs.Pairs.{IsRising};
ghost use Rattle.page_map.specs.inner.Cuts.{IsFoundAt, IsGapAt};

use crate::border::Border;
use crate::chunk::Chunk;
use crate::limits::PAGE_PAIRS;
use crate::listing::add_pairs;
use geo_base::{Duplicate, NoMemory};
use std::alloc::Global;
use std::cmp::Ordering;
use std::mem;

/// Pairs in the order of their keys, at most [`PAGE_PAIRS`].
#[derive(Drop)]
pub(crate) struct Page<K, V> {
    entries: Vec<(K, V)>,
}

/// The place of the pair that has the key, or else the place where it would stand.
fn search<K: Ord, V>(page: &Page<K, V>, key: &K) -> Result<usize, usize>
    requires { IsRising K.cmp page.now.entries.items }
    ensures found { IfOk result (IsFoundAt K.cmp key.now page.now.entries.items) }
    ensures gap { IfErr result (IsGapAt K.cmp key.now page.now.entries.items) }
{
    let mut low = 0;
    let mut high = page.entries.len();
    while low < high {
        let middle = low + (high - low) / 2;
        match page.entries[middle].0.cmp(key) {
            Ordering::Less => low = middle + 1,
            Ordering::Greater => high = middle,
            Ordering::Equal => return Ok(middle),
        }
    }
    Err(low)
}

/// How many keys stand before the border.
fn border_of<K, V, B: Border<K>>(page: &Page<K, V>, border: &B) -> usize
    requires { IsBorder (B.before border.now) page.now.entries.items }
    ensures { result ≡ border_in (B.before border.now) page.now.entries.items }
{
    let mut low = 0;
    let mut high = page.entries.len();
    while low < high {
        let middle = low + (high - low) / 2;
        if border.comes_after(&page.entries[middle].0) {
            low = middle + 1;
        } else {
            high = middle;
        }
    }
    low
}

/// A copy of a pair.
fn copy_pair<K: Duplicate + Drop, V: Duplicate + Drop>(
    alloc: Global,
    pair: &(K, V),
) -> Result<(K, V), NoMemory>
    ensures { IfOk result (λ copy. copy ≡ pair.now) }
{
    let key = pair.0.copy(alloc)?;
    let value = pair.1.copy(alloc)?;
    Ok((key, value))
}

/// Copies of all pairs, in their order.
fn copy_pairs<K: Duplicate + Drop, V: Duplicate + Drop>(
    alloc: Global,
    pairs: &[(K, V)],
) -> Result<Vec<(K, V)>, NoMemory>
    ensures { IfOk result (λ copies. copies.items ≡ pairs.now) }
{
    let mut copies = Vec::with_capacity(alloc, pairs.len())?;
    for pair in pairs {
        copies.push(copy_pair(alloc, pair)?)?;
    }
    Ok(copies)
}

impl<K: Ord + Duplicate + Drop, V: Duplicate + Drop> Chunk<K, V> for Page<K, V> {
    ghost use Rattle.std.specs.Prelude.{◌<◌, length};
    ghost use Rattle.page_map.specs.declared.limits.TheConstants.{PAGE_PAIRS};
    ghost use Rattle.page_map.specs.inner.Chunks.{page_entries, IsPage};

    ghost entries = { page_entries };

    ghost sound = { IsPage };

    ghost room = { λ page. length page.entries.items < PAGE_PAIRS };

    ghost parts = { λ page. length page.entries.items };

    fn of_one(alloc: Global, key: K, value: V) -> Result<Page<K, V>, NoMemory> {
        let mut entries = Vec::new(alloc);
        entries.push((key, value))?;
        Ok(Page { entries })
    }

    fn count(&self) -> u64 {
        self.entries.len() as u64
    }

    fn is_full(&self) -> bool {
        self.entries.len() >= PAGE_PAIRS
    }

    fn get(&self, key: &K) -> Option<&V> {
        match search(self, key) {
            Ok(place) => Some(&self.entries[place].1),
            Err(_) => None,
        }
    }

    fn place_where<B: Border<K>>(&self, border: &B) -> u64 {
        border_of(self, border) as u64
    }

    fn at(&self, place: u64) -> (&K, &V) {
        let pair = &self.entries[place as usize];
        (&pair.0, &pair.1)
    }

    fn list<'a>(
        &'a self,
        place: u64,
        count: u64,
        found: &mut Vec<(&'a K, &'a V)>,
    ) -> Result<(), NoMemory> {
        let (_, behind) = self.entries.as_slice().split_at(place as usize);
        if count < behind.len() as u64 {
            let (front, _) = behind.split_at(count as usize);
            return add_pairs(front, found);
        }
        add_pairs(behind, found)
    }

    fn set(&mut self, _alloc: Global, key: K, value: V) -> Result<Option<V>, NoMemory> {
        match search(self, &key) {
            Ok(place) => {
                let (_, old) = mem::replace(&mut self.entries[place], (key, value));
                Ok(Some(old))
            }
            Err(place) => {
                self.entries.insert(place, (key, value))?;
                Ok(None)
            }
        }
    }

    fn take(&mut self, _alloc: Global, key: &K) -> Result<Option<V>, NoMemory> {
        match search(self, key) {
            Ok(place) => {
                let (_, old) = self.entries.remove(place);
                Ok(Some(old))
            }
            Err(_) => Ok(None),
        }
    }

    fn duplicate(&self, alloc: Global) -> Result<Page<K, V>, NoMemory> {
        let entries = copy_pairs(alloc, self.entries.as_slice())?;
        Ok(Page { entries })
    }

    fn halves(&self, alloc: Global) -> Result<(Page<K, V>, Page<K, V>), NoMemory> {
        let (first, last) = self.entries.as_slice().split_at(self.entries.len() / 2);
        let first = Page {
            entries: copy_pairs(alloc, first)?,
        };
        let last = Page {
            entries: copy_pairs(alloc, last)?,
        };
        Ok((first, last))
    }
}
