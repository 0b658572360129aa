//! What pages and shelves have in common.
ghost use Rattle.std.specs.Prelude.{◌≡◌, ◌++◌, ◌<◌, ◌≤◌, [], ◌∷◌, length, map, take, drop, Some, IfOk, OnOk, OnErr, IsTrue, IsFalse, option_copied};
ghost use Rattle.std.specs.List.{slice_get};
ghost use Rattle.page_map.specs.Borders.{IsBorder, border_in};
ghost use Rattle.page_map.specs.Pairs.{IsRising, found_at, put_in, without};

use crate::border::Border;
use geo_base::NoMemory;
use std::alloc::Global;

/// A part of a map: its pairs rise, and each call speaks of the list of them alone.
pub(crate) trait Chunk<K: Ord, V>: Drop {
    ghost use Rattle.std.specs.Prelude.{List, ℕ};
    ghost use Rattle.page_map.specs.declared.limits.TheConstants.{MOST_PAIRS};

    ghost entries: { Self → List (K × V) };

    ghost sound: { Self → Type 0 };

    ghost room: { Self → Type 0 };

    ghost parts: { Self → ℕ };

    /// A chunk of one pair.
    fn of_one(alloc: Global, key: K, value: V) -> Result<Self, NoMemory>
    where
        Self: Sized,
        ensures pairs { IfOk result (λ one. entries one ≡ (key, value) ∷ []) }
        ensures whole { IfOk result (λ one. sound one) };

    /// How many pairs there are.
    fn count(&self) -> u64
        requires { sound self.now }
        ensures pairs { result ≡ length (entries self.now) }
        ensures small { result ≤ MOST_PAIRS };

    /// Whether it has to be halved before a pair is added.
    fn is_full(&self) -> bool
        requires { sound self.now }
        ensures room { IsFalse result → room self.now }
        ensures full { IsTrue result → 2 ≤ parts self.now };

    /// The value at the key.
    fn get(&self, key: &K) -> Option<&V>
        requires whole { sound self.now }
        requires rising { IsRising K.cmp (entries self.now) }
        requires some { 0 < length (entries self.now) }
        ensures { option_copied result ≡ found_at K.cmp key.now (entries self.now) };

    /// How many keys stand before the border.
    fn place_where<B: Border<K>>(&self, border: &B) -> u64
        requires whole { sound self.now }
        requires parted { IsBorder (B.before border.now) (entries self.now) }
        requires some { 0 < length (entries self.now) }
        ensures { result ≡ border_in (B.before border.now) (entries self.now) };

    /// The pair at the place.
    fn at(&self, place: u64) -> (&K, &V)
        requires whole { sound self.now }
        requires within { place < length (entries self.now) }
        ensures { slice_get (entries self.now) place ≡ Some (result.0.now, result.1.now) };

    /// Adds so many pairs from the place on, or as many as there are, to those that were found.
    fn list<'a>(
        &'a self,
        place: u64,
        count: u64,
        found: &mut Vec<(&'a K, &'a V)>,
    ) -> Result<(), NoMemory>
        requires whole { sound self.now }
        requires within { place < length (entries self.now) }
        ensures { OnOk result (map (λ pair. (pair.0.now, pair.1.now)) found.new.items ≡ map (λ pair. (pair.0.now, pair.1.now)) found.old.items ++ take count (drop place (entries self.entry.now))) };

    /// Puts the value at the key, and gives the one that was there.
    fn set(&mut self, alloc: Global, key: K, value: V) -> Result<Option<V>, NoMemory>
        requires whole { sound self.old }
        requires rising { IsRising K.cmp (entries self.old) }
        requires some { 0 < length (entries self.old) }
        requires room { room self.old }
        requires small { length (entries self.old) < MOST_PAIRS }
        ensures whole { sound self.new }
        ensures old { IfOk result (λ old. old ≡ found_at K.cmp key (entries self.old)) }
        ensures new { OnOk result (entries self.new ≡ put_in K.cmp key value (entries self.old)) }
        ensures err { OnErr result (entries self.new ≡ entries self.old) };

    /// Takes the pair of the key out, and gives its value.
    fn take(&mut self, alloc: Global, key: &K) -> Result<Option<V>, NoMemory>
        requires whole { sound self.old }
        requires rising { IsRising K.cmp (entries self.old) }
        requires some { 0 < length (entries self.old) }
        ensures whole { sound self.new }
        ensures old { IfOk result (λ old. old ≡ found_at K.cmp key.now (entries self.old)) }
        ensures new { OnOk result (entries self.new ≡ without K.cmp key.now (entries self.old)) }
        ensures err { OnErr result (entries self.new ≡ entries self.old) };

    /// A chunk with the same pairs, which shares what lies below it.
    fn duplicate(&self, alloc: Global) -> Result<Self, NoMemory>
    where
        Self: Sized,
        requires { sound self.now }
        ensures pairs { IfOk result (λ copy. entries copy ≡ entries self.now) }
        ensures whole { IfOk result (λ copy. sound copy) }
        ensures room { room self.now → IfOk result (λ copy. room copy) };

    /// Two chunks with the first and the last of its pairs.
    fn halves(&self, alloc: Global) -> Result<(Self, Self), NoMemory>
    where
        Self: Sized,
        requires whole { sound self.now }
        requires full { 2 ≤ parts self.now }
        ensures pairs { IfOk result (λ both. entries self.now ≡ entries both.0 ++ entries both.1) }
        ensures whole { IfOk result (λ both. sound both.0 × sound both.1) }
        ensures some { IfOk result (λ both. (0 < length (entries both.0)) × (0 < length (entries both.1))) }
        ensures room { IfOk result (λ both. room both.0 × room both.1) };
}
