//! The laws of rising lists of pairs, each the contract of a function that does nothing.
ghost use Rattle.std.specs.Prelude.{◌≡◌, ℕ, Bool, true, false, List, Some, None, slice_get, slice_range, take, drop};
ghost use Rattle.std.specs.Ordering.{is_lt, is_eq};
ghost use Rattle.std.specs.Cmp.{IsTotalOrder};
ghost use Rattle.std.specs.declared.cmp.Ordering.{Ordering};
ghost use Rattle.std.specs.declared.cmp.Ordering.TheVariants.{Less, Equal};
ghost use Rattle.page_map.specs.Borders.{IsBorder, pairs_before, pairs_from, border_in, pairs_between};
ghost use Rattle.page_map.specs.Pairs.{IsRising, found_at, put_in, without, place_in};

/// A list still rises when a pair is put in, and when one is taken out.
pub fn changes_keep_rising<K, V>()
    ensures put { (order : K → K → Ordering) → IsTotalOrder order → (key : K) (value : V) (pairs : List (K × V)) →
        IsRising order pairs → IsRising order (put_in order key value pairs) }
    ensures taken { (order : K → K → Ordering) → IsTotalOrder order → (key : K) (pairs : List (K × V)) →
        IsRising order pairs → IsRising order (without order key pairs) }
{}

/// What is found after a change: at the key the value that was put in, or nothing where the pair was taken out,
/// and at each other key what was found before.
pub fn changes_are_found<K, V>()
    ensures put { (order : K → K → Ordering) → IsTotalOrder order → (key : K) (value : V) (pairs : List (K × V)) →
        found_at order key (put_in order key value pairs) ≡ Some value }
    ensures put_elsewhere { (order : K → K → Ordering) → IsTotalOrder order → (key other : K) (value : V) (pairs : List (K × V)) →
        is_eq (order key other) ≡ false →
        found_at order other (put_in order key value pairs) ≡ found_at order other pairs }
    ensures taken { (order : K → K → Ordering) → IsTotalOrder order → (key : K) (pairs : List (K × V)) →
        found_at order key (without order key pairs) ≡ None }
    ensures taken_elsewhere { (order : K → K → Ordering) → IsTotalOrder order → (key other : K) (pairs : List (K × V)) →
        is_eq (order key other) ≡ false →
        found_at order other (without order key pairs) ≡ found_at order other pairs }
{}

/// A pair stands at the place of its key, and a value that is found at a key stands at that key's place.
pub fn keys_have_places<K, V>()
    ensures place { (order : K → K → Ordering) → IsTotalOrder order → (pairs : List (K × V)) (place : ℕ) (pair : K × V) (key : K) →
        IsRising order pairs → slice_get pairs place ≡ Some pair → order pair.0 key ≡ Equal → place_in order key pairs ≡ place }
    ensures found { (order : K → K → Ordering) → IsTotalOrder order → (key : K) (value : V) (pairs : List (K × V)) →
        IsRising order pairs → found_at order key pairs ≡ Some value →
        (same : K) × (order same key ≡ Equal) × (slice_get pairs (place_in order key pairs) ≡ Some (same, value)) }
{}

/// A border is a place: the pairs before it are the first ones, and those from it on the rest. What stands
/// between two borders is what stands between two places.
pub fn borders_are_places<K, V>()
    ensures before { (before : K → Bool) (pairs : List (K × V)) → IsBorder before pairs →
        pairs_before before pairs ≡ take (border_in before pairs) pairs }
    ensures rest { (before : K → Bool) (pairs : List (K × V)) → IsBorder before pairs →
        pairs_from before pairs ≡ drop (border_in before pairs) pairs }
    ensures between { (first last : K → Bool) (pairs : List (K × V)) → IsBorder first pairs → IsBorder last pairs →
        pairs_between first last pairs ≡ slice_range pairs (border_in first pairs) (border_in last pairs) }
{}

/// A test that holds of each key below one of which it holds is a border of every rising list, so each key is
/// one: the pairs with keys from one on and before another are those between the places of the two.
pub fn orders_have_borders<K, V>()
    ensures tests { (order : K → K → Ordering) (before : K → Bool) →
        ((low high : K) → order low high ≡ Less → before high ≡ true → before low ≡ true) →
        (pairs : List (K × V)) → IsRising order pairs → IsBorder before pairs }
    ensures keys { (order : K → K → Ordering) → IsTotalOrder order → (low high : K) (pairs : List (K × V)) → IsRising order pairs →
        pairs_between (λ key. is_lt (order key low)) (λ key. is_lt (order key high)) pairs
        ≡ slice_range pairs (place_in order low pairs) (place_in order high pairs) }
{}
