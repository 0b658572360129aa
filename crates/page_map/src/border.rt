//! Borders between keys, by which a map is searched.
ghost use Rattle.std.specs.Prelude.{◌≡◌};

/// A border between keys: some keys stand before it, and the others from it on.
///
/// It need be no key. A map is searched by borders that keep to its order: behind a key that doesn't stand before
/// the border no key does.
pub trait Border<K> {
    ghost use Rattle.std.specs.Prelude.{Bool};

    /// Whether a key stands before the border.
    ghost before: { Self → K → Bool };

    /// Whether the key stands before the border.
    fn comes_after(&self, key: &K) -> bool
        ensures { result ≡ before self.now key.now };
}

/// The border in front of a key.
#[derive(Drop)]
pub(crate) struct Below<'a, K> {
    pub(crate) key: &'a K,
}

impl<'a, K: Ord> Border<K> for Below<'a, K> {
    ghost use Rattle.std.specs.Ordering.{is_lt};

    ghost before = { λ border other. is_lt (K.cmp other border.key.now) };

    fn comes_after(&self, key: &K) -> bool {
        key.cmp(self.key).is_lt()
    }
}
