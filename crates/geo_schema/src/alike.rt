//! What may not stand twice in a list.
ghost use Rattle.std.specs.Prelude.{◌≡◌, Bool, nat_eq};
ghost use Rattle.std.specs.List.{list_any};
ghost use Rattle.std.specs.Option.{option_copied};
ghost use Rattle.geo_schema.specs.inner.Repeats.{first_repeat};

/// Things of which a list may not have two that are alike: definitions of one name, or one place twice.
pub(crate) trait Alike {
    ghost same: { Self → Self → Bool };

    fn is_alike(&self, other: &Self) -> bool
        ensures { result ≡ same self.now other.now };
}

impl Alike for u8 {
    ghost same = { nat_eq };

    fn is_alike(&self, other: &u8) -> bool {
        *self == *other
    }
}

fn has_alike<T: Alike>(items: &[T], item: &T) -> bool
    ensures { result ≡ list_any (λ earlier. T.same earlier item.now) items.now }
{
    items.iter().any(|earlier| earlier.is_alike(item))
}

/// The first item that an earlier one is like. Compares each two of the items.
pub(crate) fn first_repeat<T: Alike>(items: &[T]) -> Option<&T>
    ensures { option_copied result ≡ first_repeat T.same items.now }
{
    for (place, item) in items.iter().enumerate() {
        if has_alike(&items[..place], item) {
            return Some(item);
        }
    }
    None
}
