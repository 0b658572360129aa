//! The keys of pairs, in rising order and each once.
ghost use Rattle.std.specs.Prelude.{◌≡◌, map, IfOk, Contains};
ghost use Rattle.std.specs.List.Sorted.{IsStrictlySortedBy};
ghost use Rattle.geo_base.specs.Order.{cells_cmp};
ghost use Rattle.index_store.specs.inner.Keys.{AreRisingOf};

use crate::gain::Gain;
use crate::pair::IndexPair;
use geo_base::{Key, NoMemory};
use std::alloc::Global;

/// The keys of the pairs, in rising order and each once.
pub(crate) fn rising_keys<'a>(
    alloc: Global,
    entries: &[(&'a IndexPair, &'a Gain)],
) -> Result<Vec<&'a Key>, NoMemory>
    ensures { IfOk result (λ keys. AreRisingOf (map (λ e. e.0.now.key) entries.now) (map (λ k. k.now) keys.items)) }
{
    let mut keys = keys_of(alloc, entries)?;
    keys.sort_unstable();
    keys.dedup();
    Ok(keys)
}

/// The keys of the pairs, in their order.
fn keys_of<'a>(
    alloc: Global,
    entries: &[(&'a IndexPair, &'a Gain)],
) -> Result<Vec<&'a Key>, NoMemory>
    ensures { IfOk result (λ keys. map (λ k. k.now) keys.items ≡ map (λ e. e.0.now.key) entries.now) }
{
    let mut keys = Vec::with_capacity(alloc, entries.len())?;
    for entry in entries {
        keys.push(&entry.0.key)?;
    }
    Ok(keys)
}
