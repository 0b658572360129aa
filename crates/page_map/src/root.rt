//! Changes of a whole map, which has no root while it is empty.
ghost use Rattle.std.specs.Prelude.{◌≡◌, [], IsTrue, IsFalse, IfOk, OnOk, OnErr};
ghost use Rattle.page_map.specs.Pairs.{IsRising, found_at, put_in, without};
ghost use Rattle.page_map.specs.inner.Chunks.{root_entries, IsLoose, IsRoot};

use crate::chunk::Chunk;
use crate::limits::MOST_PAIRS;
use crate::sharing::{set_in, take_in};
use geo_base::NoMemory;
use std::alloc::Global;
use std::sync::Arc;

/// Puts the value at the key, and gives the one that was there. The root is a chunk that has room always.
pub(crate) fn set_root<K: Ord + Drop, V: Drop, C: Chunk<K, V>>(
    root: &mut Option<Arc<C>>,
    alloc: Global,
    key: K,
    value: V,
) -> Result<Option<V>, NoMemory>
    requires whole { IsRoot C.entries C.sound root.old }
    requires rising { IsRising K.cmp (root_entries C.entries root.old) }
    requires room { (top : C) → C.room top }
    ensures whole { IsRoot C.entries C.sound root.new }
    ensures rising { IsRising K.cmp (root_entries C.entries root.new) }
    ensures old { IfOk result (λ old. old ≡ found_at K.cmp key (root_entries C.entries root.old)) }
    ensures new { OnOk result (root_entries C.entries root.new ≡ put_in K.cmp key value (root_entries C.entries root.old)) }
    ensures err { OnErr result (root_entries C.entries root.new ≡ root_entries C.entries root.old) }
{
    match root {
        Some(top) => {
            if top.count() >= MOST_PAIRS {
                return Err(NoMemory);
            }
            let old = set_in::<K, V, C>(top, alloc, key, value)?;
            Ok(old)
        }
        None => {
            let top = C::of_one(alloc, key, value)?;
            *root = Some(Arc::new(alloc, top)?);
            Ok(None)
        }
    }
}

/// Whether a root has no pairs.
fn is_bare<K: Ord, V, C: Chunk<K, V>>(root: &Option<Arc<C>>) -> bool
    requires { IsLoose C.sound root.now }
    ensures bare { IsTrue result → root_entries C.entries root.now ≡ [] }
    ensures full { IsFalse result → IsRoot C.entries C.sound root.now }
{
    match root {
        Some(top) => top.count() == 0,
        None => false,
    }
}

/// Takes the pair of the key out, and gives its value.
pub(crate) fn take_root<K: Ord, V: Drop, C: Chunk<K, V>>(
    root: &mut Option<Arc<C>>,
    alloc: Global,
    key: &K,
) -> Result<Option<V>, NoMemory>
    requires whole { IsRoot C.entries C.sound root.old }
    requires rising { IsRising K.cmp (root_entries C.entries root.old) }
    ensures whole { IsRoot C.entries C.sound root.new }
    ensures rising { IsRising K.cmp (root_entries C.entries root.new) }
    ensures old { IfOk result (λ old. old ≡ found_at K.cmp key.now (root_entries C.entries root.old)) }
    ensures new { OnOk result (root_entries C.entries root.new ≡ without K.cmp key.now (root_entries C.entries root.old)) }
    ensures err { OnErr result (root_entries C.entries root.new ≡ root_entries C.entries root.old) }
{
    let old = match root {
        Some(top) => take_in::<K, V, C>(top, alloc, key)?,
        None => return Ok(None),
    };
    if is_bare::<K, V, C>(root) {
        *root = None;
        return Ok(old);
    }
    Ok(old)
}
