//! Chunks that several maps share: a change goes into a copy, unless nothing else shares the chunk.
ghost use Rattle.std.specs.Prelude.{◌≡◌, ◌<◌, ◌≤◌, ◌++◌, length, map, IfOk, OnOk, OnErr};
ghost use Rattle.std.specs.Arc.{arc_value};
ghost use Rattle.page_map.specs.Pairs.{IsRising, found_at, put_in, without};
ghost use Rattle.page_map.specs.declared.limits.TheConstants.{MOST_PAIRS};
ghost use Rattle.page_map.specs.inner.Chunks.{IsChunk};

use crate::chunk::Chunk;
use geo_base::NoMemory;
use std::alloc::Global;
use std::sync::Arc;

/// The same chunks once more, which are shared from now on.
pub(crate) fn share<C: Drop>(alloc: Global, chunks: &[Arc<C>]) -> Result<Vec<Arc<C>>, NoMemory>
    ensures { IfOk result (λ more. map arc_value more.items ≡ map arc_value chunks.now) }
{
    let mut more = Vec::with_capacity(alloc, chunks.len())?;
    for chunk in chunks {
        more.push(Arc::try_clone(chunk)?)?;
    }
    Ok(more)
}

/// Puts the value at the key, and gives the one that was there. Nothing else that shares the chunk changes.
pub(crate) fn set_in<K: Ord + Drop, V: Drop, C: Chunk<K, V>>(
    shared: &mut Arc<C>,
    alloc: Global,
    key: K,
    value: V,
) -> Result<Option<V>, NoMemory>
    requires whole { C.sound (arc_value shared.old) }
    requires rising { IsRising K.cmp (C.entries (arc_value shared.old)) }
    requires some { 0 < length (C.entries (arc_value shared.old)) }
    requires room { C.room (arc_value shared.old) }
    requires small { length (C.entries (arc_value shared.old)) < MOST_PAIRS }
    ensures whole { C.sound (arc_value shared.new) }
    ensures old { IfOk result (λ old. old ≡ found_at K.cmp key (C.entries (arc_value shared.old))) }
    ensures new { OnOk result (C.entries (arc_value shared.new) ≡ put_in K.cmp key value (C.entries (arc_value shared.old))) }
    ensures err { OnErr result (C.entries (arc_value shared.new) ≡ C.entries (arc_value shared.old)) }
{
    match Arc::get_mut(shared) {
        Some(chunk) => chunk.set(alloc, key, value),
        None => {
            let mut copy = shared.duplicate(alloc)?;
            let old = copy.set(alloc, key, value)?;
            *shared = Arc::new(alloc, copy)?;
            Ok(old)
        }
    }
}

/// Takes the pair of the key out, and gives its value. Nothing else that shares the chunk changes.
pub(crate) fn take_in<K: Ord, V: Drop, C: Chunk<K, V>>(
    shared: &mut Arc<C>,
    alloc: Global,
    key: &K,
) -> Result<Option<V>, NoMemory>
    requires whole { C.sound (arc_value shared.old) }
    requires rising { IsRising K.cmp (C.entries (arc_value shared.old)) }
    requires some { 0 < length (C.entries (arc_value shared.old)) }
    ensures whole { C.sound (arc_value shared.new) }
    ensures old { IfOk result (λ old. old ≡ found_at K.cmp key.now (C.entries (arc_value shared.old))) }
    ensures new { OnOk result (C.entries (arc_value shared.new) ≡ without K.cmp key.now (C.entries (arc_value shared.old))) }
    ensures err { OnErr result (C.entries (arc_value shared.new) ≡ C.entries (arc_value shared.old)) }
{
    match Arc::get_mut(shared) {
        Some(chunk) => chunk.take(alloc, key),
        None => {
            let mut copy = shared.duplicate(alloc)?;
            let old = copy.take(alloc, key)?;
            *shared = Arc::new(alloc, copy)?;
            Ok(old)
        }
    }
}

/// Two new chunks with the first and the last pairs of the chunk.
pub(crate) fn shared_halves<K: Ord, V, C: Chunk<K, V>>(
    shared: &Arc<C>,
    alloc: Global,
) -> Result<(Arc<C>, Arc<C>), NoMemory>
    requires whole { C.sound (arc_value shared.now) }
    requires full { 2 ≤ C.parts (arc_value shared.now) }
    ensures pairs { IfOk result (λ both. C.entries (arc_value shared.now) ≡ C.entries (arc_value both.0) ++ C.entries (arc_value both.1)) }
    ensures first { IfOk result (λ both. IsChunk C.entries C.sound both.0) }
    ensures last { IfOk result (λ both. IsChunk C.entries C.sound both.1) }
    ensures room { IfOk result (λ both. C.room (arc_value both.0) × C.room (arc_value both.1)) }
{
    let (first, last) = shared.halves(alloc)?;
    let first = Arc::new(alloc, first)?;
    let last = Arc::new(alloc, last)?;
    Ok((first, last))
}
