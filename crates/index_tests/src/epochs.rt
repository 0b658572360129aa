//! Epochs that the versions take on, and in which the store follows them.
ghost use Rattle.std.specs.Prelude.{◌≡◌, [], ◌∷◌, length};
ghost use Rattle.write_set.specs.Journal.{candidates_of};

use crate::plain_versions::PlainVersions;
use geo_schema::Schema;
use index_kit::{Judged, judged_of};
use index_store::IndexStore;
use std::alloc::Global;
use std::test::Fail;
use write_set::{KeptVersions, committed_changes};

/// The versions take on what the candidates that commit change, and the store follows them.
fn follow(
    alloc: Global,
    schema: &Schema,
    versions: &mut PlainVersions,
    store: &mut IndexStore,
    judged: &Judged,
) -> Result<(), Fail>
    requires { length judged.now.outcomes.items ≡ length (candidates_of (judged.now.zero ∷ judged.now.one ∷ [])) }
{
    let batches = [&judged.zero, &judged.one];
    let outcomes = judged.outcomes.as_slice();
    for change in committed_changes(alloc, &batches, outcomes)? {
        versions.change(alloc, &change.0, &change.1)?;
    }
    if versions.horizon() >= versions.applied() {
        return Err("an epoch that isn't the first".into());
    }
    Ok(store.apply(schema, versions, &batches, outcomes)?)
}

/// The versions take on the next epoch, and the store follows them.
pub fn apply(
    alloc: Global,
    schema: &Schema,
    versions: &mut PlainVersions,
    store: &mut IndexStore,
    texts: &str,
) -> Result<(), Fail> {
    versions.next_epoch();
    let judged = judged_of(alloc, versions.applied(), texts)?;
    let told = follow(alloc, schema, versions, store, &judged);
    drop(judged);
    told
}
