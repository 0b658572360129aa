//! Which pairs rows lose and get in an epoch.
ghost use Rattle.std.specs.Prelude.{◌≡◌, ◌≤◌, ◌<◌, ◌-◌, [], ◌++◌, length, map, OnOk, IfOk};
ghost use Rattle.std.specs.List.{cons_option};
ghost use Rattle.std.specs.Map.{keys_of};
ghost use Rattle.std.specs.Option.{option_copied};
ghost use Rattle.geo_base.specs.declared.limits.TheConstants.{MAX_INDEXES};
ghost use Rattle.index_store.specs.inner.Following.{pair_in, only_first, apart_from, apart, all_apart};

use crate::columns::{are_alike, pair_of};
use crate::pair::IndexPair;
use geo_base::{Epoch, NoMemory, RowId, RowImage};
use geo_schema::{IndexDef, Schema};
use std::alloc::Global;
use write_set::{Change, KeptVersions};

/// The pairs that rows lost, and those that they got.
#[derive(Drop)]
pub(crate) struct Moves {
    pub(crate) lost: Vec<IndexPair>,
    pub(crate) gained: Vec<IndexPair>,
}

/// What the rows of the changes lose and get in the last epoch of the versions.
pub(crate) fn follow_all<K: KeptVersions>(
    alloc: Global,
    schema: &Schema,
    versions: &K,
    changes: &[&(RowId, Change)],
) -> Result<Moves, NoMemory>
    requires { K.first_kept versions.now < K.last_kept versions.now }
    ensures lost { IfOk result (λ moves. moves.lost.items ≡ all_apart schema.now (λ row. K.image_at versions.now row (K.last_kept versions.now - 1)) (λ row. K.image_at versions.now row (K.last_kept versions.now)) (keys_of (map (λ c. c.now) changes.now))) }
    ensures gained { IfOk result (λ moves. moves.gained.items ≡ all_apart schema.now (λ row. K.image_at versions.now row (K.last_kept versions.now)) (λ row. K.image_at versions.now row (K.last_kept versions.now - 1)) (keys_of (map (λ c. c.now) changes.now))) }
{
    let epoch = versions.applied();
    let mut moves = Moves {
        lost: Vec::new(alloc),
        gained: Vec::new(alloc),
    };
    for change in changes {
        follow(alloc, schema, versions, epoch, &change.0, &mut moves)?;
    }
    Ok(moves)
}

/// What the row loses and gets in the epoch, which is the last of the versions. The row is looked up only where its
/// table has indexes.
#[tactic(auto, using(crate::proofs::Indexed::few_indexes, crate::proofs::Indexed::indexes_there, crate::proofs::Indexed::none_there, crate::proofs::Indexed::none_apart))]
fn follow<K: KeptVersions>(
    alloc: Global,
    schema: &Schema,
    versions: &K,
    epoch: Epoch,
    row: &RowId,
    moves: &mut Moves,
) -> Result<(), NoMemory>
    requires last { epoch ≡ K.last_kept versions.now }
    requires before { K.first_kept versions.now < K.last_kept versions.now }
    ensures lost { OnOk result (moves.new.lost.items ≡ moves.old.lost.items ++ apart schema.now row.now (K.image_at versions.now row.now (epoch - 1)) (K.image_at versions.now row.now epoch)) }
    ensures gained { OnOk result (moves.new.gained.items ≡ moves.old.gained.items ++ apart schema.now row.now (K.image_at versions.now row.now epoch) (K.image_at versions.now row.now (epoch - 1))) }
{
    let indexes = match schema.table(row.table) {
        Some(table) => table.indexes.items(),
        None => return Ok(()),
    };
    if indexes.is_empty() {
        return Ok(());
    }
    let before = versions.read_at(row, epoch - 1);
    let after = versions.read_at(row, epoch);
    follow_indexes(alloc, indexes, row, before, after, moves)
}

/// What the row loses and gets in the indexes, where it had the one image before and has the other after.
fn follow_indexes(
    alloc: Global,
    indexes: &[IndexDef],
    row: &RowId,
    before: Option<&RowImage>,
    after: Option<&RowImage>,
    moves: &mut Moves,
) -> Result<(), NoMemory>
    requires { length indexes.now ≤ MAX_INDEXES }
    ensures lost { OnOk result (moves.new.lost.items ≡ moves.old.lost.items ++ apart_from row.now (option_copied before.entry) (option_copied after.entry) 0 indexes.now) }
    ensures gained { OnOk result (moves.new.gained.items ≡ moves.old.gained.items ++ apart_from row.now (option_copied after.entry) (option_copied before.entry) 0 indexes.now) }
{
    for (place, index) in indexes.iter().enumerate() {
        note(alloc, row, place as u8, index, before, after, moves)?;
    }
    Ok(())
}

/// What the row loses and gets in the index at the place.
#[tactic(auto, using(crate::proofs::Noting::none_apart, crate::proofs::Noting::all_apart))]
fn note(
    alloc: Global,
    row: &RowId,
    place: u8,
    index: &IndexDef,
    before: Option<&RowImage>,
    after: Option<&RowImage>,
    moves: &mut Moves,
) -> Result<(), NoMemory>
    ensures lost { OnOk result (moves.new.lost.items ≡ moves.old.lost.items ++ only_first row.now place index.now (option_copied before.entry) (option_copied after.entry)) }
    ensures gained { OnOk result (moves.new.gained.items ≡ moves.old.gained.items ++ only_first row.now place index.now (option_copied after.entry) (option_copied before.entry)) }
{
    if are_alike(index, before, after) {
        return Ok(());
    }
    add_pair(alloc, row, place, index, before, &mut moves.lost)?;
    add_pair(alloc, row, place, index, after, &mut moves.gained)
}

/// Adds the pair of the row in the index at the place, where there is an image of the row.
fn add_pair(
    alloc: Global,
    row: &RowId,
    place: u8,
    index: &IndexDef,
    image: Option<&RowImage>,
    pairs: &mut Vec<IndexPair>,
) -> Result<(), NoMemory>
    ensures { OnOk result (pairs.new.items ≡ pairs.old.items ++ cons_option (pair_in row.now place index.now (option_copied image.entry)) []) }
{
    if let Some(image) = image {
        pairs.push(pair_of(alloc, row, place, index, image)?)?;
    }
    Ok(())
}
