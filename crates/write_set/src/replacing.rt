//! What is left of rows, in the place of what a set has of them.
ghost use Rattle.std.specs.Prelude.{◌≡◌, ◌+◌, ◌<◌, ◌≤◌, length, vec_len};
ghost use Rattle.std.specs.Option.{option_copied};
ghost use Rattle.std.specs.Vec.{vec_capacity};
ghost use Rattle.write_set.specs.declared.limits.TheConstants.{MAX_CHANGE_BYTES};
ghost use Rattle.write_set.specs.Sets.{Rises};
ghost use Rattle.write_set.specs.Sizes.{change_size, set_size};
ghost use Rattle.write_set.specs.inner.Nets.{all_replaced, replaced, share};

use crate::change::Change;
use crate::size::change_size;
use crate::table::{put_value, remove_value, value_of};
use geo_base::RowId;

/// How many rows a set has, and how many bytes its changes have when they are spelled.
#[derive(Clone, Copy)]
pub(crate) struct Extent {
    pub(crate) rows: usize,
    /// A number that no count of changes is too great for.
    pub(crate) bytes: u128,
}

/// The bytes of the spelling of a change of the row, if there is one.
fn bytes_of(row: &RowId, change: Option<&Change>) -> u64
    ensures size { result ≡ share change_size row.now (option_copied change.entry) }
    ensures few { result ≤ MAX_CHANGE_BYTES }
{
    match change {
        Some(change) => change_size(row, change),
        None => 0,
    }
}

/// The extent of the set with what is left of each row in its place, where the set has so many bytes.
#[tactic(auto, using(crate::proofs::Lefts::rows_after, crate::proofs::Lefts::bytes_after))]
pub(crate) fn extent_after(
    set: &[(RowId, Change)],
    size: u64,
    left: &[(RowId, Option<Change>)],
) -> Extent
    requires set { Rises set.now }
    requires left { Rises left.now }
    requires size { size ≡ set_size set.now }
    ensures rows { result.rows ≡ length (all_replaced set.now left.now) }
    ensures bytes { result.bytes ≡ set_size (all_replaced set.now left.now) }
{
    let mut rows_gained = 0;
    let mut rows_lost = 0;
    let mut bytes_gained: u128 = 0;
    let mut bytes_lost: u128 = 0;
    for (row, change) in left {
        let held = value_of(set, row);
        rows_gained += usize::from(change.is_some());
        rows_lost += usize::from(held.is_some());
        bytes_gained += u128::from(bytes_of(row, change.as_ref()));
        bytes_lost += u128::from(bytes_of(row, held));
    }
    Extent {
        rows: set.len() + rows_gained - rows_lost,
        bytes: u128::from(size) + bytes_gained - bytes_lost,
    }
}

/// Puts what is left of the row in the place of what the entries have of it, where there is room for one more.
fn replace(entries: &mut Vec<(RowId, Change)>, row: RowId, left: Option<Change>)
    requires rising { Rises entries.old.items }
    requires room { vec_len entries.old < vec_capacity entries.old }
    ensures items { entries.new.items ≡ replaced (row, left) entries.old.items }
    ensures rising { Rises entries.new.items }
    ensures len { vec_len entries.new ≤ vec_len entries.old + 1 }
    ensures capacity { vec_capacity entries.old ≤ vec_capacity entries.new }
{
    match left {
        Some(change) => put_value(entries, row, change),
        None => remove_value(entries, &row),
    }
}

/// Puts what is left of each row in its place, where there is room for a new one for each.
pub(crate) fn replace_all(entries: &mut Vec<(RowId, Change)>, left: Vec<(RowId, Option<Change>)>)
    requires rising { Rises entries.old.items }
    requires room { vec_len entries.old + length left.items ≤ vec_capacity entries.old }
    ensures items { entries.new.items ≡ all_replaced entries.old.items left.items }
    ensures rising { Rises entries.new.items }
{
    for (row, change) in left {
        replace(entries, row, change);
    }
}
