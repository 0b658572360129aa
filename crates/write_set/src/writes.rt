//! What an epoch leaves: its puts and removals in the table of rows, and its number at each row that they
//! change.
ghost use Rattle.std.specs.Prelude.{◌≡◌, ◌+◌, ◌<◌, ◌≤◌, IfOk, length, vec_len};
ghost use Rattle.std.specs.Vec.{vec_capacity};
ghost use Rattle.write_set.specs.Overlay.{changed, overlay};
ghost use Rattle.write_set.specs.inner.LastChanges.{noted, rows_altered};
ghost use Rattle.write_set.specs.Sets.{Rises};

use crate::change::Change;
use crate::table::{put_value, remove_value};
use geo_base::{Duplicate, Epoch, NoMemory, RowId, RowImage};
use std::alloc::Global;

/// Makes the changes, one after another, where there is room for a new row for each.
pub(crate) fn make_changes(rows: &mut Vec<(RowId, RowImage)>, writes: Vec<(RowId, Change)>)
    requires rising { Rises rows.old.items }
    requires room { vec_len rows.old + length writes.items ≤ vec_capacity rows.old }
    ensures items { rows.new.items ≡ overlay rows.old.items writes.items }
    ensures rising { Rises rows.new.items }
{
    for (row, change) in writes {
        make_change(rows, row, change);
    }
}

fn make_change(rows: &mut Vec<(RowId, RowImage)>, row: RowId, change: Change)
    requires rising { Rises rows.old.items }
    requires room { vec_len rows.old < vec_capacity rows.old }
    ensures items { rows.new.items ≡ changed (row, change) rows.old.items }
    ensures rising { Rises rows.new.items }
    ensures len { vec_len rows.new ≤ vec_len rows.old + 1 }
    ensures capacity { vec_capacity rows.old ≤ vec_capacity rows.new }
{
    match change {
        Change::Put(image) => put_value(rows, row, image),
        Change::Remove => remove_value(rows, &row),
        Change::Touch => {}
    }
}

/// Copies of the rows that the changes put or remove.
pub(crate) fn rows_altered(
    alloc: Global,
    writes: &[(RowId, Change)],
) -> Result<Vec<RowId>, NoMemory>
    ensures { IfOk result (λ rows. rows.items ≡ rows_altered writes.now) }
{
    let mut rows = Vec::with_capacity(alloc, writes.len())?;
    for (row, change) in writes {
        if change.alters() {
            rows.push(row.copy(alloc)?)?;
        }
    }
    Ok(rows)
}

/// Puts the epoch at each of the rows, where there is room for a new entry for each.
pub(crate) fn note_changes(changes: &mut Vec<(RowId, Epoch)>, rows: Vec<RowId>, epoch: Epoch)
    requires rising { Rises changes.old.items }
    requires room { vec_len changes.old + length rows.items ≤ vec_capacity changes.old }
    ensures items { changes.new.items ≡ noted epoch changes.old.items rows.items }
    ensures rising { Rises changes.new.items }
{
    for row in rows {
        put_value(changes, row, epoch);
    }
}
