//! Names of rows that an index has, and the rows of these names.
ghost use Rattle.std.specs.Prelude.{◌≡◌, map, IfOk};
ghost use Rattle.std.specs.Option.{option_copied, option_map};
ghost use Rattle.row_source.specs.Handing.{row_named};
ghost use Rattle.snap_view.specs.Snapshots.{rows_of};
ghost use Rattle.snap_view.specs.inner.Naming.{entries_within, image_within};

use crate::indexed::image_within;
use crate::snapshot::Snapshot;
use geo_base::{Duplicate, Key, NoMemory, RowId, RowImage, TableNo};
use geo_schema::{IndexDef, KeyRange};
use std::alloc::Global;

/// The names of the table's rows with these keys, in their order.
pub(crate) fn names_of(alloc: Global, table: TableNo, keys: &[&Key]) -> Result<Vec<RowId>, NoMemory>
    ensures { IfOk result (λ names. names.items ≡ map (λ key. row_named table key.now) keys.now) }
{
    let mut names = Vec::with_capacity(alloc, keys.len())?;
    for key in keys {
        names.push(RowId {
            table,
            key: key.copy(alloc)?,
        })?;
    }
    Ok(names)
}

/// The row of the snapshot, where there is one whose cells in the index lie in the range.
fn row_within<'a>(
    snapshot: &'a Snapshot,
    index: &IndexDef,
    range: &KeyRange,
    row: &RowId,
) -> Option<&'a RowImage>
    ensures { option_copied result ≡ image_within index.now range.now (rows_of snapshot.entry.now) row.now }
{
    match snapshot.read(row) {
        Some(image) => image_within(index, range, image),
        None => None,
    }
}

/// The rows of these names that there are in the snapshot and whose cells in the index lie in the range. Takes memory
/// for the answer, and a look-up of each name.
pub(crate) fn rows_within<'a, 'n>(
    alloc: Global,
    snapshot: &'a Snapshot,
    index: &IndexDef,
    range: &KeyRange,
    names: &'n [RowId],
) -> Result<Vec<(&'n RowId, &'a RowImage)>, NoMemory>
    ensures { IfOk result (λ rows. map (λ p. (p.0.now, p.1.now)) rows.items ≡ entries_within index.now range.now (rows_of snapshot.entry.now) names.entry.now) }
{
    let mut rows = Vec::new(alloc);
    for name in names {
        if let Some(image) = row_within(snapshot, index, range, name) {
            rows.push((name, image))?;
        }
    }
    Ok(rows)
}
