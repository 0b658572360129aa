//! Cutting off the versions that a horizon doesn't leave.
ghost use Rattle.std.specs.Prelude.{◌≡◌, OnOk};
ghost use Rattle.version_store.specs.inner.Noting.{rows_upto};
ghost use Rattle.version_store.specs.inner.Writing.{replaced, cut, all_cut};

use crate::chain::Chain;
use crate::changed_rows::ChangedRows;
use geo_base::{Duplicate, Epoch, NoMemory, RowId};
use page_map::PageMap;
use std::alloc::Global;

/// Leaves what the horizon leaves of the rows that epochs up to it changed.
pub(crate) fn cut_noted(
    alloc: Global,
    rows: &mut PageMap<RowId, Chain>,
    notes: &[ChangedRows],
    horizon: Epoch,
) -> Result<(), NoMemory>
    ensures { OnOk result (rows.new ≡ all_cut horizon (rows_upto horizon notes.now) rows.old) }
{
    for note in notes {
        if note.epoch() <= horizon {
            cut_all(alloc, rows, note.rows(), horizon)?;
        }
    }
    Ok(())
}

/// Leaves what the horizon leaves of these rows.
fn cut_all(
    alloc: Global,
    rows: &mut PageMap<RowId, Chain>,
    names: &[RowId],
    horizon: Epoch,
) -> Result<(), NoMemory>
    ensures { OnOk result (rows.new ≡ all_cut horizon names.now rows.old) }
{
    for row in names {
        cut(alloc, rows, row, horizon)?;
    }
    Ok(())
}

/// Leaves what the horizon leaves of the row. Where that is all of its versions nothing is done, so that no memory is
/// taken and no page is copied.
fn cut(
    alloc: Global,
    rows: &mut PageMap<RowId, Chain>,
    row: &RowId,
    horizon: Epoch,
) -> Result<(), NoMemory>
    ensures { OnOk result (rows.new ≡ cut horizon row.now rows.old) }
{
    let left = match rows.get(row) {
        Some(chain) => {
            let count = chain.count_left(horizon);
            if 0 < count && count == chain.len() {
                return Ok(());
            }
            chain.front(alloc, count)?
        }
        None => return Ok(()),
    };
    replace(alloc, rows, row, left)
}

/// Puts these versions in the place of those of the row, and takes the row out where there are none.
fn replace(
    alloc: Global,
    rows: &mut PageMap<RowId, Chain>,
    row: &RowId,
    chain: Chain,
) -> Result<(), NoMemory>
    ensures { OnOk result (rows.new ≡ replaced row.now chain rows.old) }
{
    if chain.is_empty() {
        rows.take(row)?;
        return Ok(());
    }
    rows.set(row.copy(alloc)?, chain)?;
    Ok(())
}
