//! Writing an epoch's changes into the rows.
ghost use Rattle.std.specs.Prelude.{◌≡◌, map, OnOk};
ghost use Rattle.geo_base.specs.Order.{row_cmp};
ghost use Rattle.page_map.specs.Pairs.{put_in};
ghost use Rattle.version_store.specs.inner.Writing.{chain_in, renewed, written, all_written};

use crate::chain::Chain;
use crate::version::RowVersion;
use geo_base::{Duplicate, Epoch, NoMemory, RowId};
use page_map::PageMap;
use std::alloc::Global;
use write_set::Change;

/// Makes the changes in the epoch, one after another.
pub(crate) fn write_all(
    alloc: Global,
    rows: &mut PageMap<RowId, Chain>,
    epoch: Epoch,
    changes: &[&(RowId, Change)],
) -> Result<(), NoMemory>
    ensures { OnOk result (rows.new ≡ all_written epoch (map (λ c. c.now) changes.now) rows.old) }
{
    for change in changes {
        write(alloc, rows, epoch, change)?;
    }
    Ok(())
}

/// Makes one change in the epoch.
fn write(
    alloc: Global,
    rows: &mut PageMap<RowId, Chain>,
    epoch: Epoch,
    change: &(RowId, Change),
) -> Result<(), NoMemory>
    ensures { OnOk result (rows.new ≡ written epoch change.now rows.old) }
{
    match &change.1 {
        Change::Put(image) => {
            let version = RowVersion::put(alloc, epoch, image)?;
            put_version(alloc, rows, &change.0, version)
        }
        Change::Remove => put_version(alloc, rows, &change.0, RowVersion::removal(epoch)),
        Change::Touch => Ok(()),
    }
}

/// Puts the version before those of the row.
fn put_version(
    alloc: Global,
    rows: &mut PageMap<RowId, Chain>,
    row: &RowId,
    version: RowVersion,
) -> Result<(), NoMemory>
    ensures { OnOk result (rows.new ≡ put_in row_cmp row.now (renewed version (chain_in rows.old row.now)) rows.old) }
{
    let chain = match rows.get(row) {
        Some(chain) => chain.renewed(alloc, version)?,
        None => Chain::of_one(alloc, version)?,
    };
    rows.set(row.copy(alloc)?, chain)?;
    Ok(())
}
