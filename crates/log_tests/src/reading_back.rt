//! What was appended is in the list, and is read back.
ghost use Rattle.std.specs.Prelude.{◌<◌};

use crate::keeping::{accounts, bytes_of, keepers_of};
use geo_base::{Epoch, RegionNo};
use geo_io::{CleanKeepers, Keepers};
use geo_schema::Schema;
use own_log::{append, entry, load_log};
use set_codec::read_batch;
use std::alloc::Global;
use std::test::Fail;

/// An old batch of epoch 1 that puts a row, and a new one of epoch 2 that touches it.
pub const OLD: &str =
    "474742310000000001000000010000000000000001000101000000000000000101000000000000000a";

pub const NEW: &str = "4747423200000000020000000100000001000000010003010000000000000001";

/// The old batch as it is written today.
const OLD_WRITTEN: &str =
    "474742320000000001000000010000000000000001000101000000000000000101000000000000000a";

/// A batch of epoch 1 without candidates, of the last of eight regions.
const LAST: &str = "47474232070000000100000000";

/// Appends the batches of the digits.
fn append_all(
    alloc: Global,
    logs: &mut CleanKeepers,
    schema: &Schema,
    batches: &[&str],
) -> Result<(), Fail> {
    for digits in batches {
        let batch = read_batch(alloc, schema, 8, &bytes_of(alloc, digits)?)?;
        append(alloc, logs, schema, &batch)?;
    }
    Ok(())
}

/// Whether the region's log has this entry for the epoch.
fn has_entry(
    alloc: Global,
    logs: &mut CleanKeepers,
    region: RegionNo,
    epoch: Epoch,
    digits: &str,
) -> Result<bool, Fail>
    requires { region < 8 }
{
    if epoch == 0 || logs.len(region)? < u64::from(epoch) {
        return Ok(false);
    }
    let found = entry(alloc, logs, region, epoch)?;
    Ok(found == bytes_of(alloc, digits)?)
}

/// Whether the region's log has these entries, and no more.
fn has_entries(
    alloc: Global,
    logs: &mut CleanKeepers,
    region: RegionNo,
    entries: &[&str],
) -> Result<bool, Fail>
    requires { region < 8 }
{
    for (epoch, digits) in (1u32..).zip(entries.iter()) {
        if !has_entry(alloc, logs, region, epoch, digits)? {
            return Ok(false);
        }
    }
    Ok(logs.len(region)? == entries.len() as u64)
}

/// The epochs of the batches that the region's log has, of eight regions.
fn epochs(
    alloc: Global,
    logs: &mut CleanKeepers,
    schema: &Schema,
    region: RegionNo,
) -> Result<Vec<Epoch>, Fail>
    requires { region < 8 }
{
    let batches = load_log(alloc, logs, schema, 8, region)?;
    Ok(batches.iter().map(|batch| batch.epoch).collect(alloc)?)
}

/// What is appended to logs of which that of region 0 has entries, and what a region's log has then: its entries,
/// and the epochs of the batches that they spell.
#[derive(Clone, Copy)]
struct Appended<'a> {
    before: &'a str,
    batches: &'a [&'a str],
    region: RegionNo,
    entries: &'a [&'a str],
    epochs: &'a [Epoch],
}

/// Whether that is so. The one entry of region 1 spells no batch, and stays as it was.
fn has_then(
    alloc: Global,
    logs: &mut CleanKeepers,
    schema: &Schema,
    row: Appended<'_>,
) -> Result<bool, Fail> {
    append_all(alloc, logs, schema, row.batches)?;
    if row.region > 7 || !has_entries(alloc, logs, row.region, row.entries)? {
        return Ok(false);
    }
    if !has_entries(alloc, logs, 1, &["ff"])? {
        return Ok(false);
    }
    Ok(epochs(alloc, logs, schema, row.region)?.as_slice() == row.epochs)
}

fn are_read_back(alloc: Global, schema: &Schema, row: Appended<'_>) -> Result<bool, Fail> {
    let mut logs = keepers_of(alloc, 0, row.before)?;
    let has = has_then(alloc, &mut logs, schema, row);
    drop(logs);
    has
}

const ROWS: [Appended<'static>; 4] = [
    Appended {
        before: "",
        batches: &[OLD, NEW],
        region: 0,
        entries: &[OLD_WRITTEN, NEW],
        epochs: &[1, 2],
    },
    Appended {
        before: OLD,
        batches: &[NEW],
        region: 0,
        entries: &[OLD, NEW],
        epochs: &[1, 2],
    },
    Appended {
        before: OLD,
        batches: &[LAST],
        region: 7,
        entries: &[LAST],
        epochs: &[1],
    },
    Appended {
        before: OLD,
        batches: &[LAST],
        region: 6,
        entries: &[],
        epochs: &[],
    },
];

#[test]
fn appended_batches_are_read_back(rt: HostRuntime) -> Result<(), Fail> {
    let schema = accounts(rt.alloc())?;
    for row in ROWS {
        assert!(rt;
            are_read_back(rt.alloc(), &schema, row)?,
            "{} after {}",
            row.region,
            row.before
        );
    }
    Ok(())
}
