//! What versions tell, as texts.
ghost use Rattle.std.specs.Prelude.{◌≤◌, IsTrue};

use crate::border::InFront;
use crate::epochs::row_of;
use geo_base::{Epoch, NoMemory, RowId, RowImage, print_row};
use std::alloc::Global;
use std::fmt::Write;
use std::test::Fail;
use version_store::{TooOld, Versions};
use write_set::{Changes, KeptVersions};

/// How many rows are told one by one.
const MOST_LISTED: usize = 8;

/// Whether the epoch can be read.
fn is_kept(versions: &Versions, epoch: Epoch) -> bool
    ensures from { IsTrue result → versions.now.horizon ≤ epoch }
    ensures upto { IsTrue result → epoch ≤ versions.now.applied }
{
    versions.horizon() <= epoch && epoch <= versions.applied()
}

fn print_image(out: &mut String, image: Option<&RowImage>) -> Result<(), NoMemory> {
    match image {
        Some(image) => print_row(out, image.cells()),
        None => Ok(out.push_str("-")?),
    }
}

/// What is read of the row at the epoch: its cells, or `-` where there was no such row.
pub fn read(alloc: Global, versions: &Versions, row: &str, epoch: Epoch) -> Result<String, Fail> {
    let row = row_of(alloc, row)?;
    let mut out = String::new(alloc);
    if !is_kept(versions, epoch) {
        return Err("an epoch that isn't kept".into());
    }
    print_image(&mut out, versions.read_at(&row, epoch))?;
    Ok(out)
}

/// What is read of the row at each epoch that can be read, as an index asks for it.
fn history<V: KeptVersions>(alloc: Global, versions: &V, row: &RowId) -> Result<String, Fail> {
    let mut out = String::new(alloc);
    for epoch in versions.horizon()..=versions.applied() {
        write!(out, "{epoch}")?;
        print_image(&mut out, versions.read_at(row, epoch))?;
        out.push_str(" ")?;
    }
    Ok(out)
}

/// The row's last change, as a merge asks for it.
fn change_of<C: Changes>(changes: &C, row: &RowId) -> Epoch {
    changes.last_change(row)
}

/// What is read of the row at each epoch that can be read, and its last change.
pub fn told_of(alloc: Global, versions: &Versions, row: &str) -> Result<String, Fail> {
    let row = row_of(alloc, row)?;
    let mut out = history(alloc, versions, &row)?;
    let last = versions.last_change(&row);
    if change_of(versions, &row) != last {
        return Err("two last changes".into());
    }
    write!(out, "last {last}")?;
    Ok(out)
}

/// The row's last change up to the epoch.
pub fn last_upto(
    alloc: Global,
    versions: &Versions,
    row: &str,
    epoch: Epoch,
) -> Result<String, Fail> {
    let row = row_of(alloc, row)?;
    let last = versions.last_change_at(&row, epoch);
    Ok(format!(in alloc; "{last}")?)
}

/// The rows that there were after the epoch, from the first one on and before the last: their keys and cells, how many
/// they are where they are more than [`MOST_LISTED`], or `none`.
pub fn listed(
    alloc: Global,
    versions: &Versions,
    first: &str,
    last: &str,
    epoch: Epoch,
) -> Result<String, Fail> {
    let first = row_of(alloc, first)?;
    let last = row_of(alloc, last)?;
    let mut out = String::new(alloc);
    if !is_kept(versions, epoch) {
        return Err("an epoch that isn't kept".into());
    }
    versions.keeps_order();
    let found = versions.rows_between(&InFront { row: &first }, &InFront { row: &last }, epoch)?;
    if found.len() > MOST_LISTED {
        write!(out, "{} rows", found.len())?;
        return Ok(out);
    }
    for pair in &found {
        print_row(&mut out, pair.0.key.cells())?;
        print_row(&mut out, pair.1.cells())?;
    }
    if out.is_empty() {
        out.push_str("none")?;
    }
    Ok(out)
}

/// Whether the epoch is too old to be read, and from which one on epochs aren't.
pub fn checked(alloc: Global, versions: &Versions, epoch: Epoch) -> Result<String, Fail> {
    match versions.check_at(epoch) {
        Ok(()) => Ok(String::from_str(alloc, "not too old")?),
        Err(TooOld(horizon)) => Ok(format!(in alloc; "too old, from {horizon} on")?),
    }
}
