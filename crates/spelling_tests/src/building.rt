//! Batches that are built, as words.
ghost use Rattle.std.specs.Prelude.{◌≡◌, true, All, IsTrue};

use crate::cells::cells_of;
use codec_kit::halves;
use geo_base::{Key, RowId, RowImage};
use std::alloc::Global;
use std::test::Fail;
use write_set::{Batch, Candidate, CandidateList, Change, RowChange, WriteSet};

/// The row of words: its table, and the cells of its key.
fn row_of(alloc: Global, words: &str) -> Result<RowId, Fail> {
    let (table, key) = halves(words, " ")?;
    let table = table.parse()?;
    let key = Key::new(cells_of(alloc, key)?)?;
    Ok(RowId { table, key })
}

/// What is done to a row: `removed`, `touched`, or the cells that are put.
fn done_of(alloc: Global, words: &str) -> Result<Change, Fail> {
    match words {
        "removed" => Ok(Change::Remove),
        "touched" => Ok(Change::Touch),
        _ => Ok(Change::Put(RowImage::new(cells_of(alloc, words)?)?)),
    }
}

/// A change of a row that the snapshot has: the row, an arrow, and what is done to it.
fn change_of(alloc: Global, words: &str) -> Result<RowChange, Fail> {
    let (row, done) = halves(words, " -> ")?;
    let row = row_of(alloc, row)?;
    Ok(RowChange {
        row,
        before: true,
        change: done_of(alloc, done)?,
    })
}

fn changes_of(alloc: Global, texts: &str) -> Result<Vec<RowChange>, Fail> {
    let mut list = Vec::new(alloc);
    for words in texts.split("; ") {
        list.push(change_of(alloc, words)?)?;
    }
    Ok(list)
}

/// Whether the snapshot has each of the rows.
fn are_known(changes: &[RowChange]) -> bool
    ensures { IsTrue result → All (λ c. c.before ≡ true) changes.now }
{
    changes.iter().all(|change| change.before)
}

/// The net of changes of rows that the snapshot has.
fn net_of(alloc: Global, changes: Vec<RowChange>) -> Result<WriteSet, Fail> {
    if are_known(&changes) {
        Ok(WriteSet::empty(alloc).with(alloc, changes)?)
    } else {
        Err("a row that isn't in the snapshot".into())
    }
}

/// The candidate of words: its start, a colon, and its changes with semicolons between them.
fn candidate_of(alloc: Global, words: &str) -> Result<Candidate, Fail> {
    let (start, changes) = halves(words, ": ")?;
    let start = start.parse()?;
    let set = net_of(alloc, changes_of(alloc, changes)?)?;
    Ok(Candidate { start, set })
}

fn candidates_of(alloc: Global, texts: &str) -> Result<CandidateList, Fail> {
    let mut items = Vec::new(alloc);
    if !texts.is_empty() {
        for words in texts.split(" | ") {
            items.push(candidate_of(alloc, words)?)?;
        }
    }
    Ok(CandidateList::new(items))
}

/// The batch of words: its region, its epoch, and behind another space its candidates, if there are any, with bars
/// between them.
pub fn batch_of(alloc: Global, words: &str) -> Result<Batch, Fail> {
    let (region, rest) = halves(words, " ")?;
    let (epoch, candidates) = halves(rest, " ")?;
    let region = region.parse()?;
    let epoch = epoch.parse()?;
    let items = candidates_of(alloc, candidates)?;
    Ok(Batch {
        region,
        epoch,
        items,
    })
}
