//! Lawful batches, of candidates that put or touch rows of table 0.
ghost use Rattle.std.specs.Prelude.{◌≡◌, ◌≤◌, true, All, IsTrue, IfOk, IfSome, length};
ghost use Rattle.geo_base.specs.declared.limits.TheConstants.{MAX_REGIONS};
ghost use Rattle.write_set.specs.declared.change.Change.TheVariants.{Touch};
ghost use Rattle.write_set.specs.Journal.{IsCandidate, IsBatch, AreBatches};

use geo_base::limits::{MAX_AGE, MAX_CANDIDATES};
use geo_base::{Cell, Epoch, Key, RegionNo, RowId, RowImage};
use merge_round::BatchList;
use std::alloc::Global;
use std::test::Fail;
use write_set::{Batch, Candidate, CandidateList, Change, RowChange, WriteSet};

/// The row whose key is the number.
pub fn row_of(alloc: Global, key: i64) -> Result<RowId, Fail> {
    let key = Key::new(vec![in alloc; Cell::Int(key)]?)?;
    Ok(RowId { table: 0, key })
}

fn put_of(alloc: Global, key: i64) -> Result<Change, Fail> {
    let image = RowImage::new(vec![in alloc; Cell::Int(key)]?)?;
    Ok(Change::Put(image))
}

/// A candidate that puts the row.
pub fn putting(alloc: Global, start: Epoch, key: i64) -> Result<Candidate, Fail> {
    let change = put_of(alloc, key)?;
    let set = WriteSet::one(alloc, row_of(alloc, key)?, change)?;
    Ok(Candidate { start, set })
}

/// The number that stands in this place of the text, as one digit.
fn digit(text: &[u8], at: usize) -> Result<u8, Fail> {
    let byte = *text.get(at).ok_or("a number is missing")?;
    if byte.is_ascii_digit() {
        Ok(byte - b'0')
    } else {
        Err("no number".into())
    }
}

/// What is done to a row: `+` and its key where it is put, `~` and its key where it is touched.
fn row_change(alloc: Global, text: &[u8]) -> Result<RowChange, Fail> {
    let key = i64::from(digit(text, 1)?);
    let change = if text.first() == Some(&b'~') {
        Change::Touch
    } else {
        put_of(alloc, key)?
    };
    Ok(RowChange {
        row: row_of(alloc, key)?,
        before: true,
        change,
    })
}

/// The candidate that a word spells: its start, and then what it does to its rows in their rising order, as
/// `1+4~9`.
fn candidate(alloc: Global, word: &str) -> Result<Candidate, Fail> {
    let text = word.as_bytes();
    let start = Epoch::from(digit(text, 0)?);
    let mut changes = Vec::new(alloc);
    for row in text.get(1..).unwrap_or(&[]).chunks(2) {
        changes.push(row_change(alloc, row)?)?;
    }
    let set = with_changes(alloc, &WriteSet::empty(alloc), changes)?;
    Ok(Candidate { start, set })
}

/// The candidates that the words of a text spell.
fn candidates(alloc: Global, text: &str) -> Result<Vec<Candidate>, Fail> {
    let mut items = Vec::new(alloc);
    for word in text.split_whitespace() {
        items.push(candidate(alloc, word)?)?;
    }
    Ok(items)
}

/// Whether each of the rows is in the snapshot.
fn are_known(changes: &[RowChange]) -> bool
    ensures { IsTrue result → All (λ c. c.change ≡ Touch → c.before ≡ true) changes.now }
{
    changes.iter().all(|change| change.before)
}

fn with_changes(alloc: Global, set: &WriteSet, changes: Vec<RowChange>) -> Result<WriteSet, Fail> {
    if are_known(&changes) {
        Ok(set.with(alloc, changes)?)
    } else {
        Err("a row that isn't in the snapshot".into())
    }
}

fn is_lawful(epoch: Epoch, c: &Candidate) -> bool
    ensures { IsTrue result → IsCandidate epoch c.now }
{
    let changes = c.set.changes();
    c.start < epoch && epoch - c.start <= MAX_AGE && !changes.is_empty()
}

fn batch_of(region: RegionNo, epoch: Epoch, items: Vec<Candidate>) -> Option<Batch>
    ensures { IfSome result (IsBatch region epoch) }
{
    if items.len() > MAX_CANDIDATES as usize || !items.iter().all(|c| is_lawful(epoch, c)) {
        return None;
    }
    Some(Batch {
        region,
        epoch,
        items: CandidateList::new(items),
    })
}

/// The batches of one region.
pub fn one_region(alloc: Global, epoch: Epoch, items: Vec<Candidate>) -> Result<BatchList, Fail>
    ensures lawful { IfOk result (AreBatches 0 epoch) }
    ensures count { IfOk result (λ batches. length batches ≡ 1) }
{
    let zero = batch_of(0, epoch, items).ok_or("an unlawful batch")?;
    Ok(BatchList::new(vec![in alloc; zero]?))
}

/// The batches of two regions.
fn two_regions(
    alloc: Global,
    epoch: Epoch,
    zero: Vec<Candidate>,
    one: Vec<Candidate>,
) -> Result<BatchList, Fail>
    ensures lawful { IfOk result (AreBatches 0 epoch) }
    ensures count { IfOk result (λ batches. length batches ≡ 2) }
{
    let zero = batch_of(0, epoch, zero).ok_or("an unlawful batch")?;
    let one = batch_of(1, epoch, one).ok_or("an unlawful batch")?;
    Ok(BatchList::new(vec![in alloc; zero, one]?))
}

/// The batches whose candidates these texts spell: of two regions, or of one where the second is `none`.
pub fn batches(alloc: Global, epoch: Epoch, zero: &str, one: &str) -> Result<BatchList, Fail>
    ensures lawful { IfOk result (AreBatches 0 epoch) }
    ensures count { IfOk result (λ batches. length batches ≤ MAX_REGIONS) }
{
    let first = candidates(alloc, zero)?;
    if one == "none" {
        one_region(alloc, epoch, first)
    } else {
        two_regions(alloc, epoch, first, candidates(alloc, one)?)
    }
}
