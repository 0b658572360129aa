//! Epochs of two regions, made from words.
ghost use Rattle.std.specs.Prelude.{◌≡◌, true, [], ◌∷◌, length, All, IsTrue};
ghost use Rattle.write_set.specs.declared.change.Change.TheVariants.{Touch};
ghost use Rattle.write_set.specs.Journal.{candidates_of};

use geo_base::{Cell, Epoch, Key, Outcome, RegionNo, RowId, RowImage};
use std::alloc::Global;
use std::fmt::Write;
use std::test::Fail;
use version_store::Versions;
use write_set::{Batch, Candidate, CandidateList, Change, RowChange, WriteSet};

/// The row that a word names: the numbers of its key with dots between them, behind its table and a colon where that
/// isn't table 0. So `1:2.5` is the row of table 1 whose key is (2, 5).
pub fn row_of(alloc: Global, word: &str) -> Result<RowId, Fail> {
    let (table, numbers) = word.split_once(':').unwrap_or(("0", word));
    let mut cells = Vec::new(alloc);
    for number in numbers.split('.') {
        cells.push(Cell::Int(number.parse()?))?;
    }
    let key = Key::new(cells)?;
    Ok(RowId {
        table: table.parse()?,
        key,
    })
}

fn put_of(alloc: Global, value: &str) -> Result<Change, Fail> {
    let image = RowImage::new(vec![in alloc; Cell::Int(value.parse()?)]?)?;
    Ok(Change::Put(image))
}

/// What a word does to a row: `1=10` puts 10 at row 1, `-1` removes it, and `@1` touches it.
fn change_of(alloc: Global, word: &str) -> Result<RowChange, Fail> {
    let (row, change) = if let Some(row) = word.strip_prefix('@') {
        (row, Change::Touch)
    } else if let Some(row) = word.strip_prefix('-') {
        (row, Change::Remove)
    } else {
        let (row, value) = word.split_once('=').ok_or("no change")?;
        (row, put_of(alloc, value)?)
    };
    Ok(RowChange {
        row: row_of(alloc, row)?,
        before: true,
        change,
    })
}

/// Whether each of the rows is in the snapshot.
fn are_known(changes: &[RowChange]) -> bool
    ensures { IsTrue result → All (λ c. c.change ≡ Touch → c.before ≡ true) changes.now }
{
    changes.iter().all(|change| change.before)
}

fn set_of(alloc: Global, changes: Vec<RowChange>) -> Result<WriteSet, Fail> {
    if are_known(&changes) {
        Ok(WriteSet::empty(alloc).with(alloc, changes)?)
    } else {
        Err("a row that isn't in the snapshot".into())
    }
}

/// The candidate that a word spells, whose changes have commas between them.
fn candidate_of(alloc: Global, start: Epoch, word: &str) -> Result<Candidate, Fail> {
    let mut changes = Vec::new(alloc);
    for change in word.split(',') {
        changes.push(change_of(alloc, change)?)?;
    }
    let set = set_of(alloc, changes)?;
    Ok(Candidate { start, set })
}

/// The candidates of a region, and their outcomes behind those of the others; one whose word is behind a `!` aborts.
fn batch_of(
    alloc: Global,
    region: RegionNo,
    epoch: Epoch,
    words: &str,
    outcomes: &mut Vec<Outcome>,
) -> Result<Batch, Fail> {
    let start = epoch.saturating_sub(1);
    let mut items = Vec::new(alloc);
    for word in words.split_whitespace() {
        let (word, outcome) = match word.strip_prefix('!') {
            Some(word) => (word, Outcome::Changed(row_of(alloc, "0")?, start)),
            None => (word, Outcome::Committed),
        };
        items.push(candidate_of(alloc, start, word)?)?;
        outcomes.push(outcome)?;
    }
    Ok(Batch {
        region,
        epoch,
        items: CandidateList::new(items),
    })
}

/// Whether there is an outcome for each candidate.
#[tactic(auto, using(crate::proofs::Counts::two_batches))]
fn are_as_many(outcomes: &[Outcome], zero: &Batch, one: &Batch) -> bool
    ensures { IsTrue result → length outcomes.now ≡ length (candidates_of (zero.now ∷ one.now ∷ [])) }
{
    let first = zero.items.items().len();
    first <= outcomes.len() && outcomes.len() - first == one.items.items().len()
}

/// Applies the next epoch, which has a candidate for each word, those of the second region behind a `/`.
pub fn apply(alloc: Global, versions: &mut Versions, words: &str) -> Result<(), Fail> {
    let epoch = versions.applied().checked_add(1).ok_or("too many epochs")?;
    let (zero, one) = words.split_once('/').unwrap_or((words, ""));
    let mut outcomes = Vec::new(alloc);
    let zero = batch_of(alloc, 0, epoch, zero, &mut outcomes)?;
    let one = batch_of(alloc, 1, epoch, one, &mut outcomes)?;
    if !are_as_many(outcomes.as_slice(), &zero, &one) {
        return Err("an outcome for each candidate".into());
    }
    Ok(versions.apply_epoch(epoch, &[&zero, &one], outcomes.as_slice())?)
}

/// Applies the next epoch, which has a candidate for each of the rows of table 0 with keys from the first on and up to
/// the last: one that removes the row where `change` is `-`, and else one that puts what stands in it behind `=`.
pub fn apply_many(
    alloc: Global,
    versions: &mut Versions,
    first: u32,
    last: u32,
    change: &str,
) -> Result<(), Fail> {
    let (before, behind) = match change {
        "-" => ("-", ""),
        _ => ("", change),
    };
    let mut words = String::new(alloc);
    for key in first..=last {
        write!(words, "{before}{key}{behind} ")?;
    }
    apply(alloc, versions, words.as_str())
}
