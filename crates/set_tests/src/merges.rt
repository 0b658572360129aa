//! Verdicts and rows of small journals, worked by hand from the rules of merging.
ghost use Rattle.std.specs.Prelude.{◌≡◌, IsTrue, IfOk, IfSome};
ghost use Rattle.write_set.specs.Journal.{IsCandidate, IsBatch};

use crate::changes::{add_name, add_row, change_of, row_of, with_words};
use geo_base::limits::{MAX_AGE, MAX_CANDIDATES};
use geo_base::{Duplicate, Epoch, Outcome, RegionNo};
use std::alloc::Global;
use std::fmt::Write;
use std::test::Fail;
use write_set::{Batch, Candidate, CandidateList, Plain, WriteSet};

/// A candidate's epoch, region and start, its changes, and what it is told.
pub type Case<'a> = (Epoch, RegionNo, Epoch, &'a str, &'a str);

/// The set of a first change, and of one behind it if there is one.
fn set_of(alloc: Global, words: &str) -> Result<WriteSet, Fail> {
    let (first, rest) = words.split_once(' ').unwrap_or((words, ""));
    let (key, change) = change_of(alloc, first)?;
    let one = WriteSet::one(alloc, row_of(alloc, key)?, change)?;
    with_words(alloc, &one, rest)
}

fn is_lawful(epoch: Epoch, c: &Candidate) -> bool
    ensures { IsTrue result → IsCandidate epoch c.now }
{
    let changes = c.set.changes();
    c.start < epoch && epoch - c.start <= MAX_AGE && !changes.is_empty()
}

fn batch_of(region: RegionNo, epoch: Epoch, items: Vec<Candidate>) -> Option<Batch>
    ensures { IfSome result (IsBatch region epoch) }
{
    if items.len() > MAX_CANDIDATES as usize || !items.iter().all(|c| is_lawful(epoch, c)) {
        return None;
    }
    Some(Batch {
        region,
        epoch,
        items: CandidateList::new(items),
    })
}

fn candidates_of(
    alloc: Global,
    region: RegionNo,
    epoch: Epoch,
    cases: &[Case],
) -> Result<Vec<Candidate>, Fail> {
    let mut items = Vec::new(alloc);
    for (of_epoch, of_region, start, words, _) in cases {
        if *of_epoch == epoch && *of_region == region {
            let set = set_of(alloc, words)?;
            items.push(Candidate { start: *start, set })?;
        }
    }
    Ok(items)
}

/// A copy of the region's batch.
fn region_batch(
    alloc: Global,
    region: RegionNo,
    epoch: Epoch,
    cases: &[Case],
) -> Result<Batch, Fail>
    ensures { IfOk result (IsBatch region epoch) }
{
    let items = candidates_of(alloc, region, epoch, cases)?;
    let batch = batch_of(region, epoch, items).ok_or("an unlawful batch")?;
    Ok(batch.copy(alloc)?)
}

fn add_outcome(out: &mut String, outcome: &Outcome) -> Result<(), Fail> {
    match outcome {
        Outcome::Committed => out.push_str("; committed")?,
        Outcome::Changed(row, epoch) => {
            out.push_str("; changed ")?;
            add_name(out, row)?;
            write!(out, " in {epoch}")?;
        }
        Outcome::Beaten(row, winner) => {
            out.push_str("; beaten ")?;
            add_name(out, row)?;
            write!(out, " by {}.{}.{}", winner.epoch, winner.region, winner.csn)?;
        }
    }
    Ok(())
}

fn text_of(alloc: Global, outcomes: &[Outcome]) -> Result<String, Fail> {
    let mut out = String::new(alloc);
    for outcome in outcomes {
        add_outcome(&mut out, outcome)?;
    }
    Ok(out)
}

/// What the candidates of the epoch are to be told.
fn wanted_of(alloc: Global, epoch: Epoch, cases: &[Case]) -> Result<String, Fail> {
    let mut out = String::new(alloc);
    for (of_epoch, _, _, _, told) in cases {
        if *of_epoch == epoch {
            out.push_str("; ")?;
            out.push_str(told)?;
        }
    }
    Ok(out)
}

/// Merges the next epoch of two regions, and says what the candidates are told.
pub fn merge(alloc: Global, plain: &mut Plain, cases: &[Case]) -> Result<String, Fail>
    requires { plain.old.regions ≡ 2 }
    ensures { plain.new.regions ≡ 2 }
{
    let done = plain.epoch();
    if done > 99 {
        return Err("too many epochs".into());
    }
    let zero = region_batch(alloc, 0, done + 1, cases)?;
    let one = region_batch(alloc, 1, done + 1, cases)?;
    let batches = [zero, one];
    let told = plain.step(&batches)?;
    text_of(alloc, &told)
}

/// Merges the next epoch, and says whether its candidates are told what they are to be told.
fn is_told(alloc: Global, plain: &mut Plain, epoch: Epoch, cases: &[Case]) -> Result<bool, Fail>
    requires { plain.old.regions ≡ 2 }
    ensures { plain.new.regions ≡ 2 }
{
    let told = merge(alloc, plain, cases)?;
    let wanted = wanted_of(alloc, epoch, cases)?;
    Ok(told.as_str() == wanted.as_str())
}

/// The rows at the places from 0 on, and `; end` where there is none.
fn text_by_places(alloc: Global, plain: &Plain) -> Result<String, Fail> {
    let mut out = String::new(alloc);
    for place in 0..=plain.count() {
        match plain.row(place) {
            Some((row, image)) => add_row(&mut out, row, image)?,
            None => out.push_str("; end")?,
        }
    }
    Ok(out)
}

/// The rows of the keys from 0 to 9, and `; end` behind them.
fn text_by_names(alloc: Global, plain: &Plain) -> Result<String, Fail> {
    let mut out = String::new(alloc);
    for key in 0..10 {
        let row = row_of(alloc, key)?;
        if let Some(image) = plain.get(&row) {
            add_row(&mut out, &row, image)?;
        }
    }
    out.push_str("; end")?;
    Ok(out)
}

/// Whether there are these rows, by their places and by their names.
fn has_rows(alloc: Global, plain: &Plain, text: &str) -> Result<bool, Fail> {
    let places = text_by_places(alloc, plain)?;
    let names = text_by_names(alloc, plain)?;
    Ok(places.as_str() == text && names.as_str() == text)
}

/// Merges the epochs up to the last, and says whether all candidates are told what they are to be told.
fn are_told(alloc: Global, plain: &mut Plain, last: Epoch, cases: &[Case]) -> Result<bool, Fail>
    requires { plain.old.regions ≡ 2 }
{
    for epoch in 1..=last {
        if !is_told(alloc, plain, epoch, cases)? {
            return Ok(false);
        }
    }
    Ok(true)
}

/// Whether so many epochs of two regions tell the candidates what they are to be told, and leave these rows.
fn is_followed(alloc: Global, last: Epoch, cases: &[Case], rows: &str) -> Result<bool, Fail> {
    let mut plain = Plain::empty(alloc, 2);
    Ok(are_told(alloc, &mut plain, last, cases)? && has_rows(alloc, &plain, rows)?)
}

#[test]
fn the_best_of_an_epoch_wins(rt: HostRuntime) -> Result<(), Fail> {
    let later_start: [Case; 3] = [
        (1, 0, 0, "1=10", "committed"),
        (3, 0, 1, "1=11", "beaten 0(1) by 3.0.1"),
        (3, 0, 2, "1=12", "committed"),
    ];
    let number_before_region: [Case; 3] = [
        (1, 0, 0, "9=9", "committed"),
        (1, 0, 0, "1=10", "beaten 0(1) by 1.1.0"),
        (1, 1, 0, "1=20", "committed"),
    ];
    let lesser_region: [Case; 2] = [
        (1, 0, 0, "1=10", "committed"),
        (1, 1, 0, "1=20", "beaten 0(1) by 1.0.0"),
    ];
    let beaten_by_a_loser: [Case; 3] = [
        (1, 0, 0, "1=1", "committed"),
        (1, 0, 0, "1=2 2=2", "beaten 0(1) by 1.0.0"),
        (1, 0, 0, "2=3", "beaten 0(2) by 1.0.1"),
    ];
    for (cases, rows) in [
        (later_start.as_slice(), "; 0(1) -> (1, 12); end"),
        (
            number_before_region.as_slice(),
            "; 0(1) -> (1, 20); 0(9) -> (9, 9); end",
        ),
        (lesser_region.as_slice(), "; 0(1) -> (1, 10); end"),
        (beaten_by_a_loser.as_slice(), "; 0(1) -> (1, 1); end"),
    ] {
        assert!(rt; is_followed(rt.alloc(), 3, cases, rows)?, "{rows}");
    }
    Ok(())
}

#[test]
fn a_change_after_the_start_aborts(rt: HostRuntime) -> Result<(), Fail> {
    let changed_since: [Case; 3] = [
        (1, 0, 0, "1=10", "committed"),
        (2, 0, 1, "1=12", "committed"),
        (3, 0, 1, "1=11", "changed 0(1) in 2"),
    ];
    let changed_at_the_start: [Case; 3] = [
        (1, 0, 0, "1=10", "committed"),
        (2, 0, 1, "1=11", "committed"),
        (3, 0, 2, "1=12", "committed"),
    ];
    let removed: [Case; 4] = [
        (1, 0, 0, "1=10 2=20", "committed"),
        (2, 1, 1, "1", "committed"),
        (3, 0, 1, "1=11", "changed 0(1) in 2"),
        (3, 1, 2, "2=21 3", "committed"),
    ];
    for (cases, rows) in [
        (changed_since.as_slice(), "; 0(1) -> (1, 12); end"),
        (changed_at_the_start.as_slice(), "; 0(1) -> (1, 12); end"),
        (removed.as_slice(), "; 0(2) -> (2, 21); end"),
    ] {
        assert!(rt; is_followed(rt.alloc(), 3, cases, rows)?, "{rows}");
    }
    Ok(())
}

/// A touched row is claimed and has to be fresh, and it is as it was.
#[test]
fn a_touch_claims_its_row(rt: HostRuntime) -> Result<(), Fail> {
    let put_beaten: [Case; 3] = [
        (1, 0, 0, "1=10", "committed"),
        (2, 0, 1, "@1", "committed"),
        (2, 0, 1, "1=20", "beaten 0(1) by 2.0.0"),
    ];
    let touch_beaten: [Case; 3] = [
        (1, 0, 0, "1=10", "committed"),
        (2, 0, 1, "@1 2=2", "committed"),
        (2, 1, 1, "@1 3=3", "beaten 0(1) by 2.0.0"),
    ];
    let each_has_both: [Case; 3] = [
        (1, 0, 0, "1=1 2=1", "committed"),
        (2, 0, 1, "1=0 @2", "committed"),
        (2, 0, 1, "@1 2=0", "beaten 0(1) by 2.0.0"),
    ];
    let changed_since: [Case; 3] = [
        (1, 0, 0, "1=10", "committed"),
        (2, 0, 1, "1=11", "committed"),
        (3, 0, 1, "@1 2=2", "changed 0(1) in 2"),
    ];
    let touched_since: [Case; 3] = [
        (1, 0, 0, "1=10", "committed"),
        (2, 0, 1, "@1", "committed"),
        (3, 0, 1, "1=12", "committed"),
    ];
    for (cases, rows) in [
        (put_beaten.as_slice(), "; 0(1) -> (1, 10); end"),
        (
            touch_beaten.as_slice(),
            "; 0(1) -> (1, 10); 0(2) -> (2, 2); end",
        ),
        (
            each_has_both.as_slice(),
            "; 0(1) -> (1, 0); 0(2) -> (2, 1); end",
        ),
        (changed_since.as_slice(), "; 0(1) -> (1, 11); end"),
        (touched_since.as_slice(), "; 0(1) -> (1, 12); end"),
    ] {
        assert!(rt; is_followed(rt.alloc(), 3, cases, rows)?, "{rows}");
    }
    Ok(())
}

/// A candidate of the greatest age, and a change just behind its start.
#[test]
fn candidates_are_up_to_64_epochs_old(rt: HostRuntime) -> Result<(), Fail> {
    let unchanged: [Case; 2] = [
        (1, 0, 0, "1=10", "committed"),
        (65, 0, 1, "1=11", "committed"),
    ];
    let changed: [Case; 3] = [
        (1, 0, 0, "1=10", "committed"),
        (2, 1, 1, "1=12", "committed"),
        (65, 0, 1, "1=11", "changed 0(1) in 2"),
    ];
    for (cases, rows) in [
        (unchanged.as_slice(), "; 0(1) -> (1, 11); end"),
        (changed.as_slice(), "; 0(1) -> (1, 12); end"),
    ] {
        assert!(rt; is_followed(rt.alloc(), 65, cases, rows)?, "{rows}");
    }
    Ok(())
}
