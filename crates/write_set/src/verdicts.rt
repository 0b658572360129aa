//! What becomes of the candidates of one epoch, each compared with each other.
ghost use Rattle.std.specs.Prelude.{◌≡◌, IfOk, map};
ghost use Rattle.std.specs.Option.{option_copied};
ghost use Rattle.write_set.specs.Sets.{has_row, Rises};
ghost use Rattle.write_set.specs.Merge.{wins, is_fresh, first_changed};
ghost use Rattle.write_set.specs.inner.Entrants.{placed, fresh_of, takes_row, loses_row, is_better, keeper_of, first_lost, lost_or_committed, outcome_of, writes_of};
ghost use Rattle.write_set.specs.Plain.{last_in};

use crate::change::Change;
use crate::entrant::Entrant;
use crate::set::copy_changes;
use crate::table::value_of;
use geo_base::{CandId, Claim, Duplicate, Epoch, NoMemory, Outcome, RowId, beats};
use std::alloc::Global;

/// The last epoch that changed the row, or 0.
pub(crate) fn last_change(changes: &[(RowId, Epoch)], row: &RowId) -> Epoch
    requires { Rises changes.now }
    ensures { result ≡ last_in changes.now row.now }
{
    value_of(changes, row).copied().unwrap_or(0)
}

/// Whether the candidate has the row, changed or touched.
fn has_row(row: &RowId, c: &Entrant) -> bool
    ensures { let set = (placed c.now).set in result ≡ has_row row.now set }
{
    value_of(c.candidate.set.changes(), row).is_some()
}

/// Whether the first candidate wins over the second.
fn wins(a: &Entrant, b: &Entrant) -> bool
    ensures { result ≡ wins (placed a.now) (placed b.now) }
{
    beats(claim_of(a), claim_of(b))
}

fn claim_of(c: &Entrant) -> Claim
    ensures { result ≡ record { start = c.now.candidate.now.start; csn = c.now.csn; region = c.now.region } }
{
    Claim {
        start: c.candidate.start,
        csn: c.csn,
        region: c.region,
    }
}

/// Whether no row of the candidate, changed or touched by it, was changed after its start.
fn is_fresh(changes: &[(RowId, Epoch)], c: &Entrant) -> bool
    requires { Rises changes.now }
    ensures { result ≡ is_fresh (last_in changes.now) (placed c.now) }
{
    let start = c.candidate.start;
    c.candidate
        .set
        .changes()
        .iter()
        .all(|change| last_change(changes, &change.0) <= start)
}

/// The first row of the candidate that was changed after its start.
fn first_changed<'a>(changes: &[(RowId, Epoch)], c: &Entrant<'a>) -> Option<&'a (RowId, Change)>
    requires { Rises changes.now }
    ensures { option_copied result ≡ first_changed (last_in changes.now) (placed c.now) }
{
    let start = c.candidate.start;
    c.candidate
        .set
        .changes()
        .iter()
        .find(|change| start < last_change(changes, &change.0))
}

/// The fresh ones of the candidates.
pub(crate) fn fresh_ones<'a>(
    alloc: Global,
    changes: &[(RowId, Epoch)],
    all: &[Entrant<'a>],
) -> Result<Vec<Entrant<'a>>, NoMemory>
    requires { Rises changes.now }
    ensures { IfOk result (λ fresh. map placed fresh.items ≡ fresh_of (last_in changes.now) (map placed all.now)) }
{
    let mut fresh = Vec::new(alloc);
    for c in all {
        if is_fresh(changes, c) {
            fresh.push(*c)?;
        }
    }
    Ok(fresh)
}

/// Whether the first candidate has the row and wins over the second.
fn takes_row(d: &Entrant, c: &Entrant, row: &RowId) -> bool
    ensures { result ≡ takes_row d.now (placed c.now) row.now }
{
    wins(d, c) && has_row(row, d)
}

/// Whether a fresh candidate that has the row wins over this one.
fn loses_row(fresh: &[Entrant], c: &Entrant, row: &RowId) -> bool
    ensures { result ≡ loses_row fresh.now (placed c.now) row.now }
{
    fresh.iter().any(|d| takes_row(d, c, row))
}

/// Whether the candidate has the row and wins over the best one before it, if there is one.
fn is_better(best: Option<&Entrant>, d: &Entrant, row: &RowId) -> bool
    ensures { result ≡ is_better (option_copied best.entry) d.now row.now }
{
    match best {
        Some(best) => takes_row(d, best, row),
        None => has_row(row, d),
    }
}

/// The fresh candidate that keeps the row: the best of those that have it.
fn keeper_of<'a, 'b>(fresh: &'b [Entrant<'a>], row: &RowId) -> Option<&'b Entrant<'a>>
    ensures { option_copied result ≡ keeper_of fresh.now row.now }
{
    let mut best = None;
    for d in fresh {
        if is_better(best, d, row) {
            best = Some(d);
        }
    }
    best
}

/// The candidate's first row that it loses.
fn first_lost<'a>(fresh: &[Entrant], c: &Entrant<'a>) -> Option<&'a (RowId, Change)>
    ensures { option_copied result ≡ first_lost fresh.now (placed c.now) }
{
    c.candidate
        .set
        .changes()
        .iter()
        .find(|change| loses_row(fresh, c, &change.0))
}

/// What becomes of a candidate none of whose rows was changed after its start.
fn lost_or_committed(
    alloc: Global,
    epoch: Epoch,
    fresh: &[Entrant],
    c: &Entrant,
) -> Result<Outcome, NoMemory>
    ensures { IfOk result (λ o. o ≡ lost_or_committed epoch fresh.now (placed c.now) (first_lost fresh.now (placed c.now))) }
{
    match first_lost(fresh, c) {
        Some((row, _)) => {
            let keeper = keeper_of(fresh, row).unwrap_or(c);
            let winner = CandId {
                epoch,
                region: keeper.region,
                csn: keeper.csn,
            };
            Ok(Outcome::Beaten(row.copy(alloc)?, winner))
        }
        None => Ok(Outcome::Committed),
    }
}

/// What becomes of the candidate.
fn outcome_of(
    alloc: Global,
    changes: &[(RowId, Epoch)],
    epoch: Epoch,
    fresh: &[Entrant],
    c: &Entrant,
) -> Result<Outcome, NoMemory>
    requires { Rises changes.now }
    ensures { IfOk result (λ o. o ≡ outcome_of (last_in changes.now) epoch fresh.now (placed c.now)) }
{
    match first_changed(changes, c) {
        Some((row, _)) => Ok(Outcome::Changed(row.copy(alloc)?, last_change(changes, row))),
        None => lost_or_committed(alloc, epoch, fresh, c),
    }
}

/// What becomes of an epoch's candidates, in order, and copies of the changes of those that commit.
#[derive(Debug, Drop)]
pub(crate) struct Judgement {
    pub(crate) outcomes: Vec<Outcome>,
    pub(crate) writes: Vec<(RowId, Change)>,
}

/// Judges the candidates of an epoch.
pub(crate) fn judge(
    alloc: Global,
    changes: &[(RowId, Epoch)],
    epoch: Epoch,
    fresh: &[Entrant],
    all: &[Entrant],
) -> Result<Judgement, NoMemory>
    requires { Rises changes.now }
    ensures outcomes { IfOk result (λ j. j.outcomes.items ≡ map (outcome_of (last_in changes.now) epoch fresh.now) (map placed all.now)) }
    ensures writes { IfOk result (λ j. j.writes.items ≡ writes_of (outcome_of (last_in changes.now) epoch fresh.now) (map placed all.now)) }
{
    let mut outcomes = Vec::new(alloc);
    let mut writes = Vec::new(alloc);
    for c in all {
        let outcome = outcome_of(alloc, changes, epoch, fresh, c)?;
        if matches!(outcome, Outcome::Committed) {
            copy_changes(&mut writes, alloc, c.candidate.set.changes())?;
        }
        outcomes.push(outcome)?;
    }
    Ok(Judgement { outcomes, writes })
}
