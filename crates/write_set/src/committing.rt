//! What an epoch's committed candidates change, by their outcomes.
ghost use Rattle.std.specs.Prelude.{◌≡◌, ◌++◌, length, map, IfOk, OnOk};
ghost use Rattle.write_set.specs.Journal.{candidates_of};
ghost use Rattle.write_set.specs.Merge.{committed_among, is_committed};
ghost use Rattle.write_set.specs.Snapshot.{changes_of};
ghost use Rattle.write_set.specs.inner.Gathering.{all_items, changes_among};

use crate::batch::Batch;
use crate::candidate::Candidate;
use crate::change::Change;
use geo_base::{NoMemory, Outcome, RowId};
use std::alloc::Global;

/// The changes of the candidates that the outcomes say to commit, by region and then commit number.
pub fn committed_changes<'a>(
    alloc: Global,
    batches: &[&'a Batch],
    outcomes: &[Outcome],
) -> Result<Vec<&'a (RowId, Change)>, NoMemory>
    requires { length outcomes.now ≡ length (candidates_of (map (λ b. b.now) batches.now)) }
    ensures { IfOk result (λ changes. map (λ c. c.now) changes.items ≡ changes_of (committed_among (candidates_of (map (λ b. b.now) batches.now)) outcomes.now)) }
{
    let candidates = all_candidates(alloc, batches)?;
    changes_among(alloc, candidates.as_slice(), outcomes)
}

/// The changes of those candidates whose outcome is that they commit.
fn changes_among<'a>(
    alloc: Global,
    candidates: &[&'a Candidate],
    outcomes: &[Outcome],
) -> Result<Vec<&'a (RowId, Change)>, NoMemory>
    requires { length outcomes.now ≡ length candidates.now }
    ensures { IfOk result (λ changes. map (λ c. c.now) changes.items ≡ changes_among (map (λ c. c.now) candidates.now) outcomes.now) }
{
    let mut changes = Vec::new(alloc);
    for (place, candidate) in candidates.iter().enumerate() {
        if is_committed(&outcomes[place]) {
            add_each(&mut changes, candidate.set.changes())?;
        }
    }
    Ok(changes)
}

fn is_committed(outcome: &Outcome) -> bool
    ensures { result ≡ is_committed outcome.now }
{
    match outcome {
        Outcome::Committed => true,
        _ => false,
    }
}

/// The candidates of the batches, one batch after another.
fn all_candidates<'a>(alloc: Global, batches: &[&'a Batch]) -> Result<Vec<&'a Candidate>, NoMemory>
    ensures { IfOk result (λ all. map (λ c. c.now) all.items ≡ all_items (map (λ b. b.now) batches.now)) }
{
    let mut all = Vec::new(alloc);
    for batch in batches {
        add_each(&mut all, batch.items.items())?;
    }
    Ok(all)
}

/// Adds each of the items.
fn add_each<'a, T>(all: &mut Vec<&'a T>, items: &'a [T]) -> Result<(), NoMemory>
    ensures { OnOk result (map (λ x. x.now) all.new.items ≡ map (λ x. x.now) all.old.items ++ items.entry.now) }
{
    for item in items {
        all.push(item)?;
    }
    Ok(())
}
