//! Epochs of two regions, made from texts: the candidates of a batch have `; ` between them, one that aborts stands
//! behind a `!`, and the second region's batch stands behind ` | `. A batch without candidates is `none`.
ghost use Rattle.std.specs.Prelude.{◌≡◌, [], ◌∷◌, length, IfOk, IsTrue};
ghost use Rattle.write_set.specs.Journal.{candidates_of};

use crate::changes::{row_named, set_of};
use geo_base::{Epoch, Outcome, RegionNo};
use std::alloc::Global;
use std::test::Fail;
use write_set::{Batch, Candidate, CandidateList};

/// The batches of an epoch, and the outcomes of their candidates.
#[derive(Drop)]
pub struct Judged {
    pub zero: Batch,
    pub one: Batch,
    pub outcomes: Vec<Outcome>,
}

/// Adds the outcome of the candidate of a text, and answers the text of its changes.
fn judge<'a>(alloc: Global, text: &'a str, outcomes: &mut Vec<Outcome>) -> Result<&'a str, Fail> {
    match text.strip_prefix('!') {
        Some(texts) => {
            outcomes.push(Outcome::Changed(row_named(alloc, "0 0")?, 0))?;
            Ok(texts)
        }
        None => {
            outcomes.push(Outcome::Committed)?;
            Ok(text)
        }
    }
}

/// The batch of a region, whose outcomes are added behind those of the others.
fn batch_of(
    alloc: Global,
    region: RegionNo,
    epoch: Epoch,
    texts: &str,
    outcomes: &mut Vec<Outcome>,
) -> Result<Batch, Fail> {
    let mut items = Vec::new(alloc);
    if texts != "none" {
        for text in texts.split("; ") {
            let set = set_of(alloc, judge(alloc, text, outcomes)?)?;
            items.push(Candidate { start: 0, set })?;
        }
    }
    Ok(Batch {
        region,
        epoch,
        items: CandidateList::new(items),
    })
}

/// Whether there is an outcome for each candidate.
#[tactic(auto, using(crate::proofs::Counting::two_batches))]
fn are_as_many(outcomes: &[Outcome], zero: &Batch, one: &Batch) -> bool
    ensures { IsTrue result → length outcomes.now ≡ length (candidates_of (zero.now ∷ one.now ∷ [])) }
{
    let first = zero.items.items().len();
    first <= outcomes.len() && outcomes.len() - first == one.items.items().len()
}

/// The batches of the epoch that a text spells.
pub fn judged_of(alloc: Global, epoch: Epoch, texts: &str) -> Result<Judged, Fail>
    ensures { IfOk result (λ j. length j.outcomes.items ≡ length (candidates_of (j.zero ∷ j.one ∷ []))) }
{
    let (zero, one) = texts.split_once(" | ").unwrap_or((texts, "none"));
    let mut outcomes = Vec::new(alloc);
    let zero = batch_of(alloc, 0, epoch, zero, &mut outcomes)?;
    let one = batch_of(alloc, 1, epoch, one, &mut outcomes)?;
    if !are_as_many(outcomes.as_slice(), &zero, &one) {
        return Err("an outcome for each candidate".into());
    }
    Ok(Judged {
        zero,
        one,
        outcomes,
    })
}
