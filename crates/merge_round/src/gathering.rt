//! The end of a round.
ghost use Rattle.std.specs.Prelude.{◌≡◌, ◌<◌, ◌∷◌, ◌++◌, ℕ, Some, [], All, IfNone, IfSome, IfOk, IfErr, length};
ghost use Rattle.std.specs.List.{slice_get};
ghost use Rattle.geo_base.specs.declared.outcome.Outcome.{Outcome};
ghost use Rattle.claim_rule.specs.Views.{views_joined};
ghost use Rattle.claim_rule.specs.Seats.{IsOnce, HasAllShares, DrewApart};
ghost use Rattle.merge_round.specs.Rounds.{rows_in, outcomes_of, numbered};
ghost use Rattle.merge_round.specs.Seats.{round_of, work_of, verdicts_of, IsWorkerOf};
ghost use Rattle.merge_round.specs.Gathers.{IsJudgedBy, DrewAllApart, AreAllSeats, HasLateJudge, HasGatherCause};
ghost use Rattle.merge_round.specs.declared.fault.GatherFault.TheVariants as gather_fault;
ghost use Rattle.merge_round.specs.inner.Entries.{IsNamed};
ghost use Rattle.merge_round.specs.inner.Gathering.{all_verdicts, IsOutcome, HasVerdict, IsFirstLacking, TakesOver, IsWhole, IsSettled, IsGathered};

use crate::fault::GatherFault;
use crate::judged::Judged;
use crate::round::MergeRound;
use crate::seat::WorkerSeat;
use crate::verdict::Verdict;
use geo_base::{Duplicate, NoMemory, Outcome, RowId};
use std::alloc::Global;
use write_set::Changes;

impl<C: Changes + Drop> MergeRound<C> {
    /// Ends the round: the outcomes of all candidates by their numbers, or the least number of a candidate
    /// that none of these seats judged. The seats are some or all of those of this round. Where they are all,
    /// and one of them was told `Spent` by `judge_next`, only want of memory is an error. After an error the
    /// round is gone, and can be made anew.
    pub fn gather(self, alloc: Global, seats: Vec<WorkerSeat>) -> Result<Judged, GatherFault>
        requires { All (IsWorkerOf (round_of self)) seats.items }
        ensures epoch { IfOk result (λ judged. judged.epoch ≡ (round_of self).epoch) }
        ensures outcomes { IfOk result (λ judged. judged.outcomes ≡ outcomes_of (round_of self)) }
        ensures whole { IfOk result (λ _. (number : ℕ) → number < length (round_of self).all → IsJudgedBy seats.items number) }
        ensures unjudged { IfErr result (HasGatherCause (round_of self) seats.items) }
        ensures all_given { AreAllSeats (round_of self) seats.items → HasLateJudge seats.items → IfErr result (λ fault. fault ≡ gather_fault.NoMemory) }
        ensures apart { DrewAllApart seats.items }
        ensures once { All (λ seat. IsOnce (work_of seat)) seats.items }
    {
        let judged = self.decided(alloc, seats);
        drop(self);
        judged
    }

    fn decided(&self, alloc: Global, seats: Vec<WorkerSeat>) -> Result<Judged, GatherFault>
        requires { All (IsWorkerOf (round_of self.now)) seats.items }
        ensures epoch { IfOk result (λ judged. judged.epoch ≡ (round_of self.now).epoch) }
        ensures outcomes { IfOk result (λ judged. judged.outcomes ≡ outcomes_of (round_of self.now)) }
        ensures whole { IfOk result (λ _. (number : ℕ) → number < length (round_of self.now).all → IsJudgedBy seats.items number) }
        ensures unjudged { IfErr result (HasGatherCause (round_of self.now) seats.items) }
        ensures all_given { AreAllSeats (round_of self.now) seats.items → HasLateJudge seats.items → IfErr result (λ fault. fault ≡ gather_fault.NoMemory) }
        ensures apart { DrewAllApart seats.items }
        ensures once { All (λ seat. IsOnce (work_of seat)) seats.items }
    {
        let verdicts = self.gathered(alloc, seats);
        match first_unjudged(&verdicts, self.count()) {
            Some(number) => Err(GatherFault::Unjudged(number)),
            None => Ok(Judged {
                epoch: self.input.epoch,
                outcomes: self.outcomes(alloc, &verdicts)?,
            }),
        }
    }

    /// The verdicts that these seats found.
    fn gathered(&self, alloc: Global, seats: Vec<WorkerSeat>) -> Vec<Option<Verdict>>
        requires { All (IsWorkerOf (round_of self.now)) seats.items }
        ensures { IsGathered (round_of self.now) seats.items result.items }
    {
        match self.together(seats) {
            Some(seat) => seat.verdicts,
            None => Vec::new(alloc),
        }
    }

    /// All these seats as one, if there are any.
    pub(crate) fn together(&self, seats: Vec<WorkerSeat>) -> Option<WorkerSeat>
        requires { All (IsWorkerOf (round_of self.now)) seats.items }
        ensures seat { IfSome result (IsWorkerOf (round_of self.now)) }
        ensures whole { IfSome result (IsWhole seats.items) }
        ensures settled { IfSome result (IsSettled (round_of self.now)) }
        ensures none { IfNone result (seats.items ≡ []) }
    {
        let mut others = seats;
        let mut seat = others.pop()?;
        while let Some(other) = others.pop() {
            self.join(&mut seat, other);
        }
        self.settle(&mut seat);
        Some(seat)
    }

    /// Shows what the seat has drawn.
    pub(crate) fn settle(&self, seat: &mut WorkerSeat)
        requires { IsWorkerOf (round_of self.now) seat.old }
        ensures seat { IsWorkerOf (round_of self.now) seat.new }
        ensures work { work_of seat.new ≡ work_of seat.old }
        ensures verdicts { verdicts_of seat.new ≡ verdicts_of seat.old }
        ensures settled { IsSettled (round_of self.now) seat.new }
    {
        self.table.settle(&mut seat.claims);
    }

    /// Takes in what another seat has done, and its verdicts.
    fn join(&self, seat: &mut WorkerSeat, other: WorkerSeat)
        requires seat { IsWorkerOf (round_of self.now) seat.old }
        requires other { IsWorkerOf (round_of self.now) other }
        ensures seat { IsWorkerOf (round_of self.now) seat.new }
        ensures work { work_of seat.new ≡ views_joined (work_of seat.old) (work_of other) }
        ensures apart { DrewApart (work_of seat.old) (work_of other) }
    {
        let WorkerSeat {
            claims,
            claims_over,
            judging_over,
            verdicts,
        } = other;
        self.table.join(&mut seat.claims, claims);
        seat.claims_over = seat.claims_over || claims_over;
        seat.judging_over = seat.judging_over || judging_over;
        take_over(&mut seat.verdicts, &verdicts);
    }

    /// The outcomes that the verdicts are.
    pub(crate) fn outcomes(
        &self,
        alloc: Global,
        verdicts: &[Option<Verdict>],
    ) -> Result<Vec<Outcome>, NoMemory>
        requires { verdicts.now ≡ all_verdicts (round_of self.now) }
        ensures { IfOk result (λ outcomes. outcomes.items ≡ outcomes_of (round_of self.now)) }
    {
        let mut outcomes = Vec::with_capacity(alloc, verdicts.len())?;
        for found in verdicts {
            let verdict = found.unwrap();
            outcomes.push(self.outcome(alloc, verdict)?)?;
        }
        Ok(outcomes)
    }

    /// The outcome that the verdict is, with the row's name in place of its number.
    fn outcome(&self, alloc: Global, verdict: Verdict) -> Result<Outcome, NoMemory>
        requires { IsOutcome (rows_in (round_of self.now).all) verdict }
        ensures { (outcome : Outcome) → IsNamed (rows_in (round_of self.now).all) outcome →
            numbered (rows_in (round_of self.now).all) outcome ≡ verdict → IfOk result (λ o. o ≡ outcome) }
    {
        match verdict {
            Verdict::Committed => Ok(Outcome::Committed),
            Verdict::Changed(row, last) => Ok(Outcome::Changed(
                self.row_at(row).copy(alloc)?,
                last,
            )),
            Verdict::Beaten(row, winner) => Ok(Outcome::Beaten(
                self.row_at(row).copy(alloc)?,
                winner,
            )),
        }
    }
}

/// The least of so many numbers for which there is no verdict.
fn first_unjudged(verdicts: &[Option<Verdict>], count: u32) -> Option<u32>
    ensures none { IfNone result ((number : ℕ) → number < count → HasVerdict verdicts.now number) }
    ensures some { IfSome result (IsFirstLacking verdicts.now count) }
{
    for number in 0..count {
        match verdicts.get(number as usize) {
            Some(Some(_)) => {}
            _ => return Some(number),
        }
    }
    None
}

/// Puts the other verdicts where there are none.
fn take_over(verdicts: &mut [Option<Verdict>], others: &[Option<Verdict>])
    requires { length verdicts.old ≡ length others.now }
    ensures { TakesOver verdicts.old others.now verdicts.new }
{
    for number in 0..verdicts.len() {
        if verdicts[number].is_none() {
            verdicts[number] = others[number];
        }
    }
}
