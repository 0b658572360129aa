//! A round that one thread ends.
ghost use Rattle.std.specs.Prelude.{◌≡◌, ◌<◌, All, IfOk, length};
ghost use Rattle.claim_rule.specs.Seats.{HasAllShares, IsOnce};
ghost use Rattle.merge_round.specs.Rounds.{outcomes_of};
ghost use Rattle.merge_round.specs.Seats.{round_of, work_of, IsWorkerOf};
ghost use Rattle.merge_round.specs.Gathers.{DrewAllApart, AreAllSeats};

use crate::claiming::Claimed;
use crate::judged::Judged;
use crate::judging::Judgement;
use crate::round::MergeRound;
use crate::seat::WorkerSeat;
use geo_base::NoMemory;
use std::alloc::Global;
use write_set::Changes;

impl<C: Changes + Drop> MergeRound<C> {
    /// Ends the round with all of its seats, whatever they have done: the outcomes of all candidates by their
    /// numbers. The seats are joined into one, which claims for the candidates that are left and then judges
    /// those that are left. After an error the round is gone, and can be made anew.
    pub fn finish(self, alloc: Global, seats: Vec<WorkerSeat>) -> Result<Judged, NoMemory>
        requires seats { All (IsWorkerOf (round_of self)) seats.items }
        requires all { AreAllSeats (round_of self) seats.items }
        ensures epoch { IfOk result (λ judged. judged.epoch ≡ (round_of self).epoch) }
        ensures outcomes { IfOk result (λ judged. judged.outcomes ≡ outcomes_of (round_of self)) }
        ensures apart { DrewAllApart seats.items }
        ensures once { All (λ seat. IsOnce (work_of seat)) seats.items }
    {
        let judged = self.finished(alloc, seats);
        drop(self);
        judged
    }

    fn finished(&self, alloc: Global, seats: Vec<WorkerSeat>) -> Result<Judged, NoMemory>
        requires seats { All (IsWorkerOf (round_of self.now)) seats.items }
        requires all { AreAllSeats (round_of self.now) seats.items }
        ensures epoch { IfOk result (λ judged. judged.epoch ≡ (round_of self.now).epoch) }
        ensures outcomes { IfOk result (λ judged. judged.outcomes ≡ outcomes_of (round_of self.now)) }
        ensures apart { DrewAllApart seats.items }
        ensures once { All (λ seat. IsOnce (work_of seat)) seats.items }
    {
        let mut seat = self.together(seats).unwrap();
        self.claim_rest(&mut seat);
        self.judge_rest(&mut seat);
        self.settle(&mut seat);
        Ok(Judged {
            epoch: self.input.epoch,
            outcomes: self.outcomes(alloc, &seat.verdicts)?,
        })
    }

    /// Claims for all candidates that are left.
    fn claim_rest(&self, seat: &mut WorkerSeat)
        requires { IsWorkerOf (round_of self.now) seat.old }
        ensures seat { IsWorkerOf (round_of self.now) seat.new }
        ensures over { 0 < length (work_of seat.new).claiming.late }
        ensures shares { (work_of seat.new).shares ≡ (work_of seat.old).shares }
    {
        while let Claimed::Made(_) = self.claim_next(seat) {}
    }

    /// Judges all candidates that are left. It meets no unfinished claim, since no other seat has any.
    fn judge_rest(&self, seat: &mut WorkerSeat)
        requires seat { IsWorkerOf (round_of self.now) seat.old }
        requires all { HasAllShares (round_of self.now).table (work_of seat.old) }
        requires claimed { 0 < length (work_of seat.old).claiming.late }
        ensures seat { IsWorkerOf (round_of self.now) seat.new }
        ensures over { 0 < length (work_of seat.new).judging.late }
        ensures shares { (work_of seat.new).shares ≡ (work_of seat.old).shares }
    {
        while let Judgement::Verdict(_, _) = self.judge_next(seat) {}
    }
}
