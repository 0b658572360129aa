//! How a round is made, with its seats.
ghost use Rattle.std.specs.Prelude.{◌≡◌, ◌^◌, ◌≤◌, ◌<◌, All, IfOk, length};
ghost use Rattle.geo_base.specs.declared.limits.TheConstants.{MAX_REGIONS};
ghost use Rattle.write_set.specs.Journal.{AreBatches, candidates_of};
ghost use Rattle.claim_rule.specs.declared.limits.TheConstants.{MAX_WORKERS};
ghost use Rattle.claim_rule.specs.Plan.{IsPlan};
ghost use Rattle.claim_rule.specs.Seats.{rows_of, workers_of, IsNewSeatOf};
ghost use Rattle.merge_round.specs.Rounds.{Round, plan_by, plan_of};
ghost use Rattle.merge_round.specs.Seats.{round_of, IsNewWorkerOf};
ghost use Rattle.merge_round.specs.Gathers.{AreAllSeats};

use crate::input::RoundInput;
use crate::numbering::{Numbering, number};
use crate::round::MergeRound;
use crate::seat::WorkerSeat;
use claim_rule::{ClaimPlan, ClaimSeat, ClaimTable};
use geo_base::{Epoch, NoMemory};
use std::alloc::Global;
use std::marker::Brand;
use write_set::Changes;

impl<C: Changes + Drop> MergeRound<C> {
    /// A round of the batches, which are of the epoch and one for each region in their order, and a seat for
    /// each worker.
    ///
    /// It numbers the candidates and their rows, and asks nothing of the rows' last changes: that is the work
    /// of the seats. A seat's room for verdicts is taken here.
    pub fn new(
        alloc: Global,
        input: RoundInput<C>,
        workers: u8,
    ) -> Result<(MergeRound<C>, Vec<WorkerSeat>), NoMemory>
        requires regions { length input.batches ≤ MAX_REGIONS }
        requires lawful { AreBatches 0 input.epoch input.batches }
        requires workers { (0 < workers) × (workers ≤ MAX_WORKERS) }
        ensures epoch { IfOk result (λ made. (round_of made.0).epoch ≡ input.epoch) }
        ensures all { IfOk result (λ made. (round_of made.0).all ≡ candidates_of input.batches) }
        ensures last { IfOk result (λ made. (round_of made.0).last ≡ C.last input.before) }
        ensures count { IfOk result (λ made. length made.1.items ≡ workers) }
        ensures seats { IfOk result (λ made. All (IsNewWorkerOf (round_of made.0)) made.1.items) }
        ensures whole { IfOk result (λ made. AreAllSeats (round_of made.0) made.1.items) }
    {
        epoch_fits(input.epoch);
        let Numbering { rows, entries } = number(alloc, input.batches.items())?;
        let row_count = rows.len() as u32;
        let count = entries.len() as u32;
        let (table, claims) = table_for::<C, Brand>(alloc, &input, row_count, count, workers)?;
        let seats = seat_workers(alloc, claims, count)?;
        let round = MergeRound {
            input,
            rows,
            entries,
            table,
        };
        Ok((round, seats))
    }
}

/// An epoch is a number of 32 bits.
fn epoch_fits(epoch: Epoch)
    ensures { epoch < 2 ^ 32 }
{}

/// A table for the claims of the round that is made of this.
fn table_for<C: Changes, P: ClaimPlan>(
    alloc: Global,
    _input: &RoundInput<C>,
    rows: u32,
    pieces: u32,
    workers: u8,
) -> Result<(ClaimTable, Vec<ClaimSeat>), NoMemory>
    requires named { P.plan ≡ plan_by (C.last _input.now.before) (candidates_of _input.now.batches) }
    requires plan { IsPlan P.plan rows pieces }
    requires workers { (0 < workers) × (workers ≤ MAX_WORKERS) }
    ensures rows { IfOk result (λ made. rows_of made.0 ≡ rows) }
    ensures workers { IfOk result (λ made. workers_of made.0 ≡ workers) }
    ensures count { IfOk result (λ made. length made.1.items ≡ workers) }
    ensures seats { IfOk result (λ made. All (IsNewSeatOf made.0 P.plan) made.1.items) }
{
    ClaimTable::new::<P>(alloc, rows, pieces, workers)
}

/// Gives each seat of the table its room for verdicts.
fn seat_workers(
    alloc: Global,
    claims: Vec<ClaimSeat>,
    candidates: u32,
) -> Result<Vec<WorkerSeat>, NoMemory>
    ensures count { IfOk result (λ seats. length seats.items ≡ length claims.items) }
    ensures seats { (round : Round) → length round.all ≡ candidates → All (IsNewSeatOf round.table (plan_of round)) claims.items →
        IfOk result (λ seats. All (IsNewWorkerOf round) seats.items) }
{
    let mut claims = claims;
    let mut seats = Vec::with_capacity(alloc, claims.len())?;
    while let Some(seat) = claims.pop() {
        seats.push(seat_worker(alloc, seat, candidates)?)?;
    }
    Ok(seats)
}

fn seat_worker(alloc: Global, claims: ClaimSeat, candidates: u32) -> Result<WorkerSeat, NoMemory>
    ensures { (round : Round) → length round.all ≡ candidates → IsNewSeatOf round.table (plan_of round) claims →
        IfOk result (IsNewWorkerOf round) }
{
    Ok(WorkerSeat {
        claims,
        claims_over: false,
        judging_over: false,
        verdicts: vec![in alloc; None; candidates as usize]?,
    })
}
