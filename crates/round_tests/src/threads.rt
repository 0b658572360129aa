//! A round that threads work.
ghost use Rattle.merge_round.specs.Seats.{round_of, IsWorkerOf, IsNewWorkerOf};

use crate::batches::{one_region, putting};
use crate::outcomes::add_outcome;
use geo_base::Outcome;
use merge_round::{MergeRound, RoundInput, WorkerSeat};
use std::alloc::Global;
use std::test::Fail;
use std::thread;
use write_set::{Candidate, Plain};

/// Lets the seat claim as often as there are candidates, and then judge as often. What it judges before all
/// claims are made is told that it's too early.
fn worked(round: &MergeRound<Plain>, seat: WorkerSeat) -> WorkerSeat
    requires { IsWorkerOf (round_of round.now) seat }
    ensures { IsWorkerOf (round_of round.now) result }
{
    let mut seat = seat;
    for _ in 0..400 {
        round.claim_next(&mut seat);
    }
    for _ in 0..400 {
        round.judge_next(&mut seat);
    }
    seat
}

/// What [`worked`] does, with a seat that has done nothing.
fn begun(round: &MergeRound<Plain>, seat: WorkerSeat) -> WorkerSeat
    requires { IsNewWorkerOf (round_of round.now) seat }
    ensures { IsWorkerOf (round_of round.now) result }
{
    worked(round, seat)
}

/// 400 candidates over 50 rows.
fn candidates(alloc: Global) -> Result<Vec<Candidate>, Fail> {
    let mut items = Vec::new(alloc);
    for number in 0..400i64 {
        items.push(putting(alloc, 0, number % 50)?)?;
    }
    Ok(items)
}

/// Whether the candidate has its row where it is the first one, and else lost it to the first.
fn is_of_first(alloc: Global, number: usize, outcome: &Outcome) -> Result<bool, Fail> {
    let mut told = String::new(alloc);
    add_outcome(&mut told, outcome)?;
    if number < 50 {
        return Ok(told.as_str() == "committed");
    }
    let first = number % 50;
    let wanted = format!(in alloc; "beaten 0({first}) by 1.0.{first}")?;
    Ok(told.as_str() == wanted.as_str())
}

/// How many outcomes there are, before the first that is not as wanted.
fn count_as_wanted(alloc: Global, outcomes: &[Outcome]) -> Result<usize, Fail> {
    for (number, outcome) in outcomes.iter().enumerate() {
        if !is_of_first(alloc, number, outcome)? {
            return Ok(number);
        }
    }
    Ok(outcomes.len())
}

#[test]
fn eight_threads_judge_400_candidates(rt: HostRuntime) -> Result<(), Fail> {
    let alloc = rt.alloc();
    let batches = one_region(alloc, 1, candidates(alloc)?)?;
    let input = RoundInput {
        epoch: 1,
        batches,
        before: Plain::empty(alloc, 1),
    };
    let (round, seats) = MergeRound::new(alloc, input, 8)?;
    let seats = thread::map_vec(&rt, seats, &|seat| begun(&round, seat))?;
    let seats = thread::map_vec(&rt, seats, &|seat| worked(&round, seat))?;
    let judged = round.gather(alloc, seats)?;
    assert_eq!(rt; count_as_wanted(alloc, judged.outcomes())?, 400);
    Ok(())
}
