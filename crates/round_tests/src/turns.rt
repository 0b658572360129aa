//! A round that its first two seats work in turns.
ghost use Rattle.std.specs.Prelude.{◌≡◌, All};
ghost use Rattle.merge_round.specs.Seats.{round_of, work_of, IsWorkerOf};
ghost use Rattle.merge_round.specs.Gathers.{AreAllSeats};

use crate::counting::{Asked, Counting};
use merge_round::{Claimed, Judgement, MergeRound, Verdict, WorkerSeat, equal_shares_serve};
use std::fmt::Write;
use std::test::Fail;

fn add_claimed(out: &mut String, claimed: Claimed) -> Result<(), Fail> {
    match claimed {
        Claimed::Made(number) => write!(out, "made {number}; ")?,
        Claimed::Spent => out.push_str("spent; ")?,
    }
    Ok(())
}

fn add_judgement(out: &mut String, judgement: Judgement) -> Result<(), Fail> {
    match judgement {
        Judgement::NotYet(done) => write!(out, "not yet {done}; ")?,
        Judgement::Spent => out.push_str("spent; ")?,
        Judgement::Verdict(number, verdict) => {
            write!(out, "{number} ")?;
            add_verdict(out, verdict)?;
        }
    }
    Ok(())
}

fn add_verdict(out: &mut String, verdict: Verdict) -> Result<(), Fail> {
    match verdict {
        Verdict::Committed => out.push_str("committed; ")?,
        Verdict::Changed(row, epoch) => write!(out, "changed {row} in {epoch}; ")?,
        Verdict::Beaten(row, id) => {
            write!(
                out,
                "beaten {row} by {}.{}.{}; ",
                id.epoch, id.region, id.csn
            )?
        }
    }
    Ok(())
}

/// Lets the seat claim, or else judge, and tells its answer.
fn add_turn(
    out: &mut String,
    round: &MergeRound<Counting>,
    seat: &mut WorkerSeat,
    claims: bool,
) -> Result<(), Fail>
    requires { IsWorkerOf (round_of round.now) seat.old }
    ensures seat { IsWorkerOf (round_of round.now) seat.new }
    ensures shares { (work_of seat.new).shares ≡ (work_of seat.old).shares }
{
    if claims {
        add_claimed(out, round.claim_next(seat))
    } else {
        add_judgement(out, round.judge_next(seat))
    }
}

/// Lets the seat in this place take its turn.
fn add_turn_of(
    out: &mut String,
    round: &MergeRound<Counting>,
    seats: &mut [WorkerSeat],
    place: usize,
    claims: bool,
) -> Result<(), Fail>
    requires seats { All (IsWorkerOf (round_of round.now)) seats.old }
    requires all { AreAllSeats (round_of round.now) seats.old }
    ensures seats { All (IsWorkerOf (round_of round.now)) seats.new }
    ensures all { AreAllSeats (round_of round.now) seats.new }
{
    if place >= seats.len() {
        return Err("no such seat".into());
    }
    equal_shares_serve();
    add_turn(out, round, &mut seats[place], claims)
}

/// The seat whose turn the letter is, and whether it claims.
fn turn_of(letter: u8) -> Option<(usize, bool)> {
    match letter {
        b'a' => Some((0, true)),
        b'b' => Some((1, true)),
        b'A' => Some((0, false)),
        b'B' => Some((1, false)),
        _ => None,
    }
}

/// A digit says that the last change of the row with this key may have been asked for once since the last `?`,
/// which tells how many calls more there were.
fn add_count(out: &mut String, asked: &Asked, letter: u8) -> Result<(), Fail> {
    if letter == b'?' {
        write!(out, "{} more; ", asked.left())?;
    } else {
        asked.forgive(letter.wrapping_sub(b'0'));
    }
    Ok(())
}

/// Lets the seats take these turns, and tells their answers: `a` and `b` let the first or the second seat claim, `A`
/// and `B` let it judge. What else stands there is of the last changes that were asked for.
pub fn add_turns(
    out: &mut String,
    round: &MergeRound<Counting>,
    seats: &mut [WorkerSeat],
    turns: &str,
    asked: &Asked,
) -> Result<(), Fail>
    requires seats { All (IsWorkerOf (round_of round.now)) seats.old }
    requires all { AreAllSeats (round_of round.now) seats.old }
    ensures seats { All (IsWorkerOf (round_of round.now)) seats.new }
    ensures all { AreAllSeats (round_of round.now) seats.new }
{
    for letter in turns.bytes() {
        match turn_of(letter) {
            Some((place, claims)) => add_turn_of(out, round, seats, place, claims)?,
            None => add_count(out, asked, letter)?,
        }
    }
    Ok(())
}
