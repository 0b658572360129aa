//! Rounds that lines spell: `EPOCH LAST / ZERO / ONE / TURNS / END => WANTED`. `LAST` is the last change of row 9
//! (no other row was ever changed), `ZERO` and `ONE` spell the regions' candidates, and `TURNS` the seats' turns. At
//! the `END` stand `ab` or `a`, where a round of two seats is gathered from both of them or from the first alone, or
//! a number of seats, with all of which one thread ends the round.
ghost use Rattle.std.specs.Prelude.{◌≤◌, ◌<◌, All, IfOk};
ghost use Rattle.merge_round.specs.Seats.{round_of, IsWorkerOf};
ghost use Rattle.merge_round.specs.Gathers.{AreAllSeats};

use crate::batches::{batches, row_of};
use crate::counting::{Asked, Counting};
use crate::outcomes::{add_name, add_outcome};
use crate::turns::add_turns;
use geo_base::Epoch;
use merge_round::{GatherFault, Judged, MergeRound, RoundInput, WorkerSeat};
use std::alloc::Global;
use std::fmt::Write;
use std::test::Fail;

/// A round, as a line spells it.
#[derive(Clone, Copy)]
struct Game<'a> {
    epoch: Epoch,
    last: Epoch,
    zero: &'a str,
    one: &'a str,
    turns: &'a str,
    end: &'a str,
}

fn epoch_of(text: &str) -> Option<Epoch> {
    match text.parse() {
        Ok(epoch) => Some(epoch),
        Err(_) => None,
    }
}

fn game_of(text: &str) -> Option<Game> {
    let (epochs, rest) = text.split_once(" / ")?;
    let (epoch, last) = epochs.split_once(' ')?;
    let (zero, rest) = rest.split_once(" / ")?;
    let (one, rest) = rest.split_once(" / ")?;
    let (turns, end) = rest.split_once(" / ")?;
    Some(Game {
        epoch: epoch_of(epoch)?,
        last: epoch_of(last)?,
        zero,
        one,
        turns,
        end,
    })
}

/// How many seats a round has that ends so.
fn workers_of(end: &str) -> Result<u8, Fail>
    ensures { IfOk result (λ workers. (0 < workers) × (workers ≤ 8)) }
{
    match end {
        "1" => Ok(1),
        "2" | "a" | "ab" => Ok(2),
        "8" => Ok(8),
        _ => Err("no such end".into()),
    }
}

/// The round, with its seats.
fn made<'a>(
    alloc: Global,
    game: &Game,
    asked: &'a Asked,
) -> Result<(MergeRound<Counting<'a>>, Vec<WorkerSeat>), Fail>
    ensures seats { IfOk result (λ made. All (IsWorkerOf (round_of made.0)) made.1.items) }
    ensures all { IfOk result (λ made. AreAllSeats (round_of made.0) made.1.items) }
{
    let workers = workers_of(game.end)?;
    let row = row_of(alloc, 9)?;
    let batches = batches(alloc, game.epoch, game.zero, game.one)?;
    let input = RoundInput {
        epoch: game.epoch,
        batches,
        before: Counting {
            row,
            epoch: game.last,
            asked,
        },
    };
    Ok(MergeRound::new(alloc, input, workers)?)
}

/// The names of the rows by their numbers.
fn add_rows(out: &mut String, round: &MergeRound<Counting>) -> Result<(), Fail> {
    for number in 0..9 {
        match round.row(number) {
            Some(row) => add_name(out, row)?,
            None => break,
        }
        out.push_str("; ")?;
    }
    Ok(())
}

/// What the seats are told in their turns, and the rows by their numbers.
fn add_play(
    out: &mut String,
    round: &MergeRound<Counting>,
    seats: &mut [WorkerSeat],
    turns: &str,
    asked: &Asked,
) -> Result<(), Fail>
    requires seats { All (IsWorkerOf (round_of round.now)) seats.old }
    requires all { AreAllSeats (round_of round.now) seats.old }
    ensures seats { All (IsWorkerOf (round_of round.now)) seats.new }
    ensures all { AreAllSeats (round_of round.now) seats.new }
{
    add_turns(out, round, seats, turns, asked)?;
    add_rows(out, round)
}

/// What comes of the round.
fn ended(
    alloc: Global,
    round: MergeRound<Counting>,
    seats: Vec<WorkerSeat>,
    end: &str,
) -> Result<Judged, GatherFault>
    requires seats { All (IsWorkerOf (round_of round)) seats.items }
    requires all { AreAllSeats (round_of round) seats.items }
{
    let mut seats = seats;
    match end {
        "ab" => round.gather(alloc, seats),
        "a" => {
            drop(seats.pop());
            round.gather(alloc, seats)
        }
        _ => Ok(round.finish(alloc, seats)?),
    }
}

/// The epoch, and what became of its candidates.
fn add_judged(out: &mut String, judged: &Judged) -> Result<(), Fail> {
    write!(out, "{}:", judged.epoch())?;
    for outcome in judged.outcomes() {
        out.push_str(" ")?;
        add_outcome(out, outcome)?;
        out.push_str(";")?;
    }
    Ok(())
}

fn add_end(out: &mut String, end: Result<Judged, GatherFault>) -> Result<(), Fail> {
    match end {
        Ok(judged) => add_judged(out, &judged),
        Err(GatherFault::Unjudged(number)) => Ok(write!(out, "unjudged {number}")?),
        Err(GatherFault::NoMemory) => Err("no memory".into()),
    }
}

/// All that the round tells. It is ended before a failure of what comes before its end is looked at, so that it is
/// let go of in no other place.
fn played(alloc: Global, game: &Game) -> Result<String, Fail> {
    let asked = Asked::new();
    let (round, mut seats) = made(alloc, game, &asked)?;
    let mut out = String::new(alloc);
    let told = add_play(&mut out, &round, &mut seats, game.turns, &asked);
    let end = ended(alloc, round, seats, game.end);
    told?;
    add_end(&mut out, end)?;
    Ok(out)
}

fn is_played(alloc: Global, line: &str) -> Result<bool, Fail> {
    let (text, wanted) = line.split_once(" => ").ok_or("a line without an answer")?;
    let game = game_of(text).ok_or("a line without one of its parts")?;
    let told = played(alloc, &game)?;
    Ok(told.as_str() == wanted)
}

/// The first of the lines whose round doesn't tell what is wanted.
pub fn first_wrong(alloc: Global, lines: &str) -> Result<Option<&str>, Fail> {
    for line in lines.lines() {
        if !is_played(alloc, line)? {
            return Ok(Some(line));
        }
    }
    Ok(None)
}
