//! What no clause says: that counters start at 0 and draws come in their order, and that seats of several
//! threads come to an end of a plan.
ghost use Rattle.std.specs.Prelude.{◌≡◌, ◌+◌, ◌<◌, true, All, length};
ghost use Rattle.claim_rule.specs.Seats.{view_of, rows_of, IsNewSeatOf};
ghost use Rattle.claim_rule.specs.Views.{piece_finished};
ghost use Rattle.claim_rule.specs.inner.Trial.{three_pieces, Plays, IsAtWork, IsClaiming, pairs_claimed};

use crate::{ClaimPlan, ClaimSeat, ClaimTable};
use std::test::Fail;
use std::thread;

/// The first row is claimed with 10, 12 and 3, the second with 7 and 5, and the third not at all.
struct ThreePieces;

impl ClaimPlan for ThreePieces {
    ghost use Rattle.claim_rule.specs.inner.Trial.{three_pieces};

    ghost plan = { three_pieces };
}

/// Makes all claims of a piece.
fn claim_pairs(table: &ClaimTable, seat: &mut ClaimSeat, piece: u32)
    requires plays { Plays table.now seat.old }
    requires work { IsAtWork seat.old piece }
    ensures plays { Plays table.now seat.new }
    ensures view { view_of seat.new ≡ pairs_claimed piece (view_of seat.old) }
{
    match piece {
        0 => {
            table.claim_row(seat, 0, 10);
            table.claim_row(seat, 1, 7);
        }
        1 => table.claim_row(seat, 0, 12),
        _ => {
            table.claim_row(seat, 1, 5);
            table.claim_row(seat, 0, 3);
        }
    }
}

/// Makes all claims of a piece and finishes it.
fn claim_piece(table: &ClaimTable, seat: &mut ClaimSeat, piece: u32)
    requires plays { Plays table.now seat.old }
    requires work { IsAtWork seat.old piece }
    ensures plays { Plays table.now seat.new }
    ensures view { view_of seat.new ≡ piece_finished piece (pairs_claimed piece (view_of seat.old)) }
{
    claim_pairs(table, seat, piece);
    table.finish(seat, piece);
}

/// What the seat reads of the three rows.
fn headers(table: &ClaimTable, seat: &mut ClaimSeat) -> [u64; 3]
    requires plays { Plays table.now seat.old }
    requires stable { (view_of seat.old).stable ≡ true }
    ensures plays { Plays table.now seat.new }
    ensures view { view_of seat.new ≡ view_of seat.old }
{
    [
        table.header(seat, 0),
        table.header(seat, 1),
        table.header(seat, 2),
    ]
}

/// Claims and finishes pieces until there is none.
fn claim_all(table: &ClaimTable, seat: &mut ClaimSeat)
    requires plays { Plays table.now seat.old }
    requires unspent { length (view_of seat.old).claiming.late < (view_of seat.old).shares }
    ensures plays { Plays table.now seat.new }
    ensures late { length (view_of seat.new).claiming.late ≡ length (view_of seat.old).claiming.late + 1 }
    ensures shares { (view_of seat.new).shares ≡ (view_of seat.old).shares }
    ensures judging { (view_of seat.new).judging ≡ (view_of seat.old).judging }
{
    while let Some(piece) = table.draw_claim(seat) {
        claim_piece(table, seat, piece);
    }
}

/// A worker of its own thread.
fn worked(table: &ClaimTable, seat: ClaimSeat) -> ClaimSeat
    requires rows { rows_of table.now ≡ 3 }
    requires seat { IsNewSeatOf table.now three_pieces seat }
    ensures { Plays table.now result }
{
    let mut seat = seat;
    claim_all(table, &mut seat);
    seat
}

/// One seat alone: what it reads of the rows, where it sees each piece finished in its turn.
fn alone(table: &ClaimTable, seat: &mut ClaimSeat) -> Option<[u64; 3]>
    requires { IsClaiming table.now seat.old }
{
    for expected in 0..3u32 {
        if table.done(seat) != expected || table.draw_claim(seat) != Some(expected) {
            return None;
        }
        claim_piece(table, seat, expected);
    }
    if table.draw_claim(seat).is_some() || table.done(seat) != 3 {
        return None;
    }
    for expected in 0..3u32 {
        if table.draw_judge(seat) != Some(expected) {
            return None;
        }
    }
    if table.draw_judge(seat).is_some() {
        return None;
    }
    Some(headers(table, seat))
}

/// Two seats in turns: how many pieces they see finished, and what the second reads of the rows.
fn in_turns(
    table: &ClaimTable,
    a: &mut ClaimSeat,
    b: &mut ClaimSeat,
) -> Option<([u32; 3], [u64; 3])>
    requires first { IsClaiming table.now a.old }
    requires second { IsClaiming table.now b.old }
{
    let Some(0) = table.draw_claim(a) else {
        return None;
    };
    let Some(1) = table.draw_claim(b) else {
        return None;
    };
    let Some(2) = table.draw_claim(a) else {
        return None;
    };
    claim_piece(table, b, 1);
    let one = table.done(b);
    claim_piece(table, a, 2);
    let two = table.done(a);
    claim_piece(table, a, 0);
    if table.draw_claim(b).is_some() {
        return None;
    }
    let three = table.done(b);
    if three != 3 {
        return None;
    }
    Some(([one, two, three], headers(table, b)))
}

/// A seat that takes in another, splits off a third and takes that in again: what the third reads of the
/// rows, where the two draw the first two pieces for judging, and what is drawn then.
fn divided(
    table: &ClaimTable,
    a: &mut ClaimSeat,
    b: ClaimSeat,
) -> Option<([u64; 3], [Option<u32>; 2])>
    requires first { IsClaiming table.now a.old }
    requires second { IsClaiming table.now b }
{
    table.join(a, b);
    claim_all(table, a);
    if table.done(a) != 3 {
        return None;
    }
    let mut c = table.split(a, 1);
    let rows = headers(table, &mut c);
    if table.draw_judge(&mut c) != Some(0) || table.draw_judge(a) != Some(1) {
        return None;
    }
    table.join(a, c);
    let third = table.draw_judge(a);
    let fourth = table.draw_judge(a);
    Some((rows, [third, fourth]))
}

/// All seats as one, and what it reads of the rows where it sees all pieces finished.
fn together(table: &ClaimTable, mut seats: Vec<ClaimSeat>) -> Option<[u64; 3]>
    requires { All (Plays table.now) seats.items }
{
    let mut seat = seats.pop()?;
    while let Some(other) = seats.pop() {
        table.join(&mut seat, other);
    }
    if table.done(&mut seat) != 3 {
        return None;
    }
    Some(headers(table, &mut seat))
}

#[test]
fn one_seat_plays_a_plan(rt: HostRuntime) -> Result<(), Fail> {
    let (table, mut seats) = ClaimTable::new::<ThreePieces>(rt.alloc(), 3, 3, 1)?;
    let mut seat = seats.pop().unwrap();
    assert!(rt; alone(&table, &mut seat) == Some([12, 7, 0]));
    Ok(())
}

#[test]
fn two_seats_take_turns(rt: HostRuntime) -> Result<(), Fail> {
    let (table, mut seats) = ClaimTable::new::<ThreePieces>(rt.alloc(), 3, 3, 2)?;
    let mut a = seats.pop().unwrap();
    let mut b = seats.pop().unwrap();
    assert!(rt; in_turns(&table, &mut a, &mut b) == Some(([1, 2, 3], [12, 7, 0])));
    Ok(())
}

#[test]
fn a_seat_is_split_and_joined(rt: HostRuntime) -> Result<(), Fail> {
    let (table, mut seats) = ClaimTable::new::<ThreePieces>(rt.alloc(), 3, 3, 2)?;
    let mut a = seats.pop().unwrap();
    let b = seats.pop().unwrap();
    let drawn = [Some(2), None];
    assert!(rt; divided(&table, &mut a, b) == Some(([12, 7, 0], drawn)));
    Ok(())
}

#[test]
fn eight_threads_play_a_plan(rt: HostRuntime) -> Result<(), Fail> {
    let (table, seats) = ClaimTable::new::<ThreePieces>(rt.alloc(), 3, 3, 8)?;
    let seats = thread::map_vec(&rt, seats, &|seat| worked(&table, seat))?;
    assert!(rt; together(&table, seats) == Some([12, 7, 0]));
    Ok(())
}
