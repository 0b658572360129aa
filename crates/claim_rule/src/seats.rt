//! A table with its seats, and how seats are split and joined.
ghost use Rattle.std.specs.Prelude.{◌≡◌, ◌+◌, ◌<◌, ◌≤◌, false, [], All, IfOk, OnOk, length};
ghost use Rattle.claim_rule.specs.Plan.{IsPlan};
ghost use Rattle.claim_rule.specs.Views.{closed_view, new_view, shares_kept, shares_given, views_joined};
ghost use Rattle.claim_rule.specs.Seats.{view_of, rows_of, workers_of, IsSeatOf, IsNewSeatOf, HasAllShares, CanGive, IsOnce, HasAllNumbers, DrewApart};
ghost use Rattle.claim_rule.specs.inner.Made.{IsMade, IsClosedSeatOf};

use crate::limits::MAX_WORKERS;
use crate::plan::{ClaimPlan, Opening, StepNumber};
use crate::plays::{Open, Part, Settle, TakeIn};
use crate::seat::ClaimSeat;
use crate::size::TableSize;
use crate::table::{CLAIMED, ClaimTable, HEADERS};
use atomic_table::Table;
use geo_base::NoMemory;
use std::alloc::Global;
use std::marker::Brand;

impl ClaimTable {
    /// A table for the plan that `P` names, of so many rows and pieces, and a seat for each worker.
    pub fn new<P: ClaimPlan>(
        alloc: Global,
        rows: u32,
        pieces: u32,
        workers: u8,
    ) -> Result<(ClaimTable, Vec<ClaimSeat>), NoMemory>
        requires plan { IsPlan P.plan rows pieces }
        requires workers { (0 < workers) × (workers ≤ MAX_WORKERS) }
        ensures rows { IfOk result (λ made. rows_of made.0 ≡ rows) }
        ensures workers { IfOk result (λ made. workers_of made.0 ≡ workers) }
        ensures count { IfOk result (λ made. length made.1.items ≡ workers) }
        ensures seats { IfOk result (λ made. All (IsNewSeatOf made.0 P.plan) made.1.items) }
    {
        let mut seats = Vec::with_capacity(alloc, workers as usize)?;
        let (table, mut first) = ClaimTable::closed(alloc, rows, pieces, workers)?;
        table.open::<P>(&mut first);
        table.share_out::<P>(first, workers, &mut seats)?;
        Ok((table, seats))
    }

    // The words before there is a plan.
    fn closed(
        alloc: Global,
        rows: u32,
        pieces: u32,
        workers: u8,
    ) -> Result<(ClaimTable, ClaimSeat), NoMemory>
        requires { (0 < workers) × (workers ≤ MAX_WORKERS) }
        ensures { IfOk result (λ made. IsMade made.0 rows pieces workers × IsClosedSeatOf made.0 made.1) }
    {
        let words = vec![in alloc; 0u64; rows as usize + HEADERS]?;
        let (table, seat) = Table::of_words(alloc, &words, &TableSize { rows, workers })?;
        let table = ClaimTable {
            table,
            rows,
            pieces,
            workers,
        };
        Ok((table, ClaimSeat { seat }))
    }

    // Gives the table its plan.
    fn open<P: ClaimPlan>(&self, seat: &mut ClaimSeat)
        requires seat { IsClosedSeatOf self.now seat.old }
        requires plan { IsPlan P.plan self.now.rows self.now.pieces }
        ensures seat { IsSeatOf self.now seat.new }
        ensures view { view_of seat.new ≡ new_view P.plan (workers_of self.now) false }
    {
        self.open_named::<Brand>(seat, self.workers);
    }

    fn open_named<Q: Opening>(&self, seat: &mut ClaimSeat, _workers: u8)
        requires seat { IsClosedSeatOf self.now seat.old }
        requires plan { IsPlan Q.plan self.now.rows self.now.pieces }
        requires named { _workers ≡ Q.shares }
        requires workers { Q.shares ≡ self.now.workers }
        ensures seat { IsSeatOf self.now seat.new }
        ensures view { view_of seat.new ≡ new_view Q.plan Q.shares false }
    {
        let _pieces = self.pieces;
        self.table.shared.load::<Open<Q>>(&mut seat.seat, CLAIMED);
    }

    // Deals a seat with one share to each worker.
    fn share_out<P: ClaimPlan>(
        &self,
        first: ClaimSeat,
        workers: u8,
        seats: &mut Vec<ClaimSeat>,
    ) -> Result<(), NoMemory>
        requires seat { IsSeatOf self.now first }
        requires view { view_of first ≡ new_view P.plan workers false }
        requires none { seats.old.items ≡ [] }
        requires some { 0 < workers }
        ensures count { OnOk result (length seats.new.items ≡ workers) }
        ensures seats { OnOk result (All (IsNewSeatOf self.now P.plan) seats.new.items) }
    {
        let mut first = first;
        let mut left = workers;
        while left > 1 {
            seats.push(self.split(&mut first, 1))?;
            left -= 1;
        }
        seats.push(first)?;
        Ok(())
    }

    /// A new seat with a part of the shares of this one. It knows the plan, has the flag where this one has it,
    /// and has drawn nothing.
    pub fn split(&self, seat: &mut ClaimSeat, shares: u8) -> ClaimSeat
        requires seat { IsSeatOf self.now seat.old }
        requires shares { CanGive (view_of seat.old) shares }
        ensures seat { IsSeatOf self.now seat.new }
        ensures view { view_of seat.new ≡ shares_kept shares (view_of seat.old) }
        ensures new_seat { IsSeatOf self.now result }
        ensures new_view { view_of result ≡ shares_given shares (view_of seat.old) }
    {
        self.split_named::<Brand>(seat, shares)
    }

    fn split_named<Q: StepNumber>(&self, seat: &mut ClaimSeat, _shares: u8) -> ClaimSeat
        requires seat { IsSeatOf self.now seat.old }
        requires named { _shares ≡ Q.number }
        requires shares { CanGive (view_of seat.old) Q.number }
        ensures seat { IsSeatOf self.now seat.new }
        ensures view { view_of seat.new ≡ shares_kept Q.number (view_of seat.old) }
        ensures new_seat { IsSeatOf self.now result }
        ensures new_view { view_of result ≡ shares_given Q.number (view_of seat.old) }
    {
        ClaimSeat {
            seat: self.table.shared.split_seat::<Part<Q>>(&mut seat.seat),
        }
    }

    /// Takes in what another seat has drawn, claimed and seen, and its shares. Both have one plan. No number
    /// stands twice in the lists that this gives, so none was given to both seats; and once all seats are
    /// joined, each number stands there, if a draw came too late.
    pub fn join(&self, seat: &mut ClaimSeat, other: ClaimSeat)
        requires seat { IsSeatOf self.now seat.old }
        requires other { IsSeatOf self.now other }
        ensures seat { IsSeatOf self.now seat.new }
        ensures view { view_of seat.new ≡ views_joined (view_of seat.old) (view_of other) }
        ensures same_plan { (view_of seat.old).plan ≡ (view_of other).plan }
        ensures once { IsOnce (view_of seat.new) }
        ensures all { HasAllShares self.now (view_of seat.new) → HasAllNumbers (view_of seat.new) }
        ensures apart { DrewApart (view_of seat.old) (view_of other) }
    {
        let ClaimSeat { seat: theirs } = other;
        self.table
            .shared
            .join_seat::<TakeIn>(&mut seat.seat, theirs);
        self.settle(seat);
    }

    /// Shows that no number stands twice in the seat's lists, and that each stands there where the seat has the
    /// shares of all workers and a draw came too late. It is one load.
    pub fn settle(&self, seat: &mut ClaimSeat)
        requires { IsSeatOf self.now seat.old }
        ensures seat { IsSeatOf self.now seat.new }
        ensures view { view_of seat.new ≡ view_of seat.old }
        ensures joined { All (λ p. p ≡ (view_of seat.new).plan) (view_of seat.new).joined }
        ensures once { IsOnce (view_of seat.new) }
        ensures all { HasAllShares self.now (view_of seat.new) → HasAllNumbers (view_of seat.new) }
    {
        self.settle_named::<Brand>(seat, self.workers);
    }

    fn settle_named<Q: StepNumber>(&self, seat: &mut ClaimSeat, _workers: u8)
        requires seat { IsSeatOf self.now seat.old }
        requires named { _workers ≡ Q.number }
        requires workers { Q.number ≡ self.now.workers }
        ensures seat { IsSeatOf self.now seat.new }
        ensures view { view_of seat.new ≡ view_of seat.old }
        ensures joined { All (λ p. p ≡ (view_of seat.new).plan) (view_of seat.new).joined }
        ensures once { IsOnce (view_of seat.new) }
        ensures all { HasAllShares self.now (view_of seat.new) → HasAllNumbers (view_of seat.new) }
    {
        self.table.shared.load::<Settle<Q>>(&mut seat.seat, CLAIMED);
    }
}
