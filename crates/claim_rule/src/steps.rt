//! The steps that a seat does on the words.
ghost use Rattle.std.specs.Prelude.{◌≡◌, ◌<◌, ◌≤◌, true, [], All, length};
ghost use Rattle.claim_rule.specs.Plan.{final_of};
ghost use Rattle.claim_rule.specs.Views.{row_claimed, piece_finished, done_seen};
ghost use Rattle.claim_rule.specs.Seats.{view_of, rows_of, IsSeatOf, HasAllShares, IsClaimDraw, IsJudgeDraw, CanClaim, IsClaimed};
ghost use Rattle.claim_rule.specs.inner.Steps.{drawn_at};

use crate::plan::StepNumber;
use crate::plays::{ClaimRow, DrawClaim, DrawJudge, Finish, ReadHeader, SeeDone};
use crate::seat::ClaimSeat;
use crate::table::{CLAIMED, ClaimTable, DONE, HEADERS, JUDGED};
use std::marker::Brand;

impl ClaimTable {
    /// Draws a piece to claim for. `None` comes exactly where the draw gave a number that isn't below the number
    /// of pieces; the seat keeps that number, and spends one of its shares for these draws.
    pub fn draw_claim(&self, seat: &mut ClaimSeat) -> Option<u32>
        requires seat { IsSeatOf self.now seat.old }
        requires unspent { length (view_of seat.old).claiming.late < (view_of seat.old).shares }
        ensures seat { IsSeatOf self.now seat.new }
        ensures draw { IsClaimDraw (view_of seat.old) (view_of seat.new) result }
    {
        let found = self
            .table
            .shared
            .fetch_add::<DrawClaim>(&mut seat.seat, CLAIMED, 1);
        self.given(found)
    }

    // What a draw gives that found the counter so.
    fn given(&self, found: u64) -> Option<u32>
        ensures { result ≡ drawn_at found self.now.pieces }
    {
        if found < self.pieces as u64 {
            Some(found as u32)
        } else {
            None
        }
    }

    /// Claims the row with the word, which the plan has for a piece that the seat has drawn and not finished.
    pub fn claim_row(&self, seat: &mut ClaimSeat, row: u32, word: u64)
        requires seat { IsSeatOf self.now seat.old }
        requires planned { CanClaim (view_of seat.old) row word }
        ensures seat { IsSeatOf self.now seat.new }
        ensures view { view_of seat.new ≡ row_claimed row word (view_of seat.old) }
    {
        self.table
            .shared
            .fetch_max::<ClaimRow>(&mut seat.seat, row as usize + HEADERS, word);
    }

    /// Finishes a piece that the seat has drawn and all of whose claims it has made.
    pub fn finish(&self, seat: &mut ClaimSeat, piece: u32)
        requires seat { IsSeatOf self.now seat.old }
        requires claimed { IsClaimed (view_of seat.old) piece }
        ensures seat { IsSeatOf self.now seat.new }
        ensures view { view_of seat.new ≡ piece_finished piece (view_of seat.old) }
    {
        self.finish_named::<Brand>(seat, piece);
    }

    fn finish_named<Q: StepNumber>(&self, seat: &mut ClaimSeat, _piece: u32)
        requires seat { IsSeatOf self.now seat.old }
        requires named { _piece ≡ Q.number }
        requires claimed { IsClaimed (view_of seat.old) Q.number }
        ensures seat { IsSeatOf self.now seat.new }
        ensures view { view_of seat.new ≡ piece_finished Q.number (view_of seat.old) }
    {
        self.table
            .shared
            .fetch_add::<Finish<Q>>(&mut seat.seat, DONE, 1);
    }

    /// How many pieces are finished: what this call's one look at the done word gave, which the seat keeps. It
    /// is never less than what an earlier look gave. The seat has the flag from then on exactly where these are
    /// all. They are all where the seat has the shares of all workers, has finished what it drew, and a draw of
    /// a claim piece came too late.
    pub fn done(&self, seat: &mut ClaimSeat) -> u32
        requires { IsSeatOf self.now seat.old }
        ensures seat { IsSeatOf self.now seat.new }
        ensures view { view_of seat.new ≡ done_seen result (view_of seat.old) }
        ensures within { result ≤ length (view_of seat.old).plan }
        ensures still { (view_of seat.old).stable ≡ true → result ≡ length (view_of seat.old).plan }
        ensures risen { All (λ seen. seen ≤ result) (view_of seat.old).looks }
        ensures last { HasAllShares self.now (view_of seat.old) → 0 < length (view_of seat.old).claiming.late → (view_of seat.old).pending ≡ [] →
            result ≡ length (view_of seat.old).plan }
    {
        self.done_named::<Brand>(seat, self.workers)
    }

    fn done_named<Q: StepNumber>(&self, seat: &mut ClaimSeat, _workers: u8) -> u32
        requires seat { IsSeatOf self.now seat.old }
        requires named { _workers ≡ Q.number }
        requires workers { Q.number ≡ self.now.workers }
        ensures seat { IsSeatOf self.now seat.new }
        ensures view { view_of seat.new ≡ done_seen result (view_of seat.old) }
        ensures within { result ≤ length (view_of seat.old).plan }
        ensures still { (view_of seat.old).stable ≡ true → result ≡ length (view_of seat.old).plan }
        ensures risen { All (λ seen. seen ≤ result) (view_of seat.old).looks }
        ensures last { HasAllShares self.now (view_of seat.old) → 0 < length (view_of seat.old).claiming.late → (view_of seat.old).pending ≡ [] →
            result ≡ length (view_of seat.old).plan }
    {
        let seen = self.table.shared.load::<SeeDone<Q>>(&mut seat.seat, DONE);
        seen as u32
    }

    /// Draws a piece to judge, once the seat has seen all pieces finished. `None` comes as in `draw_claim`.
    pub fn draw_judge(&self, seat: &mut ClaimSeat) -> Option<u32>
        requires seat { IsSeatOf self.now seat.old }
        requires stable { (view_of seat.old).stable ≡ true }
        requires unspent { length (view_of seat.old).judging.late < (view_of seat.old).shares }
        ensures seat { IsSeatOf self.now seat.new }
        ensures draw { IsJudgeDraw (view_of seat.old) (view_of seat.new) result }
    {
        let found = self
            .table
            .shared
            .fetch_add::<DrawJudge>(&mut seat.seat, JUDGED, 1);
        self.given(found)
    }

    /// The greatest word that the plan has for the row, or 0, once the seat has seen all pieces finished.
    pub fn header(&self, seat: &mut ClaimSeat, row: u32) -> u64
        requires seat { IsSeatOf self.now seat.old }
        requires stable { (view_of seat.old).stable ≡ true }
        requires row { row < rows_of self.now }
        ensures seat { IsSeatOf self.now seat.new }
        ensures view { view_of seat.new ≡ view_of seat.old }
        ensures word { result ≡ final_of (view_of seat.old).plan row }
    {
        self.table
            .shared
            .load::<ReadHeader>(&mut seat.seat, row as usize + HEADERS)
    }
}
