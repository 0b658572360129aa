//! Claiming for candidates.
ghost use Rattle.std.specs.Prelude.{◌≡◌, ◌+◌, ◌<◌, ◌++◌, All, Contains, length, map};
ghost use Rattle.geo_base.specs.Claims.{word_of, IsClaim};
ghost use Rattle.claim_rule.specs.Plan.{piece_of};
ghost use Rattle.claim_rule.specs.Views.{times, piece_finished};
ghost use Rattle.claim_rule.specs.Seats.{view_of, IsSeatOf};
ghost use Rattle.merge_round.specs.Rounds.{rows_in, plan_of};
ghost use Rattle.merge_round.specs.Seats.{round_of, work_of, IsWorkerOf, Claims, verdicts_of};
ghost use Rattle.merge_round.specs.inner.Entries.{first_above, last_at, claim_in, claims_made, IsClaimingFor};

use crate::numbering::Entry;
use crate::round::MergeRound;
use crate::seat::WorkerSeat;
use claim_rule::{ClaimSeat, ClaimTable};
use geo_base::{Claim, Epoch, pack_claim};
use write_set::Changes;

/// What [`MergeRound::claim_next`] did.
#[derive(Clone, Copy, Debug, PartialEq, Eq)]
pub enum Claimed {
    /// It made all claims of the candidate with this number.
    Made(u32),
    /// There was no candidate left.
    Spent,
}

impl<C: Changes> MergeRound<C> {
    /// Draws one candidate, claims each of its rows, changed or touched, if none was changed after its start,
    /// and finishes it.
    ///
    /// `Spent` comes exactly where a draw by this seat, now or before, gave a number that isn't below the
    /// number of candidates; a seat that was told so draws no more. A claim is one step on one word. The call
    /// takes no memory, and has nothing by which it could wait.
    pub fn claim_next(&self, seat: &mut WorkerSeat) -> Claimed
        requires seat { IsWorkerOf (round_of self.now) seat.old }
        ensures seat { IsWorkerOf (round_of self.now) seat.new }
        ensures claims { Claims (round_of self.now) seat.old seat.new result }
        ensures kept { verdicts_of seat.new ≡ verdicts_of seat.old }
        ensures shares { (work_of seat.new).shares ≡ (work_of seat.old).shares }
    {
        if seat.claims_over {
            return Claimed::Spent;
        }
        match self.table.draw_claim(&mut seat.claims) {
            Some(number) => {
                self.claim(&mut seat.claims, number);
                Claimed::Made(number)
            }
            None => {
                seat.claims_over = true;
                Claimed::Spent
            }
        }
    }

    /// Makes all claims of the candidate, which the seat has drawn, and finishes it.
    fn claim(&self, seat: &mut ClaimSeat, number: u32)
        requires { IsClaimingFor (round_of self.now) seat.old number }
        ensures seat { IsSeatOf (round_of self.now).table seat.new }
        ensures view { view_of seat.new ≡ piece_finished number (claims_made (piece_of (plan_of (round_of self.now)) number) (view_of seat.old)) }
    {
        self.claim_all(seat, number);
        self.table.finish(seat, number);
    }

    /// Makes all claims of the candidate.
    fn claim_all(&self, seat: &mut ClaimSeat, number: u32)
        requires { IsClaimingFor (round_of self.now) seat.old number }
        ensures seat { IsSeatOf (round_of self.now).table seat.new }
        ensures view { view_of seat.new ≡ claims_made (piece_of (plan_of (round_of self.now)) number) (view_of seat.old) }
    {
        let entry = self.entry(number);
        match self.first_changed(entry) {
            Some(_) => {}
            None => claim_rows(
                &self.table,
                seat,
                number,
                entry.rows.items(),
                word_of(entry),
            ),
        }
    }

    /// The first of the candidate's rows that was changed after its start, and its last change. It asks for
    /// the last change of each row at most once, and of no other row.
    pub(crate) fn first_changed(&self, entry: &Entry) -> Option<(u32, Epoch)>
        requires { All (λ row. row < length (rows_in (round_of self.now).all)) entry.now.rows }
        ensures { result ≡ first_above (last_at (round_of self.now).last (rows_in (round_of self.now).all)) entry.now.start entry.now.rows }
    {
        for number in entry.rows.items() {
            let last = self.last_change(*number);
            if last > entry.start {
                return Some((*number, last));
            }
        }
        None
    }

    /// The last change of the row with the number.
    fn last_change(&self, number: u32) -> Epoch
        requires { number < length (rows_in (round_of self.now).all) }
        ensures { result ≡ last_at (round_of self.now).last (rows_in (round_of self.now).all) number }
    {
        self.input.before.last_change(self.row_at(number))
    }
}

/// Claims the rows with the word, which are all that the plan has for the piece.
fn claim_rows(table: &ClaimTable, seat: &mut ClaimSeat, _piece: u32, rows: &[u32], word: u64)
    requires seat { IsSeatOf table.now seat.old }
    requires drawn { 0 < times _piece (view_of seat.old).pending }
    requires planned { piece_of (view_of seat.old).plan _piece ≡ map (λ row. (row, word)) rows.now }
    ensures seat { IsSeatOf table.now seat.new }
    ensures view { view_of seat.new ≡ claims_made (map (λ row. (row, word)) rows.now) (view_of seat.old) }
{
    for row in rows {
        table.claim_row(seat, *row, word);
    }
}

/// The word of the candidate's claims.
pub(crate) fn word_of(entry: &Entry) -> u64
    requires { IsClaim (claim_in entry.now) }
    ensures { result ≡ word_of (claim_in entry.now) }
{
    pack_claim(Claim {
        start: entry.start,
        csn: entry.csn,
        region: entry.region,
    })
}
