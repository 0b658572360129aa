//! Judging candidates.
ghost use Rattle.std.specs.Prelude.{◌≡◌, ◌^◌, ◌<◌, ◌≤◌, true, None, Some, All, length};
ghost use Rattle.geo_base.specs.declared.claim.Claim.{Claim};
ghost use Rattle.geo_base.specs.Claims.{word_of, IsClaim};
ghost use Rattle.claim_rule.specs.Plan.{final_of};
ghost use Rattle.claim_rule.specs.Seats.{view_of, rows_of, IsSeatOf};
ghost use Rattle.merge_round.specs.Rounds.{rows_in, plan_of, verdict_on};
ghost use Rattle.merge_round.specs.Seats.{round_of, work_of, IsWorkerOf, Judges};
ghost use Rattle.merge_round.specs.inner.Entries.{first_above, last_at, IsEntry, IsJudging};

use crate::claiming::word_of;
use crate::numbering::Entry;
use crate::round::MergeRound;
use crate::seat::WorkerSeat;
use crate::verdict::Verdict;
use claim_rule::{ClaimSeat, ClaimTable};
use geo_base::{CandId, Epoch, unpack_claim};
use write_set::Changes;

/// What [`MergeRound::judge_next`] found.
#[derive(Clone, Copy, Debug, PartialEq, Eq)]
pub enum Judgement {
    /// The verdict on the candidate with this number.
    Verdict(u32, Verdict),
    /// All claims are made for only so many candidates.
    NotYet(u32),
    /// There was no candidate left.
    Spent,
}

impl<C: Changes> MergeRound<C> {
    /// Looks whether all claims are made, and if they are draws one candidate and judges it.
    ///
    /// `NotYet` comes exactly where this call's look gave fewer candidates than there are, and says how many
    /// it gave, never less than before; a seat that was once told something else isn't told so again, nor one
    /// that has the shares of all workers and was told `Spent` by `claim_next`. `Spent` comes exactly where a
    /// draw by this seat, now or before, gave a number that isn't below the number of candidates; a seat that
    /// was told so draws no more. A judgement asks for the last change of each of the candidate's rows at most
    /// once, and reads each row's word at most once. The call takes no memory, and has nothing by which it
    /// could wait.
    pub fn judge_next(&self, seat: &mut WorkerSeat) -> Judgement
        requires seat { IsWorkerOf (round_of self.now) seat.old }
        ensures seat { IsWorkerOf (round_of self.now) seat.new }
        ensures judges { Judges (round_of self.now) seat.old seat.new result }
        ensures shares { (work_of seat.new).shares ≡ (work_of seat.old).shares }
    {
        let done = self.table.done(&mut seat.claims);
        if done < self.count() {
            return Judgement::NotYet(done);
        }
        if seat.judging_over {
            return Judgement::Spent;
        }
        match self.table.draw_judge(&mut seat.claims) {
            Some(number) => {
                let verdict = self.judge(&mut seat.claims, number);
                seat.verdicts[number as usize] = Some(verdict);
                Judgement::Verdict(number, verdict)
            }
            None => {
                seat.judging_over = true;
                Judgement::Spent
            }
        }
    }

    /// The verdict on the candidate.
    fn judge(&self, seat: &mut ClaimSeat, number: u32) -> Verdict
        requires seat { IsJudging (round_of self.now) seat.old }
        requires within { number < length (round_of self.now).all }
        ensures seat { IsSeatOf (round_of self.now).table seat.new }
        ensures view { view_of seat.new ≡ view_of seat.old }
        ensures verdict { Some result ≡ verdict_on (round_of self.now) number }
    {
        let entry = self.entry(number);
        match self.first_changed(entry) {
            Some((row, last)) => Verdict::Changed(row, last),
            None => self.judge_unchanged(seat, number, entry),
        }
    }

    /// The verdict on the candidate, none of whose rows was changed after its start.
    fn judge_unchanged(&self, seat: &mut ClaimSeat, _number: u32, entry: &Entry) -> Verdict
        requires seat { IsJudging (round_of self.now) seat.old }
        requires entry { IsEntry (round_of self.now).all _number entry.now }
        requires unchanged { None ≡ first_above (last_at (round_of self.now).last (rows_in (round_of self.now).all)) entry.now.start entry.now.rows }
        ensures seat { IsSeatOf (round_of self.now).table seat.new }
        ensures view { view_of seat.new ≡ view_of seat.old }
        ensures verdict { Some result ≡ verdict_on (round_of self.now) _number }
    {
        match first_lost(&self.table, seat, entry.rows.items(), word_of(entry)) {
            Some((row, word)) => Verdict::Beaten(row, winner_of(self.input.epoch, word)),
            None => Verdict::Committed,
        }
    }
}

/// The first of the rows whose word is above the given one, and its word.
fn first_lost(
    table: &ClaimTable,
    seat: &mut ClaimSeat,
    rows: &[u32],
    word: u64,
) -> Option<(u32, u64)>
    requires seat { IsSeatOf table.now seat.old }
    requires stable { (view_of seat.old).stable ≡ true }
    requires rows { All (λ row. row < rows_of table.now) rows.now }
    ensures seat { IsSeatOf table.now seat.new }
    ensures view { view_of seat.new ≡ view_of seat.old }
    ensures first { result ≡ first_above (final_of (view_of seat.old).plan) word rows.now }
{
    for row in rows {
        let header = table.header(seat, *row);
        if header > word {
            return Some((*row, header));
        }
    }
    None
}

/// The name of the candidate of the epoch whose claim has the word.
fn winner_of(epoch: Epoch, word: u64) -> CandId
    requires { 2 ^ 32 ≤ word }
    ensures { (claim : Claim) → IsClaim claim → word_of claim ≡ word →
        result ≡ record { epoch = epoch; region = claim.region; csn = claim.csn } }
{
    let claim = unpack_claim(word).unwrap();
    CandId {
        epoch,
        region: claim.region,
        csn: claim.csn,
    }
}
