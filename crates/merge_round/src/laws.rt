//! The laws of rounds, each the contract of a function that does nothing.
ghost use Rattle.std.specs.Prelude.{◌≡◌, ℕ, ◌+◌, ◌^◌, ◌<◌, ◌≤◌, true, Some, List, ◌∷◌, ◌++◌, map, Contains, length, slice_set};
ghost use Rattle.std.specs.List.{slice_get};
ghost use Rattle.geo_base.specs.declared.limits.TheConstants.{MAX_REGIONS};
ghost use Rattle.geo_base.specs.declared.row_id.RowId.{RowId};
ghost use Rattle.write_set.specs.declared.batch.Batch.{Batch};
ghost use Rattle.write_set.specs.Sets.{has_row};
ghost use Rattle.write_set.specs.Journal.{Journal, Placed, AreBatches, batches_at, candidates_of, epochs_of};
ghost use Rattle.write_set.specs.Merge.{last_change, verdicts};
ghost use Rattle.merge_round.specs.declared.seat.WorkerSeat.{WorkerSeat};
ghost use Rattle.merge_round.specs.Seats.{work_of};
ghost use Rattle.merge_round.specs.Gathers.{AreAllSeats};
ghost use Rattle.merge_round.specs.Rounds.{Round, AreClaims, FinalWordsDecide, IsRoundOf, ServingChangesJudgeAlike, rows_in, number_in, plan_by, plan_of, outcomes_of};

/// The greatest word of a row decides as comparing each candidate with each other does: over candidates whose
/// claims words can hold, as over those of an epoch's batches.
pub fn final_words_decide()
    ensures claims { (last : RowId → ℕ) (all : List Placed) → AreClaims all → FinalWordsDecide last all }
    ensures batches { (last : RowId → ℕ) (epoch : ℕ) (batches : List Batch) → AreBatches 0 epoch batches → length batches ≤ MAX_REGIONS → epoch < 2 ^ 32 →
        FinalWordsDecide last (candidates_of batches) }
{}

/// A round of a journal's epoch plans the claims that the journal's last changes leave to its candidates, and
/// gives the verdicts of that epoch.
pub fn rounds_judge_as_journals()
    ensures plan { (journal : Journal) (place : ℕ) (round : Round) → IsRoundOf journal place round →
        plan_of round ≡ plan_by (last_change (epochs_of journal place)) (candidates_of (batches_at journal place)) }
    ensures verdicts { (journal : Journal) (place : ℕ) (round : Round) → IsRoundOf journal place round →
        outcomes_of round ≡ verdicts (epochs_of journal (place + 1)) }
{}

/// What is held for the last changes of rows judges candidates as the last changes do, where it serves each of them
/// for each of its rows.
pub fn serving_changes_judge_alike()
    ensures { ServingChangesJudgeAlike }
{}

/// Rows and their numbers name one another: a row of a candidate stands at its number, each row has the number
/// of the place at which it stands, and no other rows are numbered.
pub fn numbers_name_rows()
    ensures row { (all : List Placed) (c : Placed) (row : RowId) → Contains all c → has_row row c.set ≡ true → slice_get (rows_in all) (number_in (rows_in all) row) ≡ Some row }
    ensures number { (all : List Placed) (number : ℕ) (row : RowId) → slice_get (rows_in all) number ≡ Some row → number_in (rows_in all) row ≡ number }
    ensures known { (all : List Placed) (row : RowId) → Contains (rows_in all) row → (c : Placed) × Contains all c × (has_row row c.set ≡ true) }
{}

/// Seats with equal shares serve for one another: where one takes the place of another, or each the place of one,
/// they are all seats of a round as those before were.
pub fn equal_shares_serve()
    ensures placed { (round : Round) (seats : List WorkerSeat) (place : ℕ) (old new : WorkerSeat) → slice_get seats place ≡ Some old →
        (work_of new).shares ≡ (work_of old).shares → AreAllSeats round seats → AreAllSeats round (slice_set seats place new) }
    ensures between { (round : Round) (front back : List WorkerSeat) (old new : WorkerSeat) → (work_of new).shares ≡ (work_of old).shares →
        AreAllSeats round (front ++ old ∷ back) → AreAllSeats round (front ++ new ∷ back) }
    ensures each { (round : Round) (olds news : List WorkerSeat) → map (λ seat. (work_of seat).shares) news ≡ map (λ seat. (work_of seat).shares) olds →
        AreAllSeats round olds → AreAllSeats round news }
{}
