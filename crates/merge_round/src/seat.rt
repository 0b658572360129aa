//! A seat, which one thread works with.
use crate::verdict::Verdict;
use claim_rule::ClaimSeat;

/// The right to claim for candidates of one round and to judge them, with the verdicts that it found. It may
/// cross threads.
#[derive(Drop)]
pub struct WorkerSeat {
    pub(crate) claims: ClaimSeat,
    /// Whether a draw of a candidate to claim for came too late.
    pub(crate) claims_over: bool,
    /// Whether a draw of a candidate to judge came too late.
    pub(crate) judging_over: bool,
    /// The verdict on each candidate that it judged, in that one's place.
    pub(crate) verdicts: Vec<Option<Verdict>>,
}
