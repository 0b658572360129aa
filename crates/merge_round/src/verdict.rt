use geo_base::{CandId, Epoch};

/// What became of a candidate, where a row is named by its number in the round.
#[derive(Clone, Copy, Debug, PartialEq, Eq)]
pub enum Verdict {
    Committed,
    /// The row was changed after the candidate's start, last in this epoch.
    Changed(u32, Epoch),
    /// The row went to this candidate of the same epoch.
    Beaten(u32, CandId),
}
