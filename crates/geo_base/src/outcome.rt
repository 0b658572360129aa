use crate::duplicate::{Duplicate, NoMemory};
use crate::numbers::{CandId, Epoch};
use crate::row_id::RowId;
use std::alloc::Global;

/// What became of a candidate.
#[derive(Debug, Drop, PartialEq, Eq)]
pub enum Outcome {
    Committed,
    /// The row was changed after the candidate's start, last in this epoch.
    Changed(RowId, Epoch),
    /// The row went to this candidate of the same epoch.
    Beaten(RowId, CandId),
}

impl Duplicate for Outcome {
    fn copy(&self, alloc: Global) -> Result<Outcome, NoMemory> {
        match self {
            Outcome::Committed => Ok(Outcome::Committed),
            Outcome::Changed(row, epoch) => Ok(Outcome::Changed(row.copy(alloc)?, *epoch)),
            Outcome::Beaten(row, winner) => Ok(Outcome::Beaten(row.copy(alloc)?, *winner)),
        }
    }
}
