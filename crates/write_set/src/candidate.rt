use crate::set::WriteSet;
use geo_base::{Duplicate, Epoch, Many, NoMemory};
use std::alloc::Global;

/// A transaction that asks to commit: the epoch on whose snapshot it ran, and the rows that it changes or
/// touches.
#[derive(Debug, Drop)]
pub struct Candidate {
    /// The epoch on whose snapshot it ran: in a lawful batch, 1 to 64 epochs before the batch's.
    pub start: Epoch,
    /// What it does to its rows: in a lawful batch, to at least one.
    pub set: WriteSet,
}

impl Duplicate for Candidate {
    fn copy(&self, alloc: Global) -> Result<Candidate, NoMemory> {
        Ok(Candidate {
            start: self.start,
            set: self.set.copy(alloc)?,
        })
    }
}

/// Candidates in the order of their commit numbers, which count from 0. How many there are isn't tested.
pub type CandidateList = Many<Candidate>;
