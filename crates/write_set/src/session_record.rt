use crate::set::WriteSet;
use geo_base::{Duplicate, Epoch, NoMemory};
use std::alloc::Global;

/// A transaction of a session, made by some lines of a script: the epoch on whose snapshot it ran, and
/// what it does to its rows.
#[derive(Debug, Drop)]
pub struct Record {
    /// The number of the session in its region, from 0 to 63.
    pub session: u8,
    /// The number of the transaction's first line in the script.
    pub first: u32,
    /// The number of its last line.
    pub last: u32,
    /// The epoch on whose snapshot it ran, from 0.
    pub start: Epoch,
    /// What it does to its rows.
    pub set: WriteSet,
}

impl Duplicate for Record {
    fn copy(&self, alloc: Global) -> Result<Record, NoMemory> {
        Ok(Record {
            session: self.session,
            first: self.first,
            last: self.last,
            start: self.start,
            set: self.set.copy(alloc)?,
        })
    }
}
