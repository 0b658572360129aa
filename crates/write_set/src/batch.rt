use crate::candidate::CandidateList;
use geo_base::{Duplicate, Epoch, NoMemory, RegionNo};
use std::alloc::Global;

/// What one region seals for one epoch: its sessions' candidates, or none.
#[derive(Debug, Drop)]
pub struct Batch {
    /// The region that sealed it.
    pub region: RegionNo,
    /// The epoch that it is for, from 1.
    pub epoch: Epoch,
    /// The candidates, at most 4,096 in a lawful batch.
    pub items: CandidateList,
}

impl Duplicate for Batch {
    fn copy(&self, alloc: Global) -> Result<Batch, NoMemory> {
        Ok(Batch {
            region: self.region,
            epoch: self.epoch,
            items: self.items.copy(alloc)?,
        })
    }
}
