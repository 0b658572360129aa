//! In which epoch a row got a pair.
use geo_base::{Duplicate, Epoch, NoMemory};
use std::alloc::Global;

/// The last epoch in which a row got a pair.
#[derive(Drop)]
pub(crate) struct Gain {
    pub(crate) epoch: Epoch,
}

impl Duplicate for Gain {
    fn copy(&self, _alloc: Global) -> Result<Gain, NoMemory> {
        Ok(Gain { epoch: self.epoch })
    }
}
