use geo_base::{Epoch, Many};
use write_set::{Batch, Changes};

/// What a round is made of.
#[derive(Drop)]
pub struct RoundInput<C: Changes> {
    /// The epoch that is to be merged, from 1.
    pub epoch: Epoch,
    /// Its batches, one for each region, in the order of the regions.
    pub batches: BatchList,
    /// What is known of when rows were last changed in the epochs before it.
    pub before: C,
}

/// Batches in an order.
pub type BatchList = Many<Batch>;
