//! The numbers that name regions, epochs, tables and candidates.

/// The number of a region, from 0.
pub type RegionNo = u8;

/// The number of an epoch: 0 is the empty database, and batches are of 1, 2, 3 and so on.
pub type Epoch = u32;

/// The commit number of a candidate: its place in its batch, from 0.
pub type Csn = u32;

/// The place of a table in the schema, from 0.
pub type TableNo = u8;

/// The name of a candidate.
#[derive(Clone, Copy, Debug, PartialEq, Eq)]
pub struct CandId {
    /// The epoch that it is a candidate of, from 1.
    pub epoch: Epoch,
    /// The region that sealed it or will.
    pub region: RegionNo,
    /// Its place in that region's batch of the epoch.
    pub csn: Csn,
}
