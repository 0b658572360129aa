use crate::word::Word;
use geo_base::{Epoch, RegionNo};

/// What becomes of the open epoch of a region that crashes.
#[derive(Clone, Copy, Debug, PartialEq, Eq)]
pub enum Sealing {
    /// It is not sealed.
    No,
    /// It is sealed, and its batch is in the log.
    Kept,
    /// It is sealed, and its batch is lost before it is in the log.
    Lost,
}

/// What a line of a script asks for. Regions are below the script's number of them, and sessions 0 to 63.
#[derive(Drop)]
pub enum Event {
    /// A session of the region runs a statement of 1 to 16,384 bytes.
    Sql {
        region: RegionNo,
        session: u8,
        text: Word,
    },
    /// A session of the region asks what became of its last transaction.
    Outcome {
        region: RegionNo,
        session: u8,
    },
    /// The region seals its open epoch.
    Seal {
        region: RegionNo,
    },
    /// The packets from `first` to `last`, at most 10,000, come to their regions one after another.
    Deliver {
        first: u32,
        last: u32,
    },
    /// The region asks another one for its batch of an epoch from 1 to 4,294,967,293.
    Fetch {
        region: RegionNo,
        asked: RegionNo,
        epoch: Epoch,
    },
    /// A seat of the region's round, 0 to 3, takes one step.
    Work {
        region: RegionNo,
        worker: u8,
    },
    /// The region merges and publishes its next epoch.
    Publish {
        region: RegionNo,
    },
    /// The region shows its tables.
    Show {
        region: RegionNo,
    },
    /// The region goes down.
    Crash {
        region: RegionNo,
        sealing: Sealing,
    },
    /// The region comes up from its log.
    Restart {
        region: RegionNo,
    },
    /// In a run: the region goes down after an epoch from 1 to 1,000.
    CrashAfter {
        region: RegionNo,
        epoch: Epoch,
    },
}
