//! Why a region refuses a call.
ghost use Rattle.std.specs.Prelude.{◌≡◌};
ghost use Rattle.region_core.specs.declared.fault.BeginFault.TheVariants as of_begin;
ghost use Rattle.region_core.specs.declared.fault.AsOfFault.TheVariants as of_epoch;
ghost use Rattle.region_core.specs.declared.fault.SealFault.TheVariants as of_seal;
ghost use Rattle.region_core.specs.declared.fault.FetchFault.TheVariants as of_fetch;
ghost use Rattle.region_core.specs.declared.fault.RoundFault.TheVariants as of_round;

use geo_base::{Epoch, NoMemory};

/// Why a region gives no snapshot of its published epoch, and takes no batch or verdicts in.
#[derive(Clone, Copy, Debug, PartialEq, Eq)]
pub enum BeginFault {
    /// The region is down.
    Down,
    /// There was no memory.
    NoMemory,
}

/// Why a region gives no snapshot of an epoch.
#[derive(Clone, Copy, Debug, PartialEq, Eq)]
pub enum AsOfFault {
    /// The region is down.
    Down,
    /// The epoch is below the horizon, which this is.
    TooOld(Epoch),
    /// The epoch is above the published one, which this is.
    NotPublished(Epoch),
    /// There was no memory.
    NoMemory,
}

/// Why a region doesn't take a candidate.
#[derive(Clone, Copy, Debug, PartialEq, Eq)]
pub enum SubmitFault {
    /// The region is down.
    Down,
    /// The open epoch is more than 64 after the candidate's start.
    TooOld { start: Epoch, open_epoch: Epoch },
    /// The batch has 4,096 candidates, or would have more than 4,194,304 bytes with this one.
    BatchFull,
    /// There was no memory.
    NoMemory,
}

/// Why a region doesn't seal.
#[derive(Clone, Copy, Debug, PartialEq, Eq)]
pub enum SealFault {
    /// The region is down.
    Down,
    /// The open epoch is the last one.
    LastEpoch,
    /// The region has sealed 8 epochs more than it has published, or more than that.
    Ahead,
    /// There was no memory.
    NoMemory,
    /// The keepers failed, and their count of faults rose. They may have kept the batch, and the region is down.
    LogFault,
}

/// Why a region doesn't say what it has sealed for an epoch.
#[derive(Clone, Copy, Debug, PartialEq, Eq)]
pub enum FetchFault {
    /// The region is down.
    Down,
    /// The keepers failed, and their count of faults rose.
    LogFault,
    /// The bytes that the keepers gave don't spell the region's batch of this epoch. Never where they tell.
    BadLog(Epoch),
    /// There was no memory.
    NoMemory,
}

/// Why a region has no round of its next epoch.
#[derive(Clone, Copy, Debug, PartialEq, Eq)]
pub enum RoundFault {
    /// The region is down.
    Down,
    /// Of the next epoch, which this is, it has the batches of so many regions, and not of all.
    Waiting { epoch: Epoch, have: u8 },
    /// There was no memory.
    NoMemory,
}

impl From<NoMemory> for BeginFault {
    ghost from_gives = { λ _ e. e ≡ of_begin.NoMemory };

    fn from(_e: NoMemory) -> BeginFault {
        BeginFault::NoMemory
    }
}

impl From<NoMemory> for AsOfFault {
    ghost from_gives = { λ _ e. e ≡ of_epoch.NoMemory };

    fn from(_e: NoMemory) -> AsOfFault {
        AsOfFault::NoMemory
    }
}

impl From<NoMemory> for SealFault {
    ghost from_gives = { λ _ e. e ≡ of_seal.NoMemory };

    fn from(_e: NoMemory) -> SealFault {
        SealFault::NoMemory
    }
}

impl From<NoMemory> for FetchFault {
    ghost from_gives = { λ _ e. e ≡ of_fetch.NoMemory };

    fn from(_e: NoMemory) -> FetchFault {
        FetchFault::NoMemory
    }
}

impl From<NoMemory> for RoundFault {
    ghost from_gives = { λ _ e. e ≡ of_round.NoMemory };

    fn from(_e: NoMemory) -> RoundFault {
        RoundFault::NoMemory
    }
}
