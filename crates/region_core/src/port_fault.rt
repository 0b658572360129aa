//! Why a port's call is refused: as the region's call would be, or since the region has crashed since.
ghost use Rattle.std.specs.Prelude.{◌≡◌};
ghost use Rattle.region_core.specs.Ports.{begin_fault, as_of_fault, submit_fault};

use crate::fault::{AsOfFault, BeginFault, SubmitFault};
use geo_base::Epoch;

/// Why a port gives no snapshot of the published epoch.
#[derive(Clone, Copy, Debug, PartialEq, Eq)]
pub enum PortFault {
    /// The region is in another life than the one that was named.
    Gone,
    /// The region is down.
    Down,
    /// There was no memory.
    NoMemory,
}

/// Why a port gives no snapshot of an epoch.
#[derive(Clone, Copy, Debug, PartialEq, Eq)]
pub enum PortAsOfFault {
    /// The region is in another life than the one that was named.
    Gone,
    /// The region is down.
    Down,
    /// The epoch is below the horizon, which this is.
    TooOld(Epoch),
    /// The epoch is above the published one, which this is.
    NotPublished(Epoch),
    /// There was no memory.
    NoMemory,
}

/// Why a port doesn't take a candidate.
#[derive(Clone, Copy, Debug, PartialEq, Eq)]
pub enum PortSubmitFault {
    /// The region is in another life than the one that was named.
    Gone,
    /// The region is down.
    Down,
    /// The open epoch is more than 64 after the candidate's start.
    TooOld { start: Epoch, open_epoch: Epoch },
    /// The batch has 4,096 candidates, or would have more than 4,194,304 bytes with this one.
    BatchFull,
    /// There was no memory.
    NoMemory,
}

impl From<BeginFault> for PortFault {
    ghost from_gives = { λ fault e. e ≡ begin_fault fault };

    fn from(fault: BeginFault) -> PortFault {
        match fault {
            BeginFault::Down => PortFault::Down,
            BeginFault::NoMemory => PortFault::NoMemory,
        }
    }
}

impl From<AsOfFault> for PortAsOfFault {
    ghost from_gives = { λ fault e. e ≡ as_of_fault fault };

    fn from(fault: AsOfFault) -> PortAsOfFault {
        match fault {
            AsOfFault::Down => PortAsOfFault::Down,
            AsOfFault::TooOld(horizon) => PortAsOfFault::TooOld(horizon),
            AsOfFault::NotPublished(published) => PortAsOfFault::NotPublished(published),
            AsOfFault::NoMemory => PortAsOfFault::NoMemory,
        }
    }
}

impl From<SubmitFault> for PortSubmitFault {
    ghost from_gives = { λ fault e. e ≡ submit_fault fault };

    fn from(fault: SubmitFault) -> PortSubmitFault {
        match fault {
            SubmitFault::Down => PortSubmitFault::Down,
            SubmitFault::TooOld { start, open_epoch } => {
                PortSubmitFault::TooOld { start, open_epoch }
            }
            SubmitFault::BatchFull => PortSubmitFault::BatchFull,
            SubmitFault::NoMemory => PortSubmitFault::NoMemory,
        }
    }
}
