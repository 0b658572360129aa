// The faults that the calls of this crate answer.
ghost use Rattle.std.specs.Prelude.{◌≡◌};
ghost use Rattle.geo_io.specs.declared.fault.IoFault.TheVariants as io_fault;

use std::alloc::{AllocError, AllocFailed};
use std::io;
use std::io::ErrorKind;
use thiserror::Error;

/// The object that was called failed, and its count of faults rose.
#[derive(Clone, Copy, Debug, PartialEq, Eq)]
pub struct Failed;

/// Why a call failed that may take memory too.
#[derive(Clone, Copy, Debug, PartialEq, Eq, Error)]
pub enum IoFault {
    /// The object that was called failed, and its count of faults rose.
    #[error("reading or writing failed")]
    Failed,
    /// There was no memory left.
    #[error("out of memory")]
    NoMemory,
}

impl From<Failed> for IoFault {
    ghost from_gives = { λ _ fault. fault ≡ io_fault.Failed };

    fn from(_: Failed) -> Self {
        IoFault::Failed
    }
}

impl From<AllocError> for IoFault {
    ghost from_gives = { λ _ fault. fault ≡ io_fault.NoMemory };

    fn from(_: AllocError) -> Self {
        IoFault::NoMemory
    }
}

impl<T: Drop> From<AllocFailed<T>> for IoFault {
    ghost from_gives = { λ _ fault. fault ≡ io_fault.NoMemory };

    fn from(_: AllocFailed<T>) -> Self {
        IoFault::NoMemory
    }
}

/// Want of memory is told apart from all else that goes wrong with a file.
impl From<io::Error> for IoFault {
    fn from(error: io::Error) -> Self {
        match error.kind() {
            ErrorKind::OutOfMemory => IoFault::NoMemory,
            _ => IoFault::Failed,
        }
    }
}
