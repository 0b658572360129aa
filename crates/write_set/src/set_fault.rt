ghost use Rattle.std.specs.Prelude.{◌≡◌};
ghost use Rattle.write_set.specs.declared.set_fault.SetFault.TheVariants as fault;

use geo_base::NoMemory;
use std::alloc::{AllocError, AllocFailed};

/// Why changes make no write set.
#[derive(Clone, Copy, Debug, PartialEq, Eq)]
pub enum SetFault {
    /// They leave more than [`geo_base::limits::MAX_SET_ROWS`] rows changed or touched.
    TooManyRows,
    /// They leave no more rows than that, but their spellings have more than
    /// [`geo_base::limits::MAX_SET_BYTES`] bytes.
    TooLarge,
    /// There was no memory for what they leave. It says nothing of the changes.
    NoMemory,
}

impl From<NoMemory> for SetFault {
    ghost from_gives = { λ _ e. e ≡ fault.NoMemory };

    fn from(_e: NoMemory) -> SetFault {
        SetFault::NoMemory
    }
}

impl From<AllocError> for SetFault {
    ghost from_gives = { λ _ e. e ≡ fault.NoMemory };

    fn from(_e: AllocError) -> SetFault {
        SetFault::NoMemory
    }
}

impl<T: Drop> From<AllocFailed<T>> for SetFault {
    ghost from_gives = { λ _ e. e ≡ fault.NoMemory };

    fn from(_e: AllocFailed<T>) -> SetFault {
        SetFault::NoMemory
    }
}
