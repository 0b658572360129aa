ghost use Rattle.std.specs.Prelude.{◌≡◌};
ghost use Rattle.row_codec.specs.declared.fault.CellReadFault.TheVariants.{Short, NoMemory};

use crate::fields::FieldFault;
use std::alloc::{AllocError, AllocFailed};

/// Why no cell was read, with the place of what is at fault.
#[derive(Clone, Copy, Debug, PartialEq, Eq)]
pub enum CellReadFault {
    /// A field needs more bytes than there are: the place is the end.
    Short(usize),
    /// The tag at this place is none.
    BadTag(usize),
    /// The text whose first byte is at this place isn't UTF-8.
    BadUtf8(usize),
    /// The length at this place is above that of the longest text.
    TooLong(usize),
    /// There was no memory for what was read. It says nothing of the bytes.
    NoMemory,
}

impl From<AllocError> for CellReadFault {
    ghost from_gives = { λ _ e. e ≡ NoMemory };

    fn from(_e: AllocError) -> CellReadFault {
        CellReadFault::NoMemory
    }
}

impl<T: Drop> From<AllocFailed<T>> for CellReadFault {
    ghost from_gives = { λ _ e. e ≡ NoMemory };

    fn from(_e: AllocFailed<T>) -> CellReadFault {
        CellReadFault::NoMemory
    }
}

impl FieldFault for CellReadFault {
    ghost short = { Short };

    fn short_at(end: usize) -> CellReadFault {
        CellReadFault::Short(end)
    }
}
