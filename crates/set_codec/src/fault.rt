ghost use Rattle.std.specs.Prelude.{◌≡◌};
ghost use Rattle.set_codec.specs.CellFaults.{fault_of};
ghost use Rattle.set_codec.specs.declared.fault.CodecFault.TheVariants as fault;

use geo_base::NoMemory;
use row_codec::CellReadFault;
use row_codec::fields::FieldFault;
use std::alloc::{AllocError, AllocFailed};

/// What there is too much of.
#[derive(Clone, Copy, Debug, PartialEq, Eq)]
pub enum Limit {
    /// Bytes of a batch.
    BatchBytes,
    /// Candidates of a batch.
    Candidates,
    /// Rows of a candidate: there are too many, or none.
    Rows,
    /// Bytes of a candidate's changes.
    SetBytes,
    /// Bytes of a text.
    TextBytes,
}

/// Why the bytes spell no batch or no packet, with the place of what is at fault.
#[derive(Clone, Copy, Debug, PartialEq, Eq)]
pub enum CodecFault {
    /// A field needs more bytes than there are: the place is the end.
    Short(usize),
    /// The field at this place has a value that it may not have.
    BadTag(usize),
    /// The text whose first byte is at this place isn't UTF-8.
    BadUtf8(usize),
    /// The row of the change at this place isn't greater than the one before.
    NotOrdered(usize),
    /// There is no such table, or its column doesn't take the cell at this place.
    BadRow(usize),
    /// The start at this place isn't before the epoch, or too long before it.
    BadStart(usize),
    /// There is more than the limit allows, or no row: at the number, at the candidate for
    /// [`Limit::SetBytes`], at the first byte too many for [`Limit::BatchBytes`].
    OverLimit(usize, Limit),
    /// The first byte behind the end stands at this place.
    Trailing(usize),
    /// There was no memory for what was read. It says nothing of the bytes.
    NoMemory,
}

impl From<CellReadFault> for CodecFault {
    ghost from_gives = { λ cell e. e ≡ fault_of cell };

    fn from(cell: CellReadFault) -> CodecFault {
        match cell {
            CellReadFault::Short(at) => CodecFault::Short(at),
            CellReadFault::BadTag(at) => CodecFault::BadTag(at),
            CellReadFault::BadUtf8(at) => CodecFault::BadUtf8(at),
            CellReadFault::TooLong(at) => CodecFault::OverLimit(at, Limit::TextBytes),
            CellReadFault::NoMemory => CodecFault::NoMemory,
        }
    }
}

impl From<NoMemory> for CodecFault {
    ghost from_gives = { λ _ e. e ≡ fault.NoMemory };

    fn from(_e: NoMemory) -> CodecFault {
        CodecFault::NoMemory
    }
}

impl From<AllocError> for CodecFault {
    ghost from_gives = { λ _ e. e ≡ fault.NoMemory };

    fn from(_e: AllocError) -> CodecFault {
        CodecFault::NoMemory
    }
}

impl<T: Drop> From<AllocFailed<T>> for CodecFault {
    ghost from_gives = { λ _ e. e ≡ fault.NoMemory };

    fn from(_e: AllocFailed<T>) -> CodecFault {
        CodecFault::NoMemory
    }
}

impl FieldFault for CodecFault {
    ghost short = { fault.Short };

    fn short_at(end: usize) -> CodecFault {
        CodecFault::Short(end)
    }
}
