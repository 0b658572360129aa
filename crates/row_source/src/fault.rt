ghost use Rattle.std.specs.Prelude.{◌≡◌};
ghost use Rattle.row_source.specs.Matches.{fault_of};
ghost use Rattle.row_source.specs.declared.fault.ExecFault.TheVariants as fault;

use geo_base::{NoMemory, RowId, Txt};
use sql_expr::EvalFault;
use std::alloc::{AllocError, AllocFailed};

/// Why a statement was refused while it ran.
#[derive(Debug, Drop, PartialEq, Eq)]
pub enum ExecFault {
    /// A row is inserted that there is already, or that the statement has inserted before.
    Duplicate(RowId),
    /// The column with this name, which is not null or of the key, would get NULL.
    NullNotAllowed(Txt),
    /// The whole number that an operator or a sum gives is no `i64`.
    Overflow,
    /// A number is divided by 0.
    DivideByZero,
    /// The column with this name would get a text of more bytes than it takes.
    TextTooLong(Txt),
    /// A query has more lines than an answer may have (`group_exec::limits::MAX_LINES`), after LIMIT.
    ResultTooLong,
    /// The transaction would have more than [`geo_base::limits::MAX_SET_ROWS`] rows.
    TooManyRows,
    /// The transaction's spelled changes would have more than [`geo_base::limits::MAX_SET_BYTES`] bytes.
    TooLarge,
    /// There was no memory. It says nothing of the statement.
    NoMemory,
}

impl From<NoMemory> for ExecFault {
    ghost from_gives = { λ _ e. e ≡ fault.NoMemory };

    fn from(_e: NoMemory) -> ExecFault {
        ExecFault::NoMemory
    }
}

impl From<AllocError> for ExecFault {
    ghost from_gives = { λ _ e. e ≡ fault.NoMemory };

    fn from(_e: AllocError) -> ExecFault {
        ExecFault::NoMemory
    }
}

impl<T: Drop> From<AllocFailed<T>> for ExecFault {
    ghost from_gives = { λ _ e. e ≡ fault.NoMemory };

    fn from(_e: AllocFailed<T>) -> ExecFault {
        ExecFault::NoMemory
    }
}

impl From<EvalFault> for ExecFault {
    ghost from_gives = { λ e f. f ≡ fault_of e };

    fn from(e: EvalFault) -> ExecFault {
        match e {
            EvalFault::Overflow => ExecFault::Overflow,
            EvalFault::DivideByZero => ExecFault::DivideByZero,
            EvalFault::NoMemory => ExecFault::NoMemory,
        }
    }
}
