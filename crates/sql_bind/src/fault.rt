ghost use Rattle.std.specs.Prelude.{◌≡◌};
ghost use Rattle.sql_bind.specs.declared.fault.BindFault.TheVariants as fault;

use geo_base::{NoMemory, Txt};
use std::alloc::{AllocError, AllocFailed};

/// Why a statement isn't bound: the first thing that is wrong, in the order of binding. A column's name is as
/// it is written, with that of its table where that is written and the two together are no longer than a text
/// may be; those of a statement that was parsed never are.
#[derive(Drop)]
pub enum BindFault {
    /// No table is shown under this name.
    NoTable(Txt),
    /// No table of the statement has this column.
    NoColumn(Txt),
    /// Both tables have a column of this name, or have this name themselves; INSERT or SET names this column
    /// twice; or ORDER BY names two items by it.
    Ambiguous(Txt),
    /// An operator, a condition, a SUM or a column doesn't take the type of an expression that stands there.
    TypeClash,
    /// A row of INSERT has not one value for each column, or a query has not 1 to
    /// [`geo_base::limits::MAX_LINE_CELLS`] items.
    WrongCount,
    /// SET names this column of the key.
    KeyColumn(Txt),
    /// A plain item or ORDER BY of a grouped query names this column, which isn't in GROUP BY. A column of `*`
    /// is written by its name alone.
    NotGrouped(Txt),
    /// A query with FOR UPDATE joins or groups.
    NotLockable,
    /// There was no memory for the answer. It says nothing of the statement.
    NoMemory,
}

impl From<NoMemory> for BindFault {
    ghost from_gives = { λ _ e. e ≡ fault.NoMemory };

    fn from(_e: NoMemory) -> BindFault {
        BindFault::NoMemory
    }
}

impl From<AllocError> for BindFault {
    ghost from_gives = { λ _ e. e ≡ fault.NoMemory };

    fn from(_e: AllocError) -> BindFault {
        BindFault::NoMemory
    }
}

impl<T: Drop> From<AllocFailed<T>> for BindFault {
    ghost from_gives = { λ _ e. e ≡ fault.NoMemory };

    fn from(_e: AllocFailed<T>) -> BindFault {
        BindFault::NoMemory
    }
}
