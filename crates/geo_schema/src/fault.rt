ghost use Rattle.std.specs.Prelude.{◌≡◌};
ghost use Rattle.geo_schema.specs.declared.fault.SchemaFault.TheVariants as fault;

use geo_base::{NoMemory, TableNo, Txt};

/// Why a row doesn't fit its table.
#[derive(Clone, Copy, Debug, PartialEq, Eq)]
pub enum CellFault {
    /// It has not one cell for each column.
    WrongCount,
    /// The cell of this column is of another type.
    TypeClash(u8),
    /// The cell of this column, which is not null or of the key, is NULL.
    NullNotAllowed(u8),
    /// The text of this column has more bytes than the column takes.
    TextTooLong(u8),
}

/// Why tables and uniques are no schema.
#[derive(Debug, Drop, PartialEq, Eq)]
pub enum SchemaFault {
    /// There are more than [`geo_base::limits::MAX_TABLES`].
    TooManyTables,
    /// No table breaks a rule, and this is the name of the first whose name an earlier one has.
    Twice(Txt),
    /// The first table that breaks a rule of tables, where there are not too many.
    BadTable(TableNo),
    /// The first unique that breaks a rule of uniques, by its place from 0 on, where nothing is wrong with the
    /// tables that are shown. It is the 65th where there are too many and the first 64 are in order.
    BadUnique(u8),
    /// There was no memory, for a name that stands twice or for a hidden table. It says nothing of the tables
    /// and uniques.
    NoMemory,
}

impl From<NoMemory> for SchemaFault {
    ghost from_gives = { λ _ e. e ≡ fault.NoMemory };

    fn from(_e: NoMemory) -> SchemaFault {
        SchemaFault::NoMemory
    }
}
