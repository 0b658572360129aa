//! The limits of uniques, and the numbers of their hidden tables.
ghost use Rattle.std.specs.Prelude.{◌≡◌, ◌≤◌};
ghost use Rattle.geo_base.specs.declared.limits.TheConstants.{MAX_TABLES};

use geo_base::TableNo;

/// Uniques of one schema.
pub const MAX_UNIQUES: usize = 64;

/// Columns of a unique.
pub const MAX_UNIQUE_COLUMNS: usize = 4;

/// The number of the hidden table of the first unique. Those of the tables that are shown are below it.
pub const FIRST_HIDDEN: TableNo = 64;

/// What the limits are. Definitions cite them by their names, and this law says the numbers.
pub fn limits_are_these()
    ensures uniques { MAX_UNIQUES ≡ 64 }
    ensures unique_columns { MAX_UNIQUE_COLUMNS ≡ 4 }
    ensures first_hidden { FIRST_HIDDEN ≡ 64 }
    ensures behind { MAX_TABLES ≤ FIRST_HIDDEN }
{}
