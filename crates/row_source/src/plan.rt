//! How a statement comes to its rows.

use geo_base::{Cell, Key, Many};
use geo_schema::KeyRange;

/// How the rows of one table are reached.
#[derive(Debug, Drop)]
pub enum Access {
    /// The one row with this key.
    Point(Key),
    /// The rows whose keys lie in this range.
    Range(KeyRange),
    /// The rows whose cells in the index, which is named by its place in the table, lie in this range.
    Index(u8, KeyRange),
    /// All rows.
    Scan,
}

/// What a cell of the right row's key is equal to.
#[derive(Debug, Drop)]
pub enum KeyPart {
    /// This cell.
    Lit(Cell),
    /// The cell of the left row in the column at this place.
    Left(u16),
}

/// The cells of a key, in its order.
pub type KeyPartList = Many<KeyPart>;

/// How the rows of the right table that belong to a left row are found.
#[derive(Debug, Drop)]
pub enum JoinKind {
    /// Each of the rows that the right table's access reaches.
    Nested,
    /// The row whose key has these cells, whatever the right table's access reaches.
    ByKey(KeyPartList),
    /// Those of them whose cell in the second column, a place in the right table, is equal to the left row's
    /// cell in the first column, a place in the left table. NULL is equal to nothing.
    Hashed(u16, u16),
}

/// The second table of a plan.
#[derive(Debug, Drop)]
pub struct Second {
    /// How the right table's rows are reached.
    pub access: Access,
    /// Which of them are found beside a left row.
    pub join: JoinKind,
}

/// A plan for one table or two.
#[derive(Debug, Drop)]
pub struct Plan {
    /// How the rows of the first table are reached.
    pub first: Access,
    /// The second table, where there are two.
    pub second: Option<Second>,
}
