use geo_schema::{ColumnDef, Kind};

/// A column, and whether it is of the key.
#[derive(Drop)]
pub(crate) struct Column {
    pub def: ColumnDef,
    pub is_key: bool,
}

/// What stands behind a column's name.
#[derive(Clone, Copy)]
pub(crate) struct Typed {
    pub kind: Kind,
    pub not_null: bool,
    pub is_key: bool,
}
