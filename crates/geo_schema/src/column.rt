ghost use Rattle.std.specs.Prelude.{◌≡◌};
ghost use Rattle.geo_base.specs.Order.{text_eq};
ghost use Rattle.geo_schema.specs.Rows.{type_of};

use crate::alike::Alike;
use geo_base::{CellType, Duplicate, Many, NoMemory, Txt};
use std::alloc::Global;

/// The type of the cells of a column.
#[derive(Clone, Copy, Debug, PartialEq, Eq)]
pub enum Kind {
    Int,
    /// Texts of at most so many bytes.
    Text { max: u16 },
    Truth,
}

impl Kind {
    /// The type of the column's cells that are not NULL.
    pub fn cell_type(self) -> CellType
        ensures { result ≡ type_of self }
    {
        match self {
            Kind::Int => CellType::Int,
            Kind::Text { .. } => CellType::Text,
            Kind::Truth => CellType::Truth,
        }
    }
}

/// A column of a table.
#[derive(Debug, Drop)]
pub struct ColumnDef {
    pub name: Txt,
    pub kind: Kind,
    /// Whether its cells may not be NULL. Those of a key column may not be either way.
    pub not_null: bool,
}

impl Alike for ColumnDef {
    ghost same = { λ a b. text_eq a.name b.name };

    fn is_alike(&self, other: &ColumnDef) -> bool {
        self.name == other.name
    }
}

impl Duplicate for ColumnDef {
    fn copy(&self, alloc: Global) -> Result<ColumnDef, NoMemory> {
        Ok(ColumnDef {
            name: self.name.copy(alloc)?,
            kind: self.kind,
            not_null: self.not_null,
        })
    }
}

/// The columns of a table, from column 0 on. Their rules are tested by [`crate::Schema::new`].
pub type ColumnList = Many<ColumnDef>;

/// Columns by their places in the table, from 0: those of a key or of an index, in its order. That they
/// are places of columns is tested by [`crate::Schema::new`].
pub type PlaceList = Many<u8>;
