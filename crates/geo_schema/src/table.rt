ghost use Rattle.geo_base.specs.Order.{text_eq};

use crate::alike::Alike;
use crate::column::{ColumnList, PlaceList};
use crate::index::IndexList;
use geo_base::{Duplicate, NoMemory, Txt};
use std::alloc::Global;

/// A table. What is a column, a key place or an index of it is said by a [`crate::Schema`] that has it.
#[derive(Debug, Drop)]
pub struct TableDef {
    pub name: Txt,
    pub columns: ColumnList,
    /// The columns whose cells are the row's key, in the key's order.
    pub key: PlaceList,
    pub indexes: IndexList,
}

impl Alike for TableDef {
    ghost same = { λ a b. text_eq a.name b.name };

    fn is_alike(&self, other: &TableDef) -> bool {
        self.name == other.name
    }
}

impl Duplicate for TableDef {
    fn copy(&self, alloc: Global) -> Result<TableDef, NoMemory> {
        Ok(TableDef {
            name: self.name.copy(alloc)?,
            columns: self.columns.copy(alloc)?,
            key: self.key.copy(alloc)?,
            indexes: self.indexes.copy(alloc)?,
        })
    }
}
