ghost use Rattle.geo_base.specs.Order.{text_eq};

use crate::alike::Alike;
use crate::column::PlaceList;
use geo_base::{Duplicate, Many, NoMemory, Txt};
use std::alloc::Global;

/// An index of a table: the columns by whose cells it finds rows.
#[derive(Debug, Drop)]
pub struct IndexDef {
    pub name: Txt,
    pub columns: PlaceList,
}

impl Alike for IndexDef {
    ghost same = { λ a b. text_eq a.name b.name };

    fn is_alike(&self, other: &IndexDef) -> bool {
        self.name == other.name
    }
}

impl Duplicate for IndexDef {
    fn copy(&self, alloc: Global) -> Result<IndexDef, NoMemory> {
        Ok(IndexDef {
            name: self.name.copy(alloc)?,
            columns: self.columns.copy(alloc)?,
        })
    }
}

/// The indexes of a table, from index 0 on. Their rules are tested by [`crate::Schema::new`].
pub type IndexList = Many<IndexDef>;
