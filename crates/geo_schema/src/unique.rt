use crate::column::PlaceList;
use geo_base::{Duplicate, NoMemory, TableNo, Txt};
use std::alloc::Global;

/// That no two rows of a table have the same cells in these columns, unless one of the cells is NULL.
///
/// For each unique there is a hidden table, which has its name. What it is asked to be is said by a
/// [`crate::Schema`] that has it.
#[derive(Debug, Drop)]
pub struct UniqueDef {
    pub name: Txt,
    /// The number of its table, which is shown.
    pub table: TableNo,
    /// The columns, in the order in which the hidden table has their cells as its key.
    pub columns: PlaceList,
}

impl Duplicate for UniqueDef {
    fn copy(&self, alloc: Global) -> Result<UniqueDef, NoMemory> {
        Ok(UniqueDef {
            name: self.name.copy(alloc)?,
            table: self.table,
            columns: self.columns.copy(alloc)?,
        })
    }
}
