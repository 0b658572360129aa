//! UPDATE.

use crate::ast::{Ast, copy_filter};
use crate::lists::AstSetList;
use geo_base::{Duplicate, NoMemory, Txt};
use std::alloc::Global;

/// New values for the rows of a table.
#[derive(Drop)]
pub struct UpdateStmt {
    pub table: Txt,
    pub sets: AstSetList,
    pub filter: Option<Ast>,
}

/// A column and its new value.
#[derive(Drop)]
pub struct AstSet {
    pub column: Txt,
    pub value: Ast,
}

impl Duplicate for AstSet {
    fn copy(&self, alloc: Global) -> Result<AstSet, NoMemory> {
        Ok(AstSet {
            column: self.column.copy(alloc)?,
            value: self.value.copy(alloc)?,
        })
    }
}

impl Duplicate for UpdateStmt {
    fn copy(&self, alloc: Global) -> Result<UpdateStmt, NoMemory> {
        Ok(UpdateStmt {
            table: self.table.copy(alloc)?,
            sets: self.sets.copy(alloc)?,
            filter: copy_filter(alloc, &self.filter)?,
        })
    }
}
