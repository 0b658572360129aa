//! DELETE.

use crate::ast::{Ast, copy_filter};
use geo_base::{Duplicate, NoMemory, Txt};
use std::alloc::Global;

/// Rows of a table that go.
#[derive(Drop)]
pub struct DeleteStmt {
    pub table: Txt,
    pub filter: Option<Ast>,
}

impl Duplicate for DeleteStmt {
    fn copy(&self, alloc: Global) -> Result<DeleteStmt, NoMemory> {
        Ok(DeleteStmt {
            table: self.table.copy(alloc)?,
            filter: copy_filter(alloc, &self.filter)?,
        })
    }
}
