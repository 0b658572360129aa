//! INSERT.

use crate::lists::{AstList, AstRowList, TxtList};
use geo_base::{Duplicate, NoMemory, Txt};
use std::alloc::Global;

/// Rows for a table.
#[derive(Drop)]
pub struct InsertStmt {
    pub table: Txt,
    /// Empty exactly where no list of columns is written.
    pub columns: TxtList,
    pub rows: AstRowList,
}

/// The values of a row.
#[derive(Drop)]
pub struct AstRow {
    pub values: AstList,
}

impl Duplicate for AstRow {
    fn copy(&self, alloc: Global) -> Result<AstRow, NoMemory> {
        Ok(AstRow {
            values: self.values.copy(alloc)?,
        })
    }
}

impl Duplicate for InsertStmt {
    fn copy(&self, alloc: Global) -> Result<InsertStmt, NoMemory> {
        Ok(InsertStmt {
            table: self.table.copy(alloc)?,
            columns: self.columns.copy(alloc)?,
            rows: self.rows.copy(alloc)?,
        })
    }
}
