//! Statements.

use crate::delete::DeleteStmt;
use crate::insert::InsertStmt;
use crate::select::SelectStmt;
use crate::update::UpdateStmt;
use geo_base::{Duplicate, NoMemory};
use std::alloc::Global;

/// A statement.
#[derive(Drop)]
pub enum Statement {
    Select(SelectStmt),
    /// A query with FOR UPDATE behind it.
    SelectForUpdate(SelectStmt),
    Insert(InsertStmt),
    Update(UpdateStmt),
    Delete(DeleteStmt),
    Begin,
    /// BEGIN AS OF EPOCH and the number of the epoch.
    BeginAsOf(u64),
    Commit,
    Rollback,
    Explain(SelectStmt),
}

impl Duplicate for Statement {
    fn copy(&self, alloc: Global) -> Result<Statement, NoMemory> {
        match self {
            Statement::Select(select) => Ok(Statement::Select(select.copy(alloc)?)),
            Statement::SelectForUpdate(select) => {
                Ok(Statement::SelectForUpdate(select.copy(alloc)?))
            }
            Statement::Insert(insert) => Ok(Statement::Insert(insert.copy(alloc)?)),
            Statement::Update(update) => Ok(Statement::Update(update.copy(alloc)?)),
            Statement::Delete(delete) => Ok(Statement::Delete(delete.copy(alloc)?)),
            Statement::Begin => Ok(Statement::Begin),
            Statement::BeginAsOf(epoch) => Ok(Statement::BeginAsOf(*epoch)),
            Statement::Commit => Ok(Statement::Commit),
            Statement::Rollback => Ok(Statement::Rollback),
            Statement::Explain(select) => Ok(Statement::Explain(select.copy(alloc)?)),
        }
    }
}
