//! Statements as trees, and how they are printed.
//!
//! A statement keeps what its text says and nothing of how it was written: parentheses, quotes, case
//! and spaces are gone. `print` answers the one canonical text of a statement, exactly as the
//! definition `printed` gives it, want of memory apart. Contracts see every list as the list of its
//! items and every expression without pointers, and a copy equals what it copies.
#![tactic(auto)]

mod ast;
mod delete;
mod insert;
mod lists;
mod printing;
mod select;
mod statement;
mod update;

pub use ast::{Ast, AstOp, ColRef};
pub use delete::DeleteStmt;
pub use insert::{AstRow, InsertStmt};
pub use lists::{AstItemList, AstList, AstRowList, AstSetList, ColRefList, OrderRefList, TxtList};
pub use printing::print;
pub use select::{AstItem, AstValue, Items, JoinRef, OrderRef, SelectStmt, TableRef};
pub use statement::Statement;
pub use update::{AstSet, UpdateStmt};
