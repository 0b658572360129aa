//! What a query answers and what a statement that writes does, over any source of rows.
//!
//! `specs/Answers.antt` says what a query answers over rows, and `specs/Effects.antt` what a statement that
//! writes does to them: plain programs over lists, in which there are no plans. `select` answers the former by
//! the plan that is chosen for the query: its lines or its first fault. `lock`, `insert`, `update` and `delete` do
//! the latter in two calls: they answer the changes of the statement, or its first fault, and `apply_changes` makes
//! the changes in the transaction's net, in place. They are two since a source may be a view that borrows the net
//! while the statement reads. An INSERT is handed no rows, and nothing else is handed more rows than its plan
//! reaches. A query that locks is without order.
//!
//! `specs/Changes.antt` says what holds of the changes of a statement that writes, and of a transaction's net behind
//! it. Laws say that it holds of each, that rows of a schema stay such rows under these changes, and which row a
//! duplicate is.
#![tactic(auto)]

mod choosing;
mod deleting;
mod fitting;
mod for_update;
mod inserting;
mod keeping;
mod laws;
mod lines;
mod naming;
mod netting;
mod pointing;
mod queries;
mod reaching;
mod touching;
mod updating;

pub use deleting::delete;
pub use for_update::{Locked, lock};
pub use inserting::insert;
pub use laws::{
    changes_can_be_applied, deleted_rows_are_there, duplicates_are_of_the_table,
    faults_are_of_statements, fitting_is_the_rule_of_rows, inserted_rows_fit,
    own_nets_stay_own_nets, rows_stay_rows, touched_rows_are_there, updated_rows_fit,
};
pub use lines::LineList;
pub use netting::apply_changes;
pub use queries::select;
pub use updating::update;
