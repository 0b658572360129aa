//! The choice of a plan.
//!
//! `plan_of` chooses how the rows of a statement's table or tables are reached, by the conjuncts of its condition
//! (`specs/Plans.antt`), and `plan_lines` says the choice in words, as EXPLAIN prints it. Whatever the tests are,
//! the chosen plan fits its tables, and the tests drop each row or pair of rows that it leaves out, without a fault:
//! these are two laws, and what a join needs of a plan.
#![tactic(auto)]

mod access;
mod collecting;
mod joins;
mod laws;
mod lines;
mod links;
mod plan;
mod ranges;
mod tables;
mod tests;

pub use laws::{plans_fit_their_tables, tests_drop_what_plans_leave_out};
pub use lines::plan_lines;
pub use plan::plan_of;
