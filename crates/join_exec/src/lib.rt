//! The rows of one table, or the pairs of rows of two, that the conditions of a statement keep, by a plan.
//!
//! [`join`] answers by every plan what the definition says of all rows (`row_source: specs/Matches.antt`), where each row or
//! pair that the plan doesn't hand out is one that the conditions drop (`row_source: specs/Handing.antt`). The plans of
//! `sql_plan` are such plans.
#![tactic(auto)]

mod by_key;
mod by_link;
mod joining;
mod keeping;
mod reaching;

pub use joining::join;
