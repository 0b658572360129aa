//! Tests of expressions: their types, their values with three truths, their faults, and the rows that are kept.
//!
//! They use only what `sql_expr` offers. What is wanted is worked by hand from the meaning of expressions.
#![tactic(auto)]

#[cfg(test)]
mod expressions;
#[cfg(test)]
mod types;
