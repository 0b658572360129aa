//! Tests of joins: the pairs of rows that the conditions of a query keep, their order and their first fault, by the plan that is
//! chosen for the query and by the one that hands out everything.
//!
//! A query is a text: it is parsed and bound, and its plan is chosen. They use only what the crates below offer. What is wanted is
//! worked by hand from the rules of joins and of faults.
#![tactic(auto)]

#[cfg(test)]
mod failing;
#[cfg(test)]
mod found;
#[cfg(test)]
mod plans;
#[cfg(test)]
mod playing;
#[cfg(test)]
mod printing;
#[cfg(test)]
mod telling;
