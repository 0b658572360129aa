//! Tests of what queries make of their rows: aggregates, groups, order, limits and faults.
//!
//! A query is a text: it is parsed and bound, and its conditions pick the pairs of rows that are grouped. They use only
//! what the crates below offer. What is wanted is worked by hand from the rules of groups, of order and of faults.
#![tactic(auto)]

#[cfg(test)]
mod aggregates;
#[cfg(test)]
mod failing;
#[cfg(test)]
mod grouped;
#[cfg(test)]
mod long;
#[cfg(test)]
mod playing;
#[cfg(test)]
mod printing;
#[cfg(test)]
mod sorted;
#[cfg(test)]
mod telling;
