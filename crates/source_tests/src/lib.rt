//! Tests of sources of rows: what they hand out, in which order, and how a counter of steps rises by it.
//!
//! They use only what `row_source` offers. What is wanted is worked by hand from the rules of ranges and of
//! rows.
#![tactic(auto)]

#[cfg(test)]
mod asking;
#[cfg(test)]
mod cells;
#[cfg(test)]
mod counting;
#[cfg(test)]
mod ranges;
#[cfg(test)]
mod rows;
#[cfg(test)]
mod tables;
