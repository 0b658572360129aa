//! Tests of queries over a source of rows: which lines and faults they are answered, in which order, how many rows are
//! handed out for each, and what EXPLAIN says of their plans.
//!
//! They play lines by `exec_kit`: texts are parsed and bound to a schema, and answered over a list of rows with a net laid
//! over them. What is wanted is worked by hand from the rules of values, of conditions, of plans and of nets.
#![tactic(auto)]

#[cfg(test)]
mod depth;
#[cfg(test)]
mod explains;
#[cfg(test)]
mod faults;
#[cfg(test)]
mod integers;
#[cfg(test)]
mod joined;
#[cfg(test)]
mod limits;
#[cfg(test)]
mod plain;
#[cfg(test)]
mod telling;
