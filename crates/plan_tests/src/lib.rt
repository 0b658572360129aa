//! Tests of plans: how the rows of each table are reached, how two tables are joined, which tests of a statement are
//! of use, and the lines that say a plan.
//!
//! They use only what `sql_plan` offers. What is wanted is worked by hand from the rules of the planner.
#![tactic(auto)]

#[cfg(test)]
mod accesses;
#[cfg(test)]
mod checking;
#[cfg(test)]
mod expressions;
#[cfg(test)]
mod joins;
#[cfg(test)]
mod plans;
#[cfg(test)]
mod tables;
#[cfg(test)]
mod usable;
