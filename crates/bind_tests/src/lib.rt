//! Tests of binding: which statement is refused for what, where two refusals meet the earlier one, and what
//! bound statements say.
//!
//! They use only what `sql_bind` offers, over statements and tables that are written as texts. What is wanted
//! is worked by hand from the order of binding.
#![tactic(auto)]

#[cfg(test)]
mod bound;
#[cfg(test)]
mod checking;
#[cfg(test)]
mod expressions;
#[cfg(test)]
mod hidden;
#[cfg(test)]
mod long_lists;
#[cfg(test)]
mod refusals;
#[cfg(test)]
mod shapes;
#[cfg(test)]
mod tables;
#[cfg(test)]
mod wide;
