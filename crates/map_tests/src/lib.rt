//! Tests of maps whose forks don't change.
//!
//! They use only what `page_map` offers. What is wanted is known beforehand: a plain table of the same
//! changes, or pairs whose values are their keys.
#![tactic(auto)]

#[cfg(test)]
mod borders;
#[cfg(test)]
mod copies;
#[cfg(test)]
mod counting;
#[cfg(test)]
mod forks;
#[cfg(test)]
mod growth;
#[cfg(test)]
mod in_place;
#[cfg(test)]
mod number;
#[cfg(test)]
mod plain;
#[cfg(test)]
mod threads;
