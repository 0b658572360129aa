//! Tests of write sets and of the plain merge.
//!
//! They use only what `write_set` offers. What is wanted is worked by hand from the rules of nets and of
//! merging.
#![tactic(auto)]

#[cfg(test)]
mod changes;
#[cfg(test)]
mod kept;
#[cfg(test)]
mod merges;
#[cfg(test)]
mod nets;
