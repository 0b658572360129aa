//! Tests of snapshots and of views: which rows they tell, whatever was applied and trimmed since, and whatever the
//! transaction has written.
//!
//! They use only what the crates below offer, and what is wanted is worked by hand from the rules of epochs, of the
//! horizon, of nets and of ranges.
#![tactic(auto)]

#[cfg(test)]
mod asking;
#[cfg(test)]
mod playing;
#[cfg(test)]
mod region;
#[cfg(test)]
mod seen;
