//! Tests of rounds of a merge.
//!
//! They use only what `merge_round` offers. What is wanted is worked by hand from the rules of merging.
#![tactic(auto)]

#[cfg(test)]
mod batches;
#[cfg(test)]
mod by_hand;
#[cfg(test)]
mod counting;
#[cfg(test)]
mod outcomes;
#[cfg(test)]
mod playing;
#[cfg(test)]
mod threads;
#[cfg(test)]
mod turns;
