//! Tests of regions, over keepers in memory and over a folder.
//!
//! They use only what `region_core` and the crates below it offer. What is wanted is worked by hand from the rules of
//! epochs and from the forms of the bytes.
#![tactic(auto)]

#[cfg(test)]
mod acting;
#[cfg(test)]
mod folder;
#[cfg(test)]
mod keeping;
#[cfg(test)]
mod limits;
#[cfg(test)]
mod lives;
#[cfg(test)]
mod making;
#[cfg(test)]
mod opening;
#[cfg(test)]
mod playing;
#[cfg(test)]
mod telling;
#[cfg(test)]
mod turns;
