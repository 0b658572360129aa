//! Tests of keepers in memory that fail at stated calls, and of keepers over the files of a folder.
//!
//! They use only what `geo_io` offers. What is wanted is worked by hand: the answers of each call, and the bytes of
//! the files.
#![tactic(auto)]

#[cfg(test)]
mod asking;
#[cfg(test)]
mod failing;
#[cfg(test)]
mod faults;
#[cfg(test)]
mod folder;
#[cfg(test)]
mod memory;
#[cfg(test)]
mod playing;
#[cfg(test)]
mod scratch;
