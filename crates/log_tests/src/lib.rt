//! Tests of logs and of inboxes.
//!
//! They use only what `own_log` and `epoch_inbox` offer, over keepers in memory. What is
//! wanted is worked by hand from the forms of the bytes.
#![tactic(auto)]

#[cfg(test)]
mod arrivals;
#[cfg(test)]
mod failing;
#[cfg(test)]
mod keeping;
#[cfg(test)]
mod loading;
#[cfg(test)]
mod reading_back;
