//! Tests of the versions of rows that a region keeps.
//!
//! They use only the public calls of `version_store`. What is wanted is worked by hand from the rules of epochs and of
//! the horizon.
#![tactic(auto)]

#[cfg(test)]
mod border;
#[cfg(test)]
mod epochs;
#[cfg(test)]
mod playing;
#[cfg(test)]
mod readings;
#[cfg(test)]
mod telling;
