//! Tests of the indexes of what a region keeps: which keys a range has, whatever was applied and trimmed.
//!
//! They use only what `index_store` offers, over versions of rows that are kept plainly. What is wanted is worked by
//! hand from the rules of epochs, of the horizon and of ranges.
#![tactic(auto)]

#[cfg(test)]
mod epochs;
#[cfg(test)]
mod plain_versions;
#[cfg(test)]
mod playing;
#[cfg(test)]
mod tables;
#[cfg(test)]
mod told;
