//! Tests of values: their orders, their copies, their limits, their texts, and the words of claims.
//!
//! They use only what `geo_base` offers, and stand above it so that it is proved once: a crate with tests in
//! it is proved without them and with them.
#![tactic(auto)]

#[cfg(test)]
mod lists;
#[cfg(test)]
mod orders;
#[cfg(test)]
mod printed;
#[cfg(test)]
mod values;
#[cfg(test)]
mod words;
