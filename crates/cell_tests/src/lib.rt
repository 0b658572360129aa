//! Tests of fields, cells and keys as bytes.
//!
//! They use only what `row_codec` offers. What is wanted is worked by hand from the forms of the bytes.
#![tactic(auto)]

#[cfg(test)]
mod bytes;
#[cfg(test)]
mod cell_bytes;
#[cfg(test)]
mod cells;
#[cfg(test)]
mod fields;
