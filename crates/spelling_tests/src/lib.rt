//! Tests of spelling batches and packets: each is built of words, tested to fit its tables, and has the bytes of its line,
//! from which it is read again.
//!
//! They use what `set_codec` offers, over words of `codec_kit`. What is wanted is worked by hand from the forms of the
//! bytes.
#![tactic(auto)]

#[cfg(test)]
mod building;
#[cfg(test)]
mod built;
#[cfg(test)]
mod cells;
#[cfg(test)]
mod fitting;
