//! Tests of reading batches and packets from bytes: what bytes are told, one batch that is worked in both formats, its
//! cuts and changes, and the packets that are no batches.
//!
//! They use what `set_codec` offers, over words of `codec_kit`. What is wanted is worked by hand from the forms of the
//! bytes.
#![tactic(auto)]

#[cfg(test)]
mod batches;
#[cfg(test)]
mod packets;
#[cfg(test)]
mod told;
