//! Tests of the reader of scripts and of the world of a play: lines of each form and lines that are none, where a
//! text that is no script is refused, and what small worlds print.
//!
//! They use only what `world_script` and `geo_world` offer. What is wanted is worked by hand from the language of
//! scripts and from the rules of epochs.
#![tactic(auto)]

#[cfg(test)]
mod scripts;
#[cfg(test)]
mod worlds;
