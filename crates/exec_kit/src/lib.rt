//! Plays tables of cases of statements. It serves tests alone.
//!
//! A case is a line of a text: a statement, or several that one transaction does one after another, an arrow, and what the
//! last of them is answered. `play` makes the tables, their rows and the transaction's net of texts too, parses each
//! statement, binds it, runs it over a source that counts the rows that it hands out, and makes its changes in the net;
//! and it fails with the first line that is answered otherwise. No contract says what a line means: tests show that lines
//! that are wrong are told.
//!
//! In each of these texts `{3:PIECE}` stands for the piece three times, and a `#` in it for the number of the time,
//! from 1. So limits are lines as all else.
#![tactic(auto)]

mod asking;
mod counted;
mod doing;
mod playing;
mod printing;
mod repeating;
mod sample;

pub use playing::{first_wrong, play, play_behind, play_over};
pub use sample::{ROWS, TABLES};
