//! Cells as bytes, each in one spelling: a tag, and behind it what the tag wants. And fields of bytes,
//! on which each reader of bytes stands.
//!
//! A writer appends the spelling, or leaves the bytes as they were where there is no memory. A
//! reader answers the cell whose spelling stands at a place, with the place behind it, and where
//! there is none the first fault from the left. What is read is spelled so, what is spelled so is
//! read again whatever follows it, no spelling begins another, and a fault is answered exactly where
//! the bytes have it. Want of memory alone may come in place of each of these answers.
#![tactic(auto)]

mod fault;
pub mod fields;
mod laws;
mod reading;
mod tag;
mod writing;

pub use fault::CellReadFault;
pub use laws::{no_spelling_begins_another, one_answer_at_each_place};
pub use reading::{read_cell, read_cells};
pub use writing::{cell_bytes, cell_size, key_bytes};
