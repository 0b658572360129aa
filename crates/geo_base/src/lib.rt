//! The values that every region agrees on: cells, texts, keys, rows and their names, the number of
//! a candidate, its outcome, and the claim that two candidates of one epoch settle a row by; lists of
//! any values, and how values are written in texts.
//!
//! A text, a key, a row image and a line are checked once, when they are made, and contracts then
//! see each as a list; so is a [`Many`], of which nothing is checked. Cells, texts, keys, row images,
//! lines and names of rows have one total order; claims have the order of winning. Values that
//! compare equal are one value, and a copy equals what it copies. What is put at the end of a text is
//! the text of the value. `specs/Results.antt` has the words by which the crates above say what
//! a call answers: what a definition gives, what stands in its input and which fault that has, unless there
//! is no memory.
#![tactic(auto)]

mod cell;
mod cell_type;
mod claim;
mod duplicate;
mod equality;
mod key;
pub mod limits;
mod line;
mod many;
mod numbers;
mod outcome;
mod printed;
mod row_id;
mod row_image;
mod txt;

pub use cell::Cell;
pub use cell_type::CellType;
pub use claim::{Claim, beats, pack_claim, unpack_claim, winning_is_an_order};
pub use duplicate::{Duplicate, NoMemory, copy_items};
pub use equality::equal_values_are_one;
pub use key::{Key, KeyFault};
pub use line::Line;
pub use many::Many;
pub use numbers::{CandId, Csn, Epoch, RegionNo, TableNo};
pub use outcome::Outcome;
pub use printed::{Printed, print_commas, print_row};
pub use row_id::RowId;
pub use row_image::{RowImage, WrongCount};
pub use txt::{Txt, TxtFault};
