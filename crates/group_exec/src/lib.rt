//! What a query makes of the rows, or pairs of rows, that its conditions keep.
//!
//! `specs/Groups.antt` says what the groups of a query are and what an item is for one, and `specs/Results.antt`
//! what a query answers of its rows: lines, in order and cut. [`group`] is the call that answers it, and a law says
//! that the lines in order are the stable sort of them.
#![tactic(auto)]

mod aggregates;
mod arguments;
mod grouping;
mod groups;
mod items;
mod laws;
pub mod limits;
mod made;
mod ordering;

pub use grouping::{LineList, group};
pub use laws::{ordered_is_the_stable_sort, the_order_of_lines_is_total};
