//! The versions of rows that a region keeps: every epoch from a horizon to the last one applied can be read.
//!
//! `specs/Chains.antt` has the versions of one row, what they answer, what an epoch adds and what a horizon
//! leaves of them; `specs/History.antt` says what is kept of all rows, what applying an epoch and moving the
//! horizon make of it, and ties it to a journal; `specs/Listing.antt` lists the rows of an epoch. [`Versions`] keeps
//! them in a map whose forks don't change. The functions of `laws` say that what is kept answers what the
//! journal's snapshots have, and stays so whatever is applied and trimmed.
#![tactic(auto)]

mod chain;
mod changed_rows;
mod cutting;
mod laws;
mod listing;
mod version;
mod versions;
mod writing;

pub use laws::{
    histories_are_one, histories_go_on, kept_images_are_read, tables_are_snapshots,
    versions_answer_as_snapshots, what_is_read_stays,
};
pub use page_map::Border;
pub use versions::{TooOld, Versions};
