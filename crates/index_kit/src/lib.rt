//! Changes of rows, epochs of two regions and ranges, read of texts, of which the lines of tests are made. It serves
//! tests alone.
#![tactic(auto)]

mod changes;
mod epochs;
mod ranges;

pub use changes::{puts_of, row_named, set_of};
pub use epochs::{Judged, judged_of};
pub use ranges::range_of;
