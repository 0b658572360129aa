//! Words for bytes, for tables and for what a batch says, of which the lines of tests are made. It serves tests alone.
#![tactic(auto)]

mod bytes;
mod lines;
mod printing;
mod tables;

pub use bytes::{bytes_behind, bytes_of, marked};
pub use lines::{Line, halves, line_of};
pub use printing::batch_text;
pub use tables::{schema_named, two_tables};
