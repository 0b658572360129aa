//! Where bytes come from and go to. A program reads through a `Source`, writes through a `Sink` and keeps the
//! entries of its regions through `Keepers`. Each of the three may tell what it holds, and then each call says
//! what became of it; each counts how often it failed, and a call answers a failure only where that count rose.
//! So whoever builds on these traits can promise which bytes it wrote for which bytes it read, and that it
//! answers no fault of its own. `read_limited` and `write_whole` are the loops that every caller needs.
//!
//! The sources, sinks and keepers in memory tell all they hold. Those over a reader or a writer of std tell what
//! std knows of it: all of bytes in memory, and nothing of standard input and output, which are the edge that no
//! clause reaches behind.
#![tactic(auto)]

mod clean_keepers;
mod entries;
mod entry_file;
mod fail_plan;
mod fault;
mod folder_keepers;
mod keepers;
mod laws;
pub mod limits;
mod log_folder;
mod mem_keepers;
mod mem_sink;
mod mem_source;
mod reading;
mod sink;
mod source;
mod std_edge;
mod writing;

pub use clean_keepers::CleanKeepers;
pub use entries::{ByteList, Entries};
pub use fail_plan::Fail;
pub use fault::{Failed, IoFault};
pub use folder_keepers::FolderKeepers;
pub use keepers::Keepers;
pub use laws::appended_entries_stand_at_the_end;
pub use limits::{MAX_ENTRY_BYTES, MAX_WIDTH};
pub use mem_keepers::MemKeepers;
pub use mem_sink::{CleanSink, MemSink};
pub use mem_source::{CleanSource, MemSource};
pub use reading::read_limited;
pub use sink::Sink;
pub use source::Source;
pub use std_edge::{StdSink, StdSource};
pub use writing::write_whole;

#[cfg(test)]
mod tests;
