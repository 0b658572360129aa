//! A region's log: the list of its batches, as entries that outlive the region.
//!
//! A batch is appended as its spelling, and the entries are read back as exactly the batches that they spell,
//! where each is of the region and of the epoch that is one greater than its place. Where they spell no such list,
//! the first entry that is none is named, with what is wrong with it. The entries lie with keepers, and what is said
//! of them is said where these tell them; a fault of the keepers is answered only where their count rose.
#![tactic(auto)]

mod appending;
mod fault;
mod laws;
mod loading;

pub use appending::{append, entry};
pub use fault::{EntryFault, LoadFault, LogAppendFault};
pub use laws::{
    appended_entries_are_read, batches_are_of_their_places, entries_have_one_answer,
    entries_have_the_limit_of_batches, entries_spell_their_places,
};
pub use loading::load_log;
