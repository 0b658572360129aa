//! An ordered map whose forks don't change.
//!
//! A [`PageMap`] is seen as the list of its pairs by rising keys, and each call is that of the list
//! (`specs/Pairs.antt`): `get` finds the value at a key, `set` and `take` change that key alone and give its
//! old value, `place_of` counts the keys below a key and `place_where` those before a border that need be no key
//! (`specs/Borders.antt`), `at` gives the pair at a place, and `between` those between two places. A fork is the
//! same list, and a value of its own. Each error is want of memory, and leaves the map as it was. What only looks
//! takes no memory, but that `between` answers with a list. `laws` says what such lists are after changes, and
//! how keys, borders and places belong together.
//!
//! The pairs stand in pages of at most 64, under shelves of at most 128 chunks, three deep. A fork takes one
//! step. A change under a fork copies one page, and of each shelf above it the pointers to its chunks. What no
//! fork shares is changed in place, but that `set` halves a full page or shelf on its way by copying it, also
//! where it only replaces a value. That nothing else is copied is in no clause: tests show it of maps of one page,
//! and that a change under a fork of a larger map copies no more values than a page holds. Maps and forks may go to
//! other threads.
#![tactic(auto)]

mod border;
mod changing;
mod chunk;
mod finding;
pub mod laws;
pub mod limits;
mod listing;
mod looking;
mod making_room;
mod map;
mod page;
mod parting;
mod root;
mod sharing;
mod shelf;

pub use border::Border;
pub use map::PageMap;
