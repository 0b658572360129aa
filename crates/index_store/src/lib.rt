//! The indexes of tables, over all the epochs that a region keeps.
//!
//! An index is a set of pairs: that a row had certain cells in the columns of the index. One pair stands for all the
//! versions of the row that have these cells. `specs/Pairs.antt` says which pairs a row has, `specs/Kept.antt` what is
//! kept of the rows, `specs/Indexes.antt` that a pair is there exactly where its row had it after an epoch that is
//! kept, `specs/Ranges.antt` which keys a range has, and `specs/Rows.antt` which rows it finds. An [`IndexStore`] keeps
//! the pairs of all indexes in a map whose forks don't change. It follows the versions of rows, which it sees as any
//! `KeptVersions`: by one epoch, and to a later horizon, and then it is the index of what they keep if it was that of
//! what they kept before. So a range finds each row that had cells in it after an epoch that is kept, and no other. The
//! functions of `laws` say that of any list of pairs, and that the keys in a range are one list.
#![tactic(auto)]

mod columns;
mod dropping;
mod edges;
mod following;
mod gain;
mod keys;
mod laws;
mod lost_pairs;
mod pair;
mod store;

pub use laws::{keys_in_a_range_are_one_list, ranges_find_every_row};
pub use pair::IndexPair;
pub use store::IndexStore;
