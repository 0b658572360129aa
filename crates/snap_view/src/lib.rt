//! What a transaction reads: a snapshot of one epoch, and a view of it with the transaction's own writes.
//!
//! A [`Snapshot`] holds a fork of a region's versions and of their indexes, and its rows are those that there were
//! after one of the epochs that the versions are kept of (`specs/Snapshots.antt`). Nothing changes it: it has no call
//! that would, and what its region applies later goes into other forks. A [`View`] is a `RowSource` of a snapshot's
//! rows with a write set laid over them (`specs/Views.antt`). It asks for one row by a look-up, for a range of keys by
//! the rows in the range, and for a range of an index by the pairs that the index has in it, and doesn't go through a
//! table. The functions of `laws` tie snapshots to journals, and say when the rows of both fit a schema.
#![tactic(auto)]

mod edges;
mod indexed;
mod laws;
mod laying;
mod naming;
mod own_writes;
mod snapshot;
mod view;

pub use laws::{
    indexes_follow_versions, indexes_of_versions_are_held, snapshots_are_of_journals,
    snapshots_fit_their_schema, snapshots_never_change, snapshots_tell_last_changes,
    views_fit_their_schema,
};
pub use snapshot::Snapshot;
pub use view::View;
