//! The bytes that say which kind of change or of packet follows.

/// What a change does to its row.
#[derive(Clone, Copy, Debug, PartialEq, Eq)]
pub enum Kind {
    Put,
    Remove,
    Touch,
}

pub const PUT: u8 = 1;

pub const REMOVE: u8 = 2;

pub const TOUCH: u8 = 3;

pub const BATCH: u8 = 1;

pub const FETCH: u8 = 2;
