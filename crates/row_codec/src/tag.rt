//! The first byte of a cell's spelling.

pub const NULL: u8 = 0;

pub const INT: u8 = 1;

pub const TEXT: u8 = 2;

pub const FALSE: u8 = 3;

pub const TRUE: u8 = 4;
