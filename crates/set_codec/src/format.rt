//! The formats of batches, and the marks that they have.

/// The format of the bytes of a batch.
#[derive(Clone, Copy, Debug, PartialEq, Eq)]
pub enum Format {
    /// The older one, which is read: its changes put and remove rows.
    Ggb1,
    /// The one that is written, and read: its changes touch rows too.
    Ggb2,
}

/// What a batch in GGB1 begins with.
pub const GGB1: [u8; 4] = *b"GGB1";

/// What a batch in GGB2 begins with.
pub const GGB2: [u8; 4] = *b"GGB2";
