//! Types.

/// The type of a column or of an expression.
#[derive(Clone, Copy, Debug, PartialEq, Eq)]
pub enum ValueType {
    Int,
    Text,
    Truth,
    /// That of the literal NULL, which stands for each of the others.
    Any,
}
