//! Why a text is no statement.

/// Why a text is no statement. A place is a number of bytes before it.
#[derive(Clone, Copy, Debug, PartialEq, Eq)]
pub enum ParseFault {
    /// The place of the first byte where a token would have to begin and none does.
    BadText(u32),
    /// The place of the first token with which the tokens up to it begin no statement, or the text's
    /// length where they all begin one and are none.
    BadSyntax(u32),
    /// The place of the first operator or opening parenthesis of one expression past the 400th.
    TooDeep(u32),
    /// There was no memory for the tokens or for the statement. It says nothing of the text.
    NoMemory,
}
