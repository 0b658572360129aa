//! Tokens, and why a text has none.

ghost use Rattle.std.specs.Prelude.{◌≡◌};
ghost use Rattle.sql_lex.specs.declared.token.LexFault.TheVariants as fault;

use crate::keyword::Keyword;
use crate::symbol::Symbol;
use geo_base::{NoMemory, Txt};
use std::alloc::AllocFailed;

/// What a token means.
#[derive(Debug, Drop, PartialEq, Eq)]
pub enum TokenKind {
    /// A word that is no keyword, as it is written.
    Name(Txt),
    Keyword(Keyword),
    /// From 0 on: a minus sign is a token of its own.
    Int(i64),
    /// The content of a quoted text, each doubled quote as one.
    Text(Txt),
    Symbol(Symbol),
}

/// A token, and the bytes of the text that spell it: from the place `from` up to the place `to`.
#[derive(Debug, Drop, PartialEq, Eq)]
pub struct Token {
    pub kind: TokenKind,
    pub from: u32,
    pub to: u32,
}

/// A token at the front of a text, and how many bytes it takes.
#[derive(Debug, Drop)]
pub(crate) struct Piece {
    pub kind: TokenKind,
    pub len: usize,
}

/// Why a text was not cut into tokens.
#[derive(Clone, Copy, Debug, PartialEq, Eq)]
pub enum LexFault {
    /// The place of the first byte where a token would have to begin and none does.
    BadText(u32),
    /// There was no memory for the tokens. It says nothing of the text.
    NoMemory,
}

impl From<NoMemory> for LexFault {
    ghost from_gives = { λ _ e. e ≡ fault.NoMemory };

    fn from(_e: NoMemory) -> LexFault {
        LexFault::NoMemory
    }
}

impl<T: Drop> From<AllocFailed<T>> for LexFault {
    ghost from_gives = { λ _ e. e ≡ fault.NoMemory };

    fn from(_e: AllocFailed<T>) -> LexFault {
        LexFault::NoMemory
    }
}
