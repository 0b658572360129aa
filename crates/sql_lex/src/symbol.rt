//! Symbols, of which the longest one is taken.

ghost use Rattle.std.specs.Prelude.{◌≡◌, ◌<◌, length, slice_index};
ghost use Rattle.sql_lex.specs.Symbols.{symbol_bytes};
ghost use Rattle.sql_lex.specs.inner.Pieces.{symbol_piece};
ghost use Rattle.sql_lex.specs.inner.Symbols as spec;

use crate::bytes::byte_at;
use crate::token::{Piece, TokenKind};

/// `( ) , . * + - / = <> < <= > >=`, in this order.
#[derive(Clone, Copy, Debug, PartialEq, Eq)]
pub enum Symbol {
    Open,
    Close,
    Comma,
    Dot,
    Star,
    Plus,
    Minus,
    Slash,
    Equal,
    Differ,
    Less,
    LessEqual,
    More,
    MoreEqual,
}

fn after_less(next: u8) -> Symbol
    ensures { result ≡ spec.after_less next }
{
    match next {
        b'>' => Symbol::Differ,
        b'=' => Symbol::LessEqual,
        _ => Symbol::Less,
    }
}

fn after_more(next: u8) -> Symbol
    ensures { result ≡ spec.after_more next }
{
    match next {
        b'=' => Symbol::MoreEqual,
        _ => Symbol::More,
    }
}

fn single(first: u8) -> Option<Symbol>
    ensures { result ≡ spec.single first }
{
    match first {
        b'(' => Some(Symbol::Open),
        b')' => Some(Symbol::Close),
        b',' => Some(Symbol::Comma),
        b'.' => Some(Symbol::Dot),
        b'*' => Some(Symbol::Star),
        b'+' => Some(Symbol::Plus),
        b'-' => Some(Symbol::Minus),
        b'/' => Some(Symbol::Slash),
        b'=' => Some(Symbol::Equal),
        _ => None,
    }
}

fn symbol_of(first: u8, next: u8) -> Option<Symbol>
    ensures { result ≡ spec.symbol_of first next }
{
    match first {
        b'<' => Some(after_less(next)),
        b'>' => Some(after_more(next)),
        _ => single(first),
    }
}

fn symbol_len(symbol: Symbol) -> usize
    ensures { result ≡ length (symbol_bytes symbol) }
{
    match symbol {
        Symbol::Differ | Symbol::LessEqual | Symbol::MoreEqual => 2,
        _ => 1,
    }
}

/// The symbol at the front.
pub(crate) fn symbol_at(bytes: &[u8]) -> Option<Piece>
    ensures { result ≡ symbol_piece bytes.now }
{
    let symbol = symbol_of(byte_at(bytes, 0), byte_at(bytes, 1))?;
    Some(Piece {
        kind: TokenKind::Symbol(symbol),
        len: symbol_len(symbol),
    })
}
