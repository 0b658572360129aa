//! Integers.

ghost use Rattle.std.specs.Prelude.{◌≡◌, ◌<◌, length, slice_index, true};
ghost use Rattle.std.specs.Char.{is_ascii_digit};
ghost use Rattle.std.specs.List.{list_all};
ghost use Rattle.sql_lex.specs.inner.Pieces as spec;

use crate::bytes::{begins_word, byte_at, digits_len};
use crate::token::{Piece, TokenKind};

fn value_of(digits: &str) -> Option<i64>
    requires some { 0 < length digits.now }
    requires digits { list_all is_ascii_digit digits.now ≡ true }
    ensures { result ≡ spec.value_of digits.now }
{
    digits.parse::<i64>().ok()
}

/// The integer at the front.
pub(crate) fn integer_at(text: &str) -> Option<Piece>
    requires { is_ascii_digit (slice_index text.now 0) ≡ true }
    ensures { result ≡ spec.integer_piece text.now }
{
    let bytes = text.as_bytes();
    let len = digits_len(bytes);
    if begins_word(byte_at(bytes, len)) {
        return None;
    }
    let value = value_of(text.split_at(len).0)?;
    Some(Piece {
        kind: TokenKind::Int(value),
        len,
    })
}
