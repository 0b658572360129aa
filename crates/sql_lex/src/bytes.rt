//! The kinds of byte that tokens are made of.

ghost use Rattle.std.specs.Prelude.{◌≡◌, ◌≤◌, ◌<◌, length, slice_index};
ghost use Rattle.std.specs.List.{prefix_len};
ghost use Rattle.std.specs.Char.{is_ascii_digit};
ghost use Rattle.sql_lex.specs.Bytes as spec;
ghost use Rattle.sql_lex.specs.inner.Quoted.{is_plain};

/// A space or a tab.
#[tactic(auto, unfolding(crate::specs::Bytes::is_blank))]
pub(crate) fn is_blank(b: u8) -> bool
    ensures { result ≡ spec.is_blank b }
{
    b == b' ' || b == b'\t'
}

/// An ASCII letter or `_`.
#[tactic(auto, unfolding(crate::specs::Bytes::begins_word))]
pub(crate) fn begins_word(b: u8) -> bool
    ensures { result ≡ spec.begins_word b }
{
    b.is_ascii_alphabetic() || b == b'_'
}

/// An ASCII letter, a digit or `_`.
#[tactic(auto, unfolding(crate::specs::Bytes::is_in_word))]
fn is_in_word(b: u8) -> bool
    ensures { result ≡ spec.is_in_word b }
{
    b.is_ascii_alphanumeric() || b == b'_'
}

/// The byte at a place, and 0 past the end.
pub(crate) fn byte_at(bytes: &[u8], at: usize) -> u8
    ensures { result ≡ slice_index bytes.now at }
{
    if at < bytes.len() { bytes[at] } else { 0 }
}

/// How many bytes at the front may stand in a word.
pub(crate) fn word_len(bytes: &[u8]) -> usize
    ensures value { result ≡ prefix_len spec.is_in_word bytes.now }
    ensures within { result ≤ length bytes.now }
{
    let mut len = 0;
    while len < bytes.len() && is_in_word(bytes[len]) {
        len += 1;
    }
    len
}

/// How many bytes at the front are digits.
pub(crate) fn digits_len(bytes: &[u8]) -> usize
    ensures value { result ≡ prefix_len is_ascii_digit bytes.now }
    ensures within { result ≤ length bytes.now }
{
    let mut len = 0;
    while len < bytes.len() && bytes[len].is_ascii_digit() {
        len += 1;
    }
    len
}

/// How many bytes there are before the first quote.
pub(crate) fn plain_len(bytes: &[u8]) -> usize
    ensures value { result ≡ prefix_len is_plain bytes.now }
    ensures within { result ≤ length bytes.now }
{
    let mut len = 0;
    while len < bytes.len() && bytes[len] != b'\'' {
        len += 1;
    }
    len
}
