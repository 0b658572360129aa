//! Texts between quotes.

ghost use Rattle.std.specs.Prelude.{◌≡◌, ◌≤◌, ◌<◌, length, slice_index, string_bytes, IfOk, IfSome};
ghost use Rattle.std.specs.Option.{option_map};
ghost use Rattle.sql_lex.specs.inner.Quoted as spec;
ghost use Rattle.sql_lex.specs.inner.Pieces.{text_piece};

use crate::bytes::{byte_at, plain_len};
use crate::token::{Piece, TokenKind};
use crate::word::short_text;
use geo_base::NoMemory;
use geo_base::limits::MAX_TEXT_BYTES;
use std::alloc::Global;

/// The content of a text whose opening quote is left out, and how many bytes come up to and with its
/// closing quote. Nothing where none closes it or where it is too long.
fn content_of(alloc: Global, quoted: &str) -> Result<Option<(String, usize)>, NoMemory>
    ensures content { IfOk result (λ found. option_map (λ t. (string_bytes t.0, t.1)) found ≡ spec.short_content quoted.now) }
    ensures within { IfOk result (λ found. IfSome found (λ t. (length (string_bytes t.0) ≤ MAX_TEXT_BYTES) × (t.1 ≤ length quoted.now))) }
{
    let mut content = String::new(alloc);
    let mut rest = quoted;
    loop {
        let (plain, from_quote) = rest.split_at(plain_len(rest.as_bytes()));
        if from_quote.is_empty() {
            return Ok(None);
        }
        if content.len() + plain.len() > MAX_TEXT_BYTES {
            return Ok(None);
        }
        content.push_str(plain)?;
        rest = from_quote.split_at(1).1;
        if byte_at(rest.as_bytes(), 0) != b'\'' {
            return Ok(Some((content, quoted.len() - rest.len())));
        }
        content.push_str("'")?;
        rest = rest.split_at(1).1;
    }
}

/// The quoted text at the front.
pub(crate) fn text_at(alloc: Global, text: &str) -> Result<Option<Piece>, NoMemory>
    requires { slice_index text.now 0 ≡ 39 }
    ensures { IfOk result (λ found. found ≡ text_piece text.now) }
{
    let quoted = text.split_at(1).1;
    let Some((content, len)) = content_of(alloc, quoted)? else {
        return Ok(None);
    };
    Ok(Some(Piece {
        kind: TokenKind::Text(short_text(alloc, content.as_str())?),
        len: len + 1,
    }))
}
