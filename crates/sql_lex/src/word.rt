//! Names and keywords.

ghost use Rattle.std.specs.Prelude.{◌≡◌, ◌≤◌, length, slice_index, IfOk, true};
ghost use Rattle.sql_lex.specs.Bytes.{begins_word};
ghost use Rattle.sql_lex.specs.inner.Pieces as spec;

use crate::bytes::word_len;
use crate::keyword::keyword_of;
use crate::token::{Piece, TokenKind};
use geo_base::limits::{MAX_NAME_BYTES, MAX_TEXT_BYTES};
use geo_base::{NoMemory, Txt, TxtFault};
use std::alloc::Global;

/// A text that is short enough.
pub(crate) fn short_text(alloc: Global, text: &str) -> Result<Txt, NoMemory>
    requires { length text.now ≤ MAX_TEXT_BYTES }
    ensures { IfOk result (λ t. t ≡ text.now) }
{
    match Txt::new(alloc, text) {
        Ok(text) => Ok(text),
        Err(TxtFault::NoMemory) => Err(NoMemory),
        Err(TxtFault::TooLong) => unreachable!(),
    }
}

fn word_kind(alloc: Global, word: &str) -> Result<TokenKind, NoMemory>
    requires { length word.now ≤ MAX_NAME_BYTES }
    ensures { IfOk result (λ kind. kind ≡ spec.word_kind word.now) }
{
    match keyword_of(word.as_bytes()) {
        Some(keyword) => Ok(TokenKind::Keyword(keyword)),
        None => Ok(TokenKind::Name(short_text(alloc, word)?)),
    }
}

/// The name or keyword at the front.
pub(crate) fn word_at(alloc: Global, text: &str) -> Result<Option<Piece>, NoMemory>
    requires { begins_word (slice_index text.now 0) ≡ true }
    ensures { IfOk result (λ found. found ≡ spec.word_piece text.now) }
{
    let len = word_len(text.as_bytes());
    if len > MAX_NAME_BYTES {
        return Ok(None);
    }
    let kind = word_kind(alloc, text.split_at(len).0)?;
    Ok(Some(Piece { kind, len }))
}
