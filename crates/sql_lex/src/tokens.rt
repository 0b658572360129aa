//! Cuts a text into its tokens.

ghost use Rattle.std.specs.Prelude.{◌≡◌, ◌⊎◌, ◌<◌, ◌^◌, length, IfOk, IfErr};
ghost use Rattle.geo_base.specs.Results.{Gives, Reads, Refuses};
ghost use Rattle.sql_lex.specs.inner.Pieces as spec;
ghost use Rattle.sql_lex.specs.Grammar.{AreTokensOf, AreSlicesFrom, IsLexFault};
ghost use Rattle.sql_lex.specs.inner.Tokens.{tokens_of};

use crate::bytes::{begins_word, is_blank};
use crate::integer::integer_at;
use crate::quoted::text_at;
use crate::symbol::symbol_at;
use crate::token::{LexFault, Piece, Token};
use crate::word::word_at;
use geo_base::NoMemory;
use std::alloc::Global;

/// The token at the front.
#[tactic(auto, unfolding(crate::specs::inner::Pieces::piece))]
fn piece_at(alloc: Global, text: &str) -> Result<Option<Piece>, NoMemory>
    requires { 0 < length text.now }
    ensures { IfOk result (λ found. found ≡ spec.piece text.now) }
{
    let bytes = text.as_bytes();
    let first = bytes[0];
    if begins_word(first) {
        word_at(alloc, text)
    } else if first.is_ascii_digit() {
        Ok(integer_at(text))
    } else if first == b'\'' {
        text_at(alloc, text)
    } else {
        Ok(symbol_at(bytes))
    }
}

// The tokens of a text.
fn cut_text(alloc: Global, text: &str) -> Result<Vec<Token>, LexFault>
    requires { length text.now < 2 ^ 32 }
    ensures { Gives LexFault.NoMemory (λ tokens. tokens.items) result (tokens_of text.now) }
{
    let mut tokens = Vec::new(alloc);
    let mut rest = text;
    while !rest.is_empty() {
        if is_blank(rest.as_bytes()[0]) {
            rest = rest.split_at(1).1;
            continue;
        }
        let at = text.len() - rest.len();
        let found = match piece_at(alloc, rest)? {
            Some(found) => found,
            None => return Err(LexFault::BadText(at as u32)),
        };
        rest = rest.split_at(found.len).1;
        let to = (at + found.len) as u32;
        tokens.push(Token {
            kind: found.kind,
            from: at as u32,
            to,
        })?;
    }
    Ok(tokens)
}

/// Cuts a text into its tokens, the one way to do so. The fault is at the first place where a token
/// would have to begin and none does. Takes time that grows as the text's length.
pub fn lex(alloc: Global, text: &str) -> Result<Vec<Token>, LexFault>
    requires { length text.now < 2 ^ 32 }
    ensures cut { IfOk result (λ tokens. AreTokensOf tokens.items text.now) }
    ensures slices { IfOk result (λ tokens. AreSlicesFrom 0 text.now tokens.items) }
    ensures only { Reads LexFault.NoMemory (λ tokens. tokens.items) result (λ tokens. AreTokensOf tokens text.now) }
    ensures fault { IfErr result (λ fault. (fault ≡ LexFault.NoMemory) ⊎ IsLexFault text.now fault) }
    ensures refused { Refuses LexFault.NoMemory result (IsLexFault text.now) }
{
    cut_text(alloc, text)
}
