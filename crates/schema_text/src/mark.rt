//! What tokens are in the lines that declare tables and indexes.
ghost use Rattle.std.specs.Prelude.{◌≡◌, ◌<◌, ◌^◌, length, map, IfOk};
ghost use Rattle.std.specs.Option.{option_map};
ghost use Rattle.schema_text.specs.Marks as spec;
ghost use Rattle.schema_text.specs.inner.Marks as inner;

use geo_base::{NoMemory, Txt};
use sql_lex::{Keyword, LexFault, Symbol, Token, TokenKind, lex};
use std::alloc::Global;

/// What a token is in a line that declares a table or an index.
#[derive(Drop)]
pub(crate) enum Mark {
    /// A name.
    Name(Txt),
    /// A number, as in `TEXT(20)`.
    Number(i64),
    /// `(`
    Open,
    /// `)`
    Close,
    /// `,`
    Comma,
    /// `INT`
    Int,
    /// `TEXT`
    Text,
    /// `BOOL`
    Bool,
    /// `NOT`
    Not,
    /// `NULL`
    Null,
    /// `KEY`
    Key,
    /// Any other token.
    Other,
}

fn keyword_mark(keyword: Keyword) -> Mark
    ensures { result ≡ spec.keyword_mark keyword }
{
    match keyword {
        Keyword::KInt => Mark::Int,
        Keyword::KText => Mark::Text,
        Keyword::KBool => Mark::Bool,
        Keyword::KNot => Mark::Not,
        Keyword::KNull => Mark::Null,
        Keyword::KKey => Mark::Key,
        _ => Mark::Other,
    }
}

fn symbol_mark(symbol: Symbol) -> Mark
    ensures { result ≡ spec.symbol_mark symbol }
{
    match symbol {
        Symbol::Open => Mark::Open,
        Symbol::Close => Mark::Close,
        Symbol::Comma => Mark::Comma,
        _ => Mark::Other,
    }
}

fn mark_of(kind: TokenKind) -> Mark
    ensures { result ≡ spec.mark_of kind }
{
    match kind {
        TokenKind::Name(name) => Mark::Name(name),
        TokenKind::Keyword(keyword) => keyword_mark(keyword),
        TokenKind::Int(value) => Mark::Number(value),
        TokenKind::Text(_) => Mark::Other,
        TokenKind::Symbol(symbol) => symbol_mark(symbol),
    }
}

fn each_mark(alloc: Global, tokens: Vec<Token>) -> Result<Vec<Mark>, NoMemory>
    ensures { IfOk result (λ marks. marks.items ≡ map (λ token. spec.mark_of token.kind) tokens.items) }
{
    let mut marks = Vec::with_capacity(alloc, tokens.len())?;
    for token in tokens {
        marks.push(mark_of(token.kind))?;
    }
    Ok(marks)
}

/// What the tokens of the text are, if it is cut into tokens.
#[tactic(auto, unfolding(crate::specs::inner::Marks::marks_of))]
pub(crate) fn marks_of(alloc: Global, text: &str) -> Result<Option<Vec<Mark>>, NoMemory>
    requires { length text.now < 2 ^ 32 }
    ensures { IfOk result (λ found. option_map (λ marks. marks.items) found ≡ inner.marks_of text.now) }
{
    match lex(alloc, text) {
        Ok(tokens) => Ok(Some(each_mark(alloc, tokens)?)),
        Err(LexFault::BadText(_)) => Ok(None),
        Err(LexFault::NoMemory) => Err(NoMemory),
    }
}

/// The mark is a comma.
pub(crate) fn is_comma(mark: &Mark) -> bool
    ensures { result ≡ inner.is_comma mark.now }
{
    matches!(mark, Mark::Comma)
}

/// The mark is a closing parenthesis.
pub(crate) fn is_close(mark: &Mark) -> bool
    ensures { result ≡ inner.is_close mark.now }
{
    matches!(mark, Mark::Close)
}
