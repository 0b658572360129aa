//! What a token is, by its kind.

ghost use Rattle.std.specs.Prelude.{◌≡◌, ◌<◌, ◌^◌, IfSome};
ghost use Rattle.sql_parse.specs.Kinds as grammar;
ghost use Rattle.sql_parse.specs.inner.Kinds as spec;

use sql_ast::AstOp;
use sql_lex::{Keyword, Symbol, TokenKind};

/// Whether the token is the keyword.
pub(crate) fn is_keyword(keyword: Keyword, token: &TokenKind) -> bool
    ensures { result ≡ spec.is_keyword keyword token.now }
{
    match token {
        TokenKind::Keyword(other) => *other == keyword,
        _ => false,
    }
}

/// Whether the token is the symbol.
pub(crate) fn is_symbol(symbol: Symbol, token: &TokenKind) -> bool
    ensures { result ≡ spec.is_symbol symbol token.now }
{
    match token {
        TokenKind::Symbol(other) => *other == symbol,
        _ => false,
    }
}

/// The number that an integer is, which is below 2 ^ 63.
pub(crate) fn integer_of(token: &TokenKind) -> Option<u64>
    ensures value { result ≡ grammar.integer_of token.now }
    ensures fits { IfSome result (λ n. n < 2 ^ 63) }
{
    match token {
        TokenKind::Int(number) if *number >= 0 => Some(*number as u64),
        _ => None,
    }
}

/// The operator between two operands that the token is.
pub(crate) fn operator_of(token: &TokenKind) -> Option<AstOp>
    ensures { result ≡ spec.operator_of token.now }
{
    match token {
        TokenKind::Keyword(Keyword::KOr) => Some(AstOp::Or),
        TokenKind::Keyword(Keyword::KAnd) => Some(AstOp::And),
        TokenKind::Symbol(symbol) => symbol_operator(*symbol),
        _ => None,
    }
}

// The operator that the symbol is.
fn symbol_operator(symbol: Symbol) -> Option<AstOp>
    ensures { result ≡ spec.operator_of (TokenKind.Symbol symbol) }
{
    match symbol {
        Symbol::Equal => Some(AstOp::Equal),
        Symbol::Differ => Some(AstOp::Differ),
        Symbol::Less => Some(AstOp::Less),
        Symbol::LessEqual => Some(AstOp::LessEqual),
        Symbol::More => Some(AstOp::More),
        Symbol::MoreEqual => Some(AstOp::MoreEqual),
        Symbol::Plus => Some(AstOp::Plus),
        Symbol::Minus => Some(AstOp::Minus),
        Symbol::Star => Some(AstOp::Times),
        Symbol::Slash => Some(AstOp::Divide),
        Symbol::Open | Symbol::Close | Symbol::Comma | Symbol::Dot => None,
    }
}
