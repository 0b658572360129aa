//! The token where an operand has to begin.

ghost use Rattle.std.specs.Prelude.{◌≡◌, ◌∷◌, IfOk};
ghost use Rattle.sql_lex.specs.declared.token.TokenKind.{TokenKind};
ghost use Rattle.sql_parse.specs.inner.Expressions as spec;
ghost use Rattle.sql_parse.specs.Kinds.{integer_of};

use crate::expression::frame::Frame;
use crate::expression::levels::NOT_LEVEL;
use crate::expression::reader::{Mode, Move, Reader};
use crate::expression::settle::wanted;
use crate::kinds::integer_of;
use geo_base::{Cell, Duplicate, NoMemory};
use sql_ast::Ast;
use sql_lex::{Keyword, Symbol, TokenKind};
use std::alloc::Global;

// A minus sign: a literal's where an integer follows, and else an operator.
fn signed(reader: &mut Reader, before_integer: bool) -> Result<Move, NoMemory>
    ensures { IfOk result (λ move. spec.moved move reader.new ≡ spec.signed reader.old before_integer) }
{
    if before_integer {
        return Ok(reader.goes(Mode::Negative));
    }
    reader.frames.push(Frame::Minus)?;
    Ok(reader.with_operator(Mode::Operand))
}

// An opening parenthesis.
fn opened(reader: &mut Reader) -> Result<Move, NoMemory>
    ensures { IfOk result (λ move. spec.moved move reader.new ≡
        spec.with_opening Mode.Operand (Frame.Paren ∷ reader.old.frames) reader.old) }
{
    reader.frames.push(Frame::Paren)?;
    Ok(reader.with_opening(Mode::Operand))
}

// NOT, which may not stand inside what is tighter.
fn denied(reader: &mut Reader) -> Result<Move, NoMemory>
    ensures { IfOk result (λ move. spec.moved move reader.new ≡ spec.denied reader.old) }
{
    if wanted(&reader.frames) > NOT_LEVEL {
        return Ok(Move::Refuses);
    }
    reader.frames.push(Frame::Not)?;
    Ok(reader.with_operator(Mode::Operand))
}

// An integer.
fn number(reader: &mut Reader, token: &TokenKind) -> Move
    ensures { spec.moved result reader.new ≡ spec.number reader.old (integer_of token.now) }
{
    match integer_of(token) {
        Some(number) => reader.literal(Ast::Lit(Cell::Int(number as i64))),
        None => Move::Refuses,
    }
}

/// An integer behind its minus sign.
pub(crate) fn negative(reader: &mut Reader, token: &TokenKind) -> Move
    ensures { spec.moved result reader.new ≡ spec.negative reader.old (integer_of token.now) }
{
    match integer_of(token) {
        Some(number) => reader.literal(Ast::Lit(Cell::Int(-(number as i64)))),
        None => Move::Refuses,
    }
}

// A symbol.
#[tactic(auto, unfolding(crate::specs::inner::Expressions::operand_step))]
fn symbol_step(reader: &mut Reader, symbol: Symbol, before_integer: bool) -> Result<Move, NoMemory>
    ensures { IfOk result (λ move. spec.moved move reader.new ≡ spec.operand_step reader.old (TokenKind.Symbol symbol) before_integer) }
{
    match symbol {
        Symbol::Minus => signed(reader, before_integer),
        Symbol::Open => opened(reader),
        _ => Ok(Move::Refuses),
    }
}

// A keyword.
#[tactic(auto, unfolding(crate::specs::inner::Expressions::operand_step))]
fn keyword_step(
    reader: &mut Reader,
    keyword: Keyword,
    before_integer: bool,
) -> Result<Move, NoMemory>
    ensures { IfOk result (λ move. spec.moved move reader.new ≡ spec.operand_step reader.old (TokenKind.Keyword keyword) before_integer) }
{
    match keyword {
        Keyword::KNot => denied(reader),
        Keyword::KNull => Ok(reader.literal(Ast::Lit(Cell::Null))),
        Keyword::KTrue => Ok(reader.literal(Ast::Lit(Cell::Truth(true)))),
        Keyword::KFalse => Ok(reader.literal(Ast::Lit(Cell::Truth(false)))),
        _ => Ok(Move::Refuses),
    }
}

/// The token where an operand has to begin.
#[tactic(auto, unfolding(crate::specs::inner::Expressions::operand_step))]
pub(crate) fn operand_step(
    alloc: Global,
    reader: &mut Reader,
    token: &TokenKind,
    before_integer: bool,
) -> Result<Move, NoMemory>
    ensures { IfOk result (λ move. spec.moved move reader.new ≡ spec.operand_step reader.old token.now before_integer) }
{
    match token {
        TokenKind::Symbol(symbol) => symbol_step(reader, *symbol, before_integer),
        TokenKind::Keyword(keyword) => keyword_step(reader, *keyword, before_integer),
        TokenKind::Text(text) => {
            let text = text.copy(alloc)?;
            Ok(reader.literal(Ast::Lit(Cell::Text(text))))
        }
        TokenKind::Name(name) => {
            let name = name.copy(alloc)?;
            Ok(reader.goes(Mode::Named(name)))
        }
        TokenKind::Int(_) => Ok(number(reader, token)),
    }
}
