//! The token behind an operand, or behind a part of one.
//!
//! A tree that is of no use any more is dropped by a call. Where it is dropped in place, as at the end of its
//! block, each form of a tree is a branch that the checker has to follow.

ghost use Rattle.std.specs.Prelude.{◌≡◌, IfOk};
ghost use Rattle.sql_parse.specs.inner.Expressions as spec;
ghost use Rattle.sql_parse.specs.inner.Levels as levels;

use crate::expression::frame::Frame;
use crate::expression::levels::{SUM_LEVEL, TEST_LEVEL, WHOLE_LEVEL, left_of, level_of};
use crate::expression::reader::{Mode, Move, Reader};
use crate::expression::settle::settle;
use crate::kinds::{is_keyword, is_symbol, operator_of};
use geo_base::{Duplicate, NoMemory, Txt};
use sql_ast::{Ast, AstOp, ColRef};
use sql_lex::{Keyword, Symbol, TokenKind};
use sqlite_items::Boxed;
use std::alloc::Global;

// An operator between two operands.
fn infix_step(
    alloc: Global,
    reader: &mut Reader,
    operator: AstOp,
    value: Ast,
    level: u8,
) -> Result<Move, NoMemory>
    ensures { IfOk result (λ move. spec.moved move reader.new ≡
        spec.infix_step reader.old operator (spec.settled (levels.level_of operator) value level reader.old.frames)) }
{
    let (left, tight) = settle(alloc, level_of(operator), value, level, &mut reader.frames)?;
    if tight < left_of(operator) {
        drop(left);
        return Ok(Move::Refuses);
    }
    reader.frames.push(Frame::Left(operator, left))?;
    Ok(reader.with_operator(Mode::Operand))
}

// IS.
fn is_step(alloc: Global, reader: &mut Reader, value: Ast, level: u8) -> Result<Move, NoMemory>
    ensures { IfOk result (λ move. spec.moved move reader.new ≡
        spec.is_step reader.old (spec.settled levels.test_level value level reader.old.frames)) }
{
    let (operand, tight) = settle(alloc, TEST_LEVEL, value, level, &mut reader.frames)?;
    if tight < SUM_LEVEL {
        drop(operand);
        return Ok(Move::Refuses);
    }
    Ok(reader.with_operator(Mode::Is(operand)))
}

// A closing parenthesis, which ends the expression where none is open.
fn close_step(alloc: Global, reader: &mut Reader, value: Ast, level: u8) -> Result<Move, NoMemory>
    ensures { IfOk result (λ move. spec.moved move reader.new ≡
        spec.close_step reader.old (spec.settled 0 value level reader.old.frames) (spec.settled 0 value level reader.old.frames).frames) }
{
    let (inner, _) = settle(alloc, 0, value, level, &mut reader.frames)?;
    match reader.frames.top() {
        None => Ok(Move::Ends(inner)),
        Some(_) => {
            reader.frames.discard();
            Ok(reader.goes(Mode::Complete(inner, WHOLE_LEVEL)))
        }
    }
}

// A token that belongs to no expression.
fn end_step(alloc: Global, reader: &mut Reader, value: Ast, level: u8) -> Result<Move, NoMemory>
    ensures { IfOk result (λ move. spec.moved move reader.new ≡
        spec.end_step (spec.settled 0 value level reader.old.frames) (spec.settled 0 value level reader.old.frames).frames) }
{
    let (inner, _) = settle(alloc, 0, value, level, &mut reader.frames)?;
    match reader.frames.top() {
        None => Ok(Move::Ends(inner)),
        Some(_) => {
            drop(inner);
            Ok(Move::Refuses)
        }
    }
}

/// The token behind a whole operand.
#[tactic(auto, unfolding(crate::specs::inner::Expressions::complete_step))]
pub(crate) fn complete_step(
    alloc: Global,
    reader: &mut Reader,
    value: Ast,
    level: u8,
    token: &TokenKind,
) -> Result<Move, NoMemory>
    ensures { IfOk result (λ move. spec.moved move reader.new ≡ spec.complete_step reader.old value level token.now) }
{
    if let Some(operator) = operator_of(token) {
        return infix_step(alloc, reader, operator, value, level);
    }
    if is_keyword(Keyword::KIs, token) {
        is_step(alloc, reader, value, level)
    } else if is_symbol(Symbol::Close, token) {
        close_step(alloc, reader, value, level)
    } else {
        end_step(alloc, reader, value, level)
    }
}

/// The column of the name.
pub(crate) fn column(table: Option<Txt>, name: Txt) -> Ast
    ensures { result ≡ spec.column table name }
{
    Ast::Column(ColRef { table, name })
}

/// The token behind a name.
pub(crate) fn named_step(
    alloc: Global,
    reader: &mut Reader,
    name: Txt,
    token: &TokenKind,
) -> Result<Move, NoMemory>
    ensures { IfOk result (λ move. spec.moved move reader.new ≡ spec.named_step reader.old name token.now) }
{
    if is_symbol(Symbol::Dot, token) {
        return Ok(reader.goes(Mode::Qualified(name)));
    }
    complete_step(alloc, reader, column(None, name), WHOLE_LEVEL, token)
}

/// The token behind a name and a dot.
pub(crate) fn qualified_step(
    alloc: Global,
    reader: &mut Reader,
    table: Txt,
    token: &TokenKind,
) -> Result<Move, NoMemory>
    ensures { IfOk result (λ move. spec.moved move reader.new ≡ spec.qualified_step reader.old table token.now) }
{
    match token {
        TokenKind::Name(name) => {
            let name = name.copy(alloc)?;
            Ok(reader.literal(column(Some(table), name)))
        }
        _ => Ok(Move::Refuses),
    }
}

// The test of the value for NULL.
fn null_test(alloc: Global, reader: &mut Reader, value: Ast, is_not: bool) -> Result<Move, NoMemory>
    ensures { IfOk result (λ move. spec.moved move reader.new ≡ spec.null_test reader.old value is_not) }
{
    let value = Boxed::new(alloc, value)?;
    Ok(reader.goes(Mode::Complete(Ast::IsNull(value, is_not), TEST_LEVEL)))
}

/// The token behind IS.
pub(crate) fn is_behind_step(
    alloc: Global,
    reader: &mut Reader,
    value: Ast,
    token: &TokenKind,
) -> Result<Move, NoMemory>
    ensures { IfOk result (λ move. spec.moved move reader.new ≡ spec.is_behind_step reader.old value token.now) }
{
    if is_keyword(Keyword::KNull, token) {
        null_test(alloc, reader, value, false)
    } else if is_keyword(Keyword::KNot, token) {
        Ok(reader.goes(Mode::IsNot(value)))
    } else {
        drop(value);
        Ok(Move::Refuses)
    }
}

/// The token behind IS NOT.
pub(crate) fn is_not_step(
    alloc: Global,
    reader: &mut Reader,
    value: Ast,
    token: &TokenKind,
) -> Result<Move, NoMemory>
    ensures { IfOk result (λ move. spec.moved move reader.new ≡ spec.is_not_step reader.old value token.now) }
{
    if is_keyword(Keyword::KNull, token) {
        null_test(alloc, reader, value, true)
    } else {
        drop(value);
        Ok(Move::Refuses)
    }
}
