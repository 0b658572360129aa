//! What closes what is open.

ghost use Rattle.std.specs.Prelude.{◌≡◌, ℕ, ◌∷◌, true, IfOk, MatchOption};
ghost use Rattle.sql_ast.specs.declared.ast.Ast.{Ast};
ghost use Rattle.sql_parse.specs.inner.Expressions as spec;

use crate::expression::frame::Frame;
use crate::expression::levels::{NOT_LEVEL, SIGN_LEVEL, level_of};
use crate::stack::Stack;
use geo_base::NoMemory;
use sql_ast::Ast;
use std::alloc::Global;

// What is open innermost, where that closes.
fn pop_closed(frames: &mut Stack<Frame>, bound: u8) -> Option<Frame>
    ensures { MatchOption result
        ((frames.new ≡ frames.old) × ((value : Ast) (level : ℕ) →
        spec.settled bound value level frames.old ≡ record { value = value; level = level; frames = frames.old }))
        (λ frame. (frames.old ≡ frame ∷ frames.new) × (spec.is_closed bound frame ≡ true)) }
{
    match frames.top() {
        Some(frame) if frame.is_closed(bound) => frames.pop(),
        _ => None,
    }
}

/// Closes all that something behind the operand closes, where that holds together at the level `bound`.
/// Answers what the operand has become, and how tight that holds together.
pub(crate) fn settle(
    alloc: Global,
    bound: u8,
    operand: Ast,
    operand_level: u8,
    frames: &mut Stack<Frame>,
) -> Result<(Ast, u8), NoMemory>
    ensures { IfOk result (λ held. spec.settled bound operand operand_level frames.old ≡
        record { value = held.0; level = held.1; frames = frames.new }) }
{
    let mut value = operand;
    let mut level = operand_level;
    while let Some(frame) = pop_closed(frames, bound) {
        level = frame.level();
        value = frame.applied(alloc, value)?;
    }
    Ok((value, level))
}

/// The expression, where the operand ends it and no parenthesis is open.
pub(crate) fn whole(
    alloc: Global,
    operand: Ast,
    operand_level: u8,
    frames: &mut Stack<Frame>,
) -> Result<Option<Ast>, NoMemory>
    ensures { IfOk result (λ value. value ≡ spec.whole operand operand_level frames.old) }
{
    let (value, _) = settle(alloc, 0, operand, operand_level, frames)?;
    match frames.top() {
        None => Ok(Some(value)),
        Some(_) => {
            drop(value);
            Ok(None)
        }
    }
}

/// How tight an operand has to be for what is open around it.
pub(crate) fn wanted(frames: &Stack<Frame>) -> u8
    ensures { result ≡ spec.wanted frames.now }
{
    match frames.top() {
        None => 0,
        Some(Frame::Paren) => 0,
        Some(Frame::Minus) => SIGN_LEVEL,
        Some(Frame::Not) => NOT_LEVEL,
        Some(Frame::Left(operator, _)) => level_of(*operator) + 1,
    }
}
