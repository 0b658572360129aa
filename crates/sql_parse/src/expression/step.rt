//! What a token does.

ghost use Rattle.std.specs.Prelude.{◌≡◌, IfOk};
ghost use Rattle.sql_parse.specs.inner.Expressions as spec;

use crate::expression::behind::{
    column, complete_step, is_behind_step, is_not_step, named_step, qualified_step,
};
use crate::expression::levels::WHOLE_LEVEL;
use crate::expression::operand::{negative, operand_step};
use crate::expression::reader::{Mode, Move, Reader};
use crate::expression::settle::whole;
use geo_base::NoMemory;
use sql_ast::Ast;
use sql_lex::TokenKind;
use std::alloc::Global;

/// What the token does, where it is told whether an integer follows.
#[tactic(auto, unfolding(crate::specs::inner::Expressions::step))]
pub(crate) fn step(
    alloc: Global,
    reader: &mut Reader,
    token: &TokenKind,
    before_integer: bool,
) -> Result<Move, NoMemory>
    ensures { IfOk result (λ move. spec.moved move reader.new ≡ spec.step reader.old token.now before_integer) }
{
    match std::mem::replace(&mut reader.mode, Mode::Operand) {
        Mode::Operand => operand_step(alloc, reader, token, before_integer),
        Mode::Negative => Ok(negative(reader, token)),
        Mode::Named(name) => named_step(alloc, reader, name, token),
        Mode::Qualified(table) => qualified_step(alloc, reader, table, token),
        Mode::Complete(value, level) => complete_step(alloc, reader, value, level, token),
        Mode::Is(value) => is_behind_step(alloc, reader, value, token),
        Mode::IsNot(value) => is_not_step(alloc, reader, value, token),
    }
}

/// The expression that was read, where all tokens were.
#[tactic(auto, unfolding(crate::specs::inner::Expressions::finished))]
pub(crate) fn finished(alloc: Global, reader: &mut Reader) -> Result<Option<Ast>, NoMemory>
    ensures { IfOk result (λ value. value ≡ spec.finished reader.old) }
{
    match std::mem::replace(&mut reader.mode, Mode::Operand) {
        Mode::Complete(value, level) => whole(alloc, value, level, &mut reader.frames),
        Mode::Named(name) => whole(alloc, column(None, name), WHOLE_LEVEL, &mut reader.frames),
        mode => {
            drop(mode);
            Ok(None)
        }
    }
}
