//! What is open around an operand.

ghost use Rattle.std.specs.Prelude.{◌≡◌, IfOk};
ghost use Rattle.sql_parse.specs.inner.Expressions as spec;

use crate::expression::levels::{NOT_LEVEL, SIGN_LEVEL, WHOLE_LEVEL, level_of};
use geo_base::NoMemory;
use sql_ast::{Ast, AstOp};
use sqlite_items::Boxed;
use std::alloc::Global;

/// What waits for the operand that is read next.
#[derive(Drop)]
pub(crate) enum Frame {
    /// An opening parenthesis.
    Paren,
    /// A minus sign.
    Minus,
    /// NOT.
    Not,
    /// An operator with its left operand.
    Left(AstOp, Ast),
}

impl Frame {
    /// How tight it holds together with its operand.
    pub(crate) fn level(&self) -> u8
        ensures { result ≡ spec.frame_level self.now }
    {
        match self {
            Frame::Paren => WHOLE_LEVEL,
            Frame::Minus => SIGN_LEVEL,
            Frame::Not => NOT_LEVEL,
            Frame::Left(operator, _) => level_of(*operator),
        }
    }

    /// Whether what comes behind its operand, and holds together at this level, closes it.
    pub(crate) fn is_closed(&self, bound: u8) -> bool
        ensures { result ≡ spec.is_closed bound self.now }
    {
        match self {
            Frame::Paren => false,
            Frame::Minus => bound <= SIGN_LEVEL,
            Frame::Not => bound <= NOT_LEVEL,
            Frame::Left(operator, _) => bound <= level_of(*operator),
        }
    }

    /// It with its operand.
    pub(crate) fn applied(self, alloc: Global, operand: Ast) -> Result<Ast, NoMemory>
        ensures { IfOk result (λ value. value ≡ spec.applied self operand) }
    {
        match self {
            Frame::Paren => Ok(operand),
            Frame::Minus => Ok(Ast::Neg(Boxed::new(alloc, operand)?)),
            Frame::Not => Ok(Ast::Not(Boxed::new(alloc, operand)?)),
            Frame::Left(operator, left) => {
                let left = Boxed::new(alloc, left);
                let operand = Boxed::new(alloc, operand);
                Ok(Ast::Binary(operator, left?, operand?))
            }
        }
    }
}
