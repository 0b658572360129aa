//! How far an expression is read.

ghost use Rattle.std.specs.Prelude.{◌≡◌};
ghost use Rattle.sql_parse.specs.inner.Expressions as spec;

use crate::expression::frame::Frame;
use crate::expression::levels::WHOLE_LEVEL;
use crate::limits::{MAX_OPENINGS, MAX_OPERATORS};
use crate::stack::Stack;
use geo_base::Txt;
use sql_ast::Ast;
use std::alloc::Global;

/// What was read last.
#[derive(Drop)]
pub(crate) enum Mode {
    /// An operand has to begin.
    Operand,
    /// A minus sign, which an integer follows.
    Negative,
    /// A name: a column's, or that of its table.
    Named(Txt),
    /// The name of a column's table, and a dot.
    Qualified(Txt),
    /// An operand is whole: its value, and how tight its parts hold together.
    Complete(Ast, u8),
    /// IS, behind an operand.
    Is(Ast),
    /// IS NOT, behind an operand.
    IsNot(Ast),
}

/// An expression that is read up to some token.
#[derive(Drop)]
pub(crate) struct Reader {
    pub(crate) mode: Mode,
    /// What is open around the next operand.
    pub(crate) frames: Stack<Frame>,
    /// How many operators were read.
    pub(crate) operators: u32,
    /// How many opening parentheses were read.
    pub(crate) openings: u32,
}

/// What a token does to the reader.
#[derive(Drop)]
pub(crate) enum Move {
    /// It belongs to the expression.
    Goes,
    /// The expression ends before it.
    Ends(Ast),
    /// No expression goes on or ends with it.
    Refuses,
    /// It is one operator or one opening parenthesis too many.
    Deepens,
}

impl Reader {
    /// Nothing was read.
    pub(crate) fn new(alloc: Global) -> Reader
        ensures { result ≡ spec.start }
    {
        Reader {
            mode: Mode::Operand,
            frames: Stack::new(alloc),
            operators: 0,
            openings: 0,
        }
    }

    // Something else was read last. No other function drops a mode that is followed by another.
    fn turn(&mut self, mode: Mode)
        ensures { self.new ≡ spec.reader_in mode self.old.frames self.old }
    {
        drop(std::mem::replace(&mut self.mode, mode));
    }

    /// A token more was read that is no operator and no opening parenthesis.
    pub(crate) fn goes(&mut self, mode: Mode) -> Move
        ensures { spec.moved result self.new ≡ spec.Goes (spec.reader_in mode self.old.frames self.old) }
    {
        self.turn(mode);
        Move::Goes
    }

    /// An operand more was read, which is one token's.
    pub(crate) fn literal(&mut self, value: Ast) -> Move
        ensures { spec.moved result self.new ≡ spec.literal self.old value }
    {
        self.goes(Mode::Complete(value, WHOLE_LEVEL))
    }

    /// One operator more was read. Where it is one too many, it doesn't matter what the reader is.
    pub(crate) fn with_operator(&mut self, mode: Mode) -> Move
        ensures { spec.moved result self.new ≡ spec.with_operator mode self.old.frames self.old }
    {
        self.turn(mode);
        if self.operators >= MAX_OPERATORS {
            return Move::Deepens;
        }
        self.operators += 1;
        Move::Goes
    }

    /// One opening parenthesis more was read. Where it is one too many, it doesn't matter what the reader is.
    pub(crate) fn with_opening(&mut self, mode: Mode) -> Move
        ensures { spec.moved result self.new ≡ spec.with_opening mode self.old.frames self.old }
    {
        self.turn(mode);
        if self.openings >= MAX_OPENINGS {
            return Move::Deepens;
        }
        self.openings += 1;
        Move::Goes
    }
}
