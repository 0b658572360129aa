//! Expressions, read one token at a time.

ghost use Rattle.sql_parse.specs.inner.Expressions.{run};
ghost use Rattle.sql_parse.specs.inner.Reading as spec;
ghost use Rattle.sql_parse.specs.inner.Reading.{Parses};

mod behind;
mod frame;
mod levels;
mod operand;
mod reader;
mod settle;
mod step;

use crate::cursor::Cursor;
use crate::stop::Stop;
use reader::{Move, Reader};
use sql_ast::Ast;
use std::alloc::Global;
use step::{finished, step};

// Reads the longest expression that the tokens go on with, in one pass over them.
fn read_on(alloc: Global, reader: &mut Reader, cursor: &mut Cursor<'_>) -> Result<Ast, Stop>
    ensures { Parses (run reader.old cursor.old) result cursor.new }
{
    while let Some((token, before_integer)) = cursor.ahead() {
        match step(alloc, reader, token, before_integer)? {
            Move::Goes => cursor.skip(),
            Move::Ends(value) => return Ok(value),
            Move::Refuses => return Err(cursor.refuse()),
            Move::Deepens => return Err(Stop::Deep(cursor.left())),
        }
    }
    match finished(alloc, reader)? {
        Some(value) => Ok(value),
        None => Err(cursor.refuse()),
    }
}

/// Reads the longest expression.
#[tactic(auto, unfolding(crate::specs::inner::Reading::expression))]
pub(crate) fn read_expression(alloc: Global, cursor: &mut Cursor<'_>) -> Result<Ast, Stop>
    ensures { Parses (spec.expression cursor.old) result cursor.new }
{
    let mut reader = Reader::new(alloc);
    let read = read_on(alloc, &mut reader, cursor);
    drop(reader);
    read
}
