//! Names, columns and tables.

ghost use Rattle.sql_parse.specs.inner.Reading as spec;
ghost use Rattle.sql_parse.specs.inner.Reading.{Parses};

use crate::cursor::Cursor;
use crate::expression::read_expression;
use crate::kinds::integer_of;
use crate::list::{Part, read_after};
use crate::stop::Stop;
use geo_base::{Duplicate, Txt};
use sql_ast::{Ast, ColRef, TableRef};
use sql_lex::{Keyword, Symbol, TokenKind};
use std::alloc::Global;

/// Reads a name.
#[tactic(auto, unfolding(crate::specs::inner::Reading::name))]
pub(crate) fn read_name(alloc: Global, cursor: &mut Cursor<'_>) -> Result<Txt, Stop>
    ensures { Parses (spec.name cursor.old) result cursor.new }
{
    match cursor.peek() {
        Some(TokenKind::Name(text)) => {
            let name = text.copy(alloc)?;
            cursor.skip();
            Ok(name)
        }
        _ => Err(cursor.refuse()),
    }
}

/// Reads an integer.
#[tactic(auto, unfolding(crate::specs::inner::Reading::number))]
pub(crate) fn read_number(cursor: &mut Cursor<'_>) -> Result<u64, Stop>
    ensures { Parses (spec.number cursor.old) result cursor.new }
{
    let Some(token) = cursor.peek() else {
        return Err(cursor.refuse());
    };
    match integer_of(token) {
        Some(number) => {
            cursor.skip();
            Ok(number)
        }
        None => Err(cursor.refuse()),
    }
}

// The rest of the column that the name begins.
fn read_qualified(alloc: Global, cursor: &mut Cursor<'_>, first: Txt) -> Result<ColRef, Stop>
    ensures { Parses (spec.qualified first cursor.old) result cursor.new }
{
    if !cursor.eat_symbol(Symbol::Dot) {
        return Ok(ColRef {
            table: None,
            name: first,
        });
    }
    let name = read_name(alloc, cursor)?;
    Ok(ColRef {
        table: Some(first),
        name,
    })
}

/// Reads a column.
#[tactic(auto, unfolding(crate::specs::inner::Reading::column))]
pub(crate) fn read_column(alloc: Global, cursor: &mut Cursor<'_>) -> Result<ColRef, Stop>
    ensures { Parses (spec.column cursor.old) result cursor.new }
{
    let first = read_name(alloc, cursor)?;
    read_qualified(alloc, cursor, first)
}

/// Reads the name behind AS, if that comes next.
#[tactic(auto, unfolding(crate::specs::inner::Reading::alias))]
pub(crate) fn read_alias(alloc: Global, cursor: &mut Cursor<'_>) -> Result<Option<Txt>, Stop>
    ensures { Parses (spec.alias cursor.old) result cursor.new }
{
    read_after(alloc, cursor, Keyword::KAs)
}

/// Reads a table with its name behind AS.
#[tactic(auto, unfolding(crate::specs::inner::Reading::table))]
pub(crate) fn read_table(alloc: Global, cursor: &mut Cursor<'_>) -> Result<TableRef, Stop>
    ensures { Parses (spec.table cursor.old) result cursor.new }
{
    let name = read_name(alloc, cursor)?;
    let alias = read_alias(alloc, cursor)?;
    Ok(TableRef { name, alias })
}

impl Part for Txt {
    ghost reader = { spec.name };

    fn read(alloc: Global, cursor: &mut Cursor<'_>) -> Result<Txt, Stop> {
        read_name(alloc, cursor)
    }
}

impl Part for ColRef {
    ghost reader = { spec.column };

    fn read(alloc: Global, cursor: &mut Cursor<'_>) -> Result<ColRef, Stop> {
        read_column(alloc, cursor)
    }
}

impl Part for Ast {
    ghost reader = { spec.expression };

    fn read(alloc: Global, cursor: &mut Cursor<'_>) -> Result<Ast, Stop> {
        read_expression(alloc, cursor)
    }
}
