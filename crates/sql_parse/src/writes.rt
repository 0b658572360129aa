//! Statements that write.

ghost use Rattle.sql_parse.specs.inner.Reading as spec;
ghost use Rattle.sql_parse.specs.inner.Reading.{Parses};

use crate::cursor::Cursor;
use crate::expression::read_expression;
use crate::list::{Part, read_closed, read_separated};
use crate::names::read_name;
use crate::query::read_filter;
use crate::stop::Stop;
use geo_base::{Many, Txt};
use sql_ast::{AstRow, AstSet, DeleteStmt, InsertStmt, UpdateStmt};
use sql_lex::{Keyword, Symbol};
use std::alloc::Global;

#[tactic(auto, unfolding(crate::specs::inner::Reading::row))]
fn read_row(alloc: Global, cursor: &mut Cursor<'_>) -> Result<AstRow, Stop>
    ensures { Parses (spec.row cursor.old) result cursor.new }
{
    cursor.expect_symbol(Symbol::Open)?;
    let values = read_separated(alloc, cursor)?;
    read_closed(cursor, AstRow { values })
}

impl Part for AstRow {
    ghost reader = { spec.row };

    fn read(alloc: Global, cursor: &mut Cursor<'_>) -> Result<AstRow, Stop> {
        read_row(alloc, cursor)
    }
}

// The columns that are listed behind the table's name, or none.
#[tactic(auto, unfolding(crate::specs::inner::Reading::columns))]
fn read_columns(alloc: Global, cursor: &mut Cursor<'_>) -> Result<Many<Txt>, Stop>
    ensures { Parses (spec.columns cursor.old) result cursor.new }
{
    if !cursor.eat_symbol(Symbol::Open) {
        return Ok(Many::new(Vec::new(alloc)));
    }
    let columns = read_separated(alloc, cursor)?;
    read_closed(cursor, columns)
}

/// Reads what stands behind the word INSERT.
#[tactic(auto, unfolding(crate::specs::inner::Reading::insert))]
pub(crate) fn read_insert(alloc: Global, cursor: &mut Cursor<'_>) -> Result<InsertStmt, Stop>
    ensures { Parses (spec.insert cursor.old) result cursor.new }
{
    cursor.expect_keyword(Keyword::KInto)?;
    let table = read_name(alloc, cursor)?;
    let columns = read_columns(alloc, cursor)?;
    cursor.expect_keyword(Keyword::KValues)?;
    let rows = read_separated(alloc, cursor)?;
    Ok(InsertStmt {
        table,
        columns,
        rows,
    })
}

#[tactic(auto, unfolding(crate::specs::inner::Reading::set))]
fn read_set(alloc: Global, cursor: &mut Cursor<'_>) -> Result<AstSet, Stop>
    ensures { Parses (spec.set cursor.old) result cursor.new }
{
    let column = read_name(alloc, cursor)?;
    cursor.expect_symbol(Symbol::Equal)?;
    let value = read_expression(alloc, cursor)?;
    Ok(AstSet { column, value })
}

impl Part for AstSet {
    ghost reader = { spec.set };

    fn read(alloc: Global, cursor: &mut Cursor<'_>) -> Result<AstSet, Stop> {
        read_set(alloc, cursor)
    }
}

/// Reads what stands behind the word UPDATE.
#[tactic(auto, unfolding(crate::specs::inner::Reading::update))]
pub(crate) fn read_update(alloc: Global, cursor: &mut Cursor<'_>) -> Result<UpdateStmt, Stop>
    ensures { Parses (spec.update cursor.old) result cursor.new }
{
    let table = read_name(alloc, cursor)?;
    cursor.expect_keyword(Keyword::KSet)?;
    let sets = read_separated(alloc, cursor)?;
    let filter = read_filter(alloc, cursor)?;
    Ok(UpdateStmt {
        table,
        sets,
        filter,
    })
}

/// Reads what stands behind the word DELETE.
#[tactic(auto, unfolding(crate::specs::inner::Reading::delete))]
pub(crate) fn read_delete(alloc: Global, cursor: &mut Cursor<'_>) -> Result<DeleteStmt, Stop>
    ensures { Parses (spec.delete cursor.old) result cursor.new }
{
    cursor.expect_keyword(Keyword::KFrom)?;
    let table = read_name(alloc, cursor)?;
    let filter = read_filter(alloc, cursor)?;
    Ok(DeleteStmt { table, filter })
}
