//! SELECT.

ghost use Rattle.std.specs.Prelude.{◌≡◌, Ok};
ghost use Rattle.sql_parse.specs.inner.Reading as spec;
ghost use Rattle.sql_parse.specs.inner.Reading.{Parses};

use crate::cursor::Cursor;
use crate::expression::read_expression;
use crate::items::read_items;
use crate::list::{Part, beside, read_after, read_clause};
use crate::names::{read_column, read_number, read_table};
use crate::stop::Stop;
use geo_base::Many;
use sql_ast::{Ast, ColRef, JoinRef, OrderRef, SelectStmt};
use sql_lex::Keyword;
use std::alloc::Global;

// The table behind JOIN, and the condition of ON.
#[tactic(auto, unfolding(crate::specs::inner::Reading::joined))]
fn read_joined(alloc: Global, cursor: &mut Cursor<'_>) -> Result<JoinRef, Stop>
    ensures { Parses (spec.joined cursor.old) result cursor.new }
{
    let table = read_table(alloc, cursor)?;
    cursor.expect_keyword(Keyword::KOn)?;
    let on = read_expression(alloc, cursor)?;
    Ok(JoinRef { table, on })
}

impl Part for JoinRef {
    ghost reader = { spec.joined };

    fn read(alloc: Global, cursor: &mut Cursor<'_>) -> Result<JoinRef, Stop> {
        read_joined(alloc, cursor)
    }
}

#[tactic(auto, unfolding(crate::specs::inner::Reading::join))]
fn read_join(alloc: Global, cursor: &mut Cursor<'_>) -> Result<Option<JoinRef>, Stop>
    ensures { Parses (spec.join cursor.old) result cursor.new }
{
    read_after(alloc, cursor, Keyword::KJoin)
}

/// Reads the condition behind WHERE, if that comes next.
#[tactic(auto, unfolding(crate::specs::inner::Reading::filter))]
pub(crate) fn read_filter(alloc: Global, cursor: &mut Cursor<'_>) -> Result<Option<Ast>, Stop>
    ensures { Parses (spec.filter cursor.old) result cursor.new }
{
    read_after(alloc, cursor, Keyword::KWhere)
}

// Whether DESC comes next. ASC may, and says nothing.
#[tactic(auto, unfolding(crate::specs::inner::Reading::descending))]
fn read_descending(cursor: &mut Cursor<'_>) -> bool
    ensures { spec.descending cursor.old ≡ Ok (result, cursor.new) }
{
    if cursor.eat_keyword(Keyword::KDesc) {
        return true;
    }
    cursor.eat_keyword(Keyword::KAsc);
    false
}

#[tactic(auto, unfolding(crate::specs::inner::Reading::ordered))]
fn read_ordered(alloc: Global, cursor: &mut Cursor<'_>) -> Result<OrderRef, Stop>
    ensures { Parses (spec.ordered cursor.old) result cursor.new }
{
    let column = read_column(alloc, cursor)?;
    let descending = read_descending(cursor);
    Ok(OrderRef { column, descending })
}

impl Part for OrderRef {
    ghost reader = { spec.ordered };

    fn read(alloc: Global, cursor: &mut Cursor<'_>) -> Result<OrderRef, Stop> {
        read_ordered(alloc, cursor)
    }
}

#[tactic(auto, unfolding(crate::specs::inner::Reading::group))]
fn read_group(alloc: Global, cursor: &mut Cursor<'_>) -> Result<Many<ColRef>, Stop>
    ensures { Parses (spec.group cursor.old) result cursor.new }
{
    read_clause(alloc, cursor, Keyword::KGroup)
}

#[tactic(auto, unfolding(crate::specs::inner::Reading::order))]
fn read_order(alloc: Global, cursor: &mut Cursor<'_>) -> Result<Many<OrderRef>, Stop>
    ensures { Parses (spec.order cursor.old) result cursor.new }
{
    read_clause(alloc, cursor, Keyword::KOrder)
}

#[tactic(auto, unfolding(crate::specs::inner::Reading::limit))]
fn read_limit(cursor: &mut Cursor<'_>) -> Result<Option<u64>, Stop>
    ensures { Parses (spec.limit cursor.old) result cursor.new }
{
    if !cursor.eat_keyword(Keyword::KLimit) {
        return Ok(None);
    }
    Ok(Some(read_number(cursor)?))
}

/// Reads what stands behind the word SELECT.
#[tactic(auto, unfolding(crate::specs::inner::Reading::select))]
pub(crate) fn read_select(alloc: Global, cursor: &mut Cursor<'_>) -> Result<SelectStmt, Stop>
    ensures { Parses (spec.select cursor.old) result cursor.new }
{
    let items = read_items(alloc, cursor)?;
    cursor.expect_keyword(Keyword::KFrom)?;
    let left = read_table(alloc, cursor)?;
    let right = read_join(alloc, cursor)?;
    let (right, filter) = beside(right, read_filter(alloc, cursor))?;
    let (tests, group) = beside((right, filter), read_group(alloc, cursor))?;
    let (tests, order) = beside(tests, read_order(alloc, cursor))?;
    let (tests, limit) = beside(tests, read_limit(cursor))?;
    let (right, filter) = tests;
    Ok(SelectStmt {
        items,
        left,
        right,
        filter,
        group,
        order,
        limit,
    })
}
