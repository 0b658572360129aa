//! What a query answers.

ghost use Rattle.sql_parse.specs.inner.Reading as spec;
ghost use Rattle.sql_parse.specs.inner.Reading.{Parses};

use crate::cursor::Cursor;
use crate::expression::read_expression;
use crate::list::{Part, beside, read_closed, read_separated};
use crate::names::read_alias;
use crate::stop::Stop;
use sql_ast::{Ast, AstItem, AstValue, Items};
use sql_lex::{Keyword, Symbol};
use std::alloc::Global;

// The argument of an aggregate.
#[tactic(auto, unfolding(crate::specs::inner::Reading::argument))]
fn read_argument(alloc: Global, cursor: &mut Cursor<'_>) -> Result<Ast, Stop>
    ensures { Parses (spec.argument cursor.old) result cursor.new }
{
    cursor.expect_symbol(Symbol::Open)?;
    let argument = read_expression(alloc, cursor)?;
    read_closed(cursor, argument)
}

// What stands behind the opening parenthesis of COUNT.
fn read_counted(alloc: Global, cursor: &mut Cursor<'_>) -> Result<AstValue, Stop>
    ensures { Parses (spec.counted cursor.old) result cursor.new }
{
    if cursor.eat_symbol(Symbol::Star) {
        cursor.expect_symbol(Symbol::Close)?;
        return Ok(AstValue::CountAll);
    }
    let argument = read_expression(alloc, cursor)?;
    read_closed(cursor, AstValue::Count(argument))
}

// What stands behind COUNT.
#[tactic(auto, unfolding(crate::specs::inner::Reading::count))]
fn read_count(alloc: Global, cursor: &mut Cursor<'_>) -> Result<AstValue, Stop>
    ensures { Parses (spec.count cursor.old) result cursor.new }
{
    cursor.expect_symbol(Symbol::Open)?;
    read_counted(alloc, cursor)
}

#[tactic(auto, unfolding(crate::specs::inner::Reading::item_value, crate::specs::inner::Reading::keyword))]
fn read_item_value(alloc: Global, cursor: &mut Cursor<'_>) -> Result<AstValue, Stop>
    ensures { Parses (spec.item_value cursor.old) result cursor.new }
{
    if cursor.sees_keyword(Keyword::KCount) {
        cursor.skip();
        return read_count(alloc, cursor);
    }
    if cursor.sees_keyword(Keyword::KSum) {
        cursor.skip();
        return Ok(AstValue::Sum(read_argument(alloc, cursor)?));
    }
    if cursor.sees_keyword(Keyword::KMin) {
        cursor.skip();
        return Ok(AstValue::Min(read_argument(alloc, cursor)?));
    }
    if cursor.sees_keyword(Keyword::KMax) {
        cursor.skip();
        return Ok(AstValue::Max(read_argument(alloc, cursor)?));
    }
    Ok(AstValue::Plain(read_expression(alloc, cursor)?))
}

#[tactic(auto, unfolding(crate::specs::inner::Reading::item))]
fn read_item(alloc: Global, cursor: &mut Cursor<'_>) -> Result<AstItem, Stop>
    ensures { Parses (spec.item cursor.old) result cursor.new }
{
    let value = read_item_value(alloc, cursor)?;
    let (value, alias) = beside(value, read_alias(alloc, cursor))?;
    Ok(AstItem { value, alias })
}

impl Part for AstItem {
    ghost reader = { spec.item };

    fn read(alloc: Global, cursor: &mut Cursor<'_>) -> Result<AstItem, Stop> {
        read_item(alloc, cursor)
    }
}

/// Reads what a query answers.
#[tactic(auto, unfolding(crate::specs::inner::Reading::items))]
pub(crate) fn read_items(alloc: Global, cursor: &mut Cursor<'_>) -> Result<Items, Stop>
    ensures { Parses (spec.items cursor.old) result cursor.new }
{
    if cursor.eat_symbol(Symbol::Star) {
        return Ok(Items::All);
    }
    Ok(Items::List(read_separated(alloc, cursor)?))
}
