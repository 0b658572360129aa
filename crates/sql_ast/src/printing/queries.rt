//! Queries, put at the end of a text.
ghost use Rattle.std.specs.Prelude.{◌≡◌, ◌++◌, OnOk, string_bytes};
ghost use Rattle.sql_ast.specs.Printing as texts;

use super::clauses::print_list_clause;
use super::columns::print_alias;
use super::expressions::{print_expression, print_filter};
use crate::ast::Ast;
use crate::select::{AstItem, AstValue, Items, JoinRef, OrderRef, SelectStmt, TableRef};
use geo_base::{NoMemory, Printed, print_commas};
use std::fmt::Write;

// An aggregate by its keyword.
fn print_aggregate(out: &mut String, keyword: &str, argument: &Ast) -> Result<(), NoMemory>
    ensures { OnOk result (string_bytes out.new ≡ string_bytes out.old ++ texts.aggregate_text keyword.now argument.now) }
{
    out.push_str(keyword)?;
    out.push_str("(")?;
    print_expression(out, argument)?;
    out.push_str(")")?;
    Ok(())
}

fn print_value(out: &mut String, value: &AstValue) -> Result<(), NoMemory>
    ensures { OnOk result (string_bytes out.new ≡ string_bytes out.old ++ texts.value_text value.now) }
{
    match value {
        AstValue::Plain(value) => print_expression(out, value)?,
        AstValue::CountAll => write!(out, "COUNT(*)")?,
        AstValue::Count(value) => print_aggregate(out, "COUNT", value)?,
        AstValue::Sum(value) => print_aggregate(out, "SUM", value)?,
        AstValue::Min(value) => print_aggregate(out, "MIN", value)?,
        AstValue::Max(value) => print_aggregate(out, "MAX", value)?,
    }
    Ok(())
}

impl Printed for AstItem {
    ghost text = { texts.item_text };

    fn print_to(&self, out: &mut String) -> Result<(), NoMemory> {
        print_value(out, &self.value)?;
        print_alias(out, &self.alias)
    }
}

impl Printed for OrderRef {
    ghost text = { texts.order_text };

    fn print_to(&self, out: &mut String) -> Result<(), NoMemory> {
        self.column.print_to(out)?;
        if self.descending {
            write!(out, " DESC")?;
        }
        Ok(())
    }
}

fn print_items(out: &mut String, items: &Items) -> Result<(), NoMemory>
    ensures { OnOk result (string_bytes out.new ≡ string_bytes out.old ++ texts.items_text items.now) }
{
    match items {
        Items::All => write!(out, "*")?,
        Items::List(list) => print_commas(out, list.items())?,
    }
    Ok(())
}

fn print_table(out: &mut String, table: &TableRef) -> Result<(), NoMemory>
    ensures { OnOk result (string_bytes out.new ≡ string_bytes out.old ++ texts.table_text table.now) }
{
    table.name.print_to(out)?;
    print_alias(out, &table.alias)
}

fn print_join(out: &mut String, join: &Option<JoinRef>) -> Result<(), NoMemory>
    ensures { OnOk result (string_bytes out.new ≡ string_bytes out.old ++ texts.join_text join.now) }
{
    if let Some(join) = join {
        write!(out, " JOIN ")?;
        print_table(out, &join.table)?;
        write!(out, " ON ")?;
        print_expression(out, &join.on)?;
    }
    Ok(())
}

fn print_limit(out: &mut String, limit: Option<u64>) -> Result<(), NoMemory>
    ensures { OnOk result (string_bytes out.new ≡ string_bytes out.old ++ texts.limit_text limit) }
{
    if let Some(count) = limit {
        write!(out, " LIMIT {count}")?;
    }
    Ok(())
}

/// A query.
#[tactic(auto, unfolding(crate::specs::Printing::select_text))]
pub(crate) fn print_select(out: &mut String, select: &SelectStmt) -> Result<(), NoMemory>
    ensures { OnOk result (string_bytes out.new ≡ string_bytes out.old ++ texts.select_text select.now) }
{
    out.push_str("SELECT ")?;
    print_items(out, &select.items)?;
    out.push_str(" FROM ")?;
    print_table(out, &select.left)?;
    print_join(out, &select.right)?;
    print_filter(out, &select.filter)?;
    print_list_clause(out, " GROUP BY ", select.group.items())?;
    print_list_clause(out, " ORDER BY ", select.order.items())?;
    print_limit(out, select.limit)
}
