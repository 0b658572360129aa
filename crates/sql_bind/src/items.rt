//! The items of a query.
ghost use Rattle.std.specs.Prelude.{◌≡◌, ◌≤◌, ◌+◌, length, IfOk};
ghost use Rattle.std.specs.List.{list_any};
ghost use Rattle.geo_base.specs.Results.{Gives};
ghost use Rattle.geo_base.specs.declared.limits.TheConstants.{MAX_COLUMNS, MAX_LINE_CELLS};
ghost use Rattle.sql_bind.specs.Items as spec;
ghost use Rattle.sql_bind.specs.Orders.{written_items};
ghost use Rattle.sql_bind.specs.Steps.{each_behind};

use crate::bound::Item;
use crate::expressions::{of_any_type, taken_by};
use crate::fault::BindFault;
use crate::names::is_allowed;
use crate::scope::{Scope, known_columns};
use geo_base::Duplicate;
use geo_base::limits::MAX_LINE_CELLS;
use geo_schema::{ColumnDef, Schema};
use sql_ast::{AstItem, AstValue, Items};
use sql_expr::{Expr, ValueType};
use std::alloc::Global;

fn is_aggregate(value: &AstValue) -> bool
    ensures { result ≡ spec.is_aggregate value.now }
{
    !matches!(value, AstValue::Plain(_))
}

fn any_aggregate(list: &[AstItem]) -> bool
    ensures { result ≡ list_any (λ i. spec.is_aggregate i.value) list.now }
{
    list.iter().any(|item| is_aggregate(&item.value))
}

/// Whether one of the items is an aggregate.
pub(crate) fn has_aggregate(items: &Items) -> bool
    ensures { result ≡ spec.has_aggregate items.now }
{
    match items {
        Items::All => false,
        Items::List(list) => any_aggregate(list.items()),
    }
}

/// An item that is written.
fn item_of(
    alloc: Global,
    schema: &Schema,
    scope: &Scope,
    plain: &Scope,
    value: &AstValue,
) -> Result<Item, BindFault>
    ensures { Gives BindFault.NoMemory (λ i. i) result (spec.item_of schema.now scope.now plain.now value.now) }
{
    match value {
        AstValue::Plain(ast) => Ok(Item::Plain(of_any_type(alloc, schema, plain, ast)?)),
        AstValue::CountAll => Ok(Item::CountAll),
        AstValue::Count(ast) => Ok(Item::Count(of_any_type(alloc, schema, scope, ast)?)),
        AstValue::Sum(ast) => {
            let number = taken_by(alloc, ValueType::Int, schema, scope, ast)?;
            Ok(Item::Sum(number))
        }
        AstValue::Min(ast) => Ok(Item::Min(of_any_type(alloc, schema, scope, ast)?)),
        AstValue::Max(ast) => Ok(Item::Max(of_any_type(alloc, schema, scope, ast)?)),
    }
}

/// The items that are written, from left to right.
fn written_list(
    alloc: Global,
    schema: &Schema,
    scope: &Scope,
    plain: &Scope,
    list: &[AstItem],
) -> Result<Vec<Item>, BindFault>
    ensures items { Gives BindFault.NoMemory (λ v. v.items) result (spec.written_list schema.now scope.now plain.now list.now) }
    ensures count { IfOk result (λ v. length v.items ≡ length list.now) }
{
    let mut items = Vec::new(alloc);
    for item in list {
        items.push(item_of(alloc, schema, scope, plain, &item.value)?)?;
    }
    Ok(items)
}

/// The next column of `*`.
fn star_item(
    alloc: Global,
    plain: &Scope,
    place: u16,
    column: &ColumnDef,
) -> Result<Item, BindFault>
    ensures { Gives BindFault.NoMemory (λ i. i) result (spec.star_item plain.now place column.now) }
{
    if !is_allowed(&plain.group, place) {
        return Err(BindFault::NotGrouped(column.name.copy(alloc)?));
    }
    Ok(Item::Plain(Expr::Col(place)))
}

/// Adds the columns of one table of `*`.
fn star_items(
    alloc: Global,
    plain: &Scope,
    columns: &[ColumnDef],
    mut items: Vec<Item>,
) -> Result<Vec<Item>, BindFault>
    requires few { length items.items ≤ MAX_COLUMNS }
    requires columns { length columns.now ≤ MAX_COLUMNS }
    ensures items { Gives BindFault.NoMemory (λ v. v.items) result (each_behind (spec.next_star plain.now) items.items columns.now) }
    ensures count { IfOk result (λ v. length v.items ≡ length items.items + length columns.now) }
{
    for column in columns {
        let place = items.len() as u16;
        items.push(star_item(alloc, plain, place, column)?)?;
    }
    Ok(items)
}

/// All columns of the left table, and then of the right one.
fn all_items(alloc: Global, schema: &Schema, plain: &Scope) -> Result<Vec<Item>, BindFault>
    ensures { Gives BindFault.NoMemory (λ v. v.items) result (spec.star_of schema.now plain.now) }
{
    let none = Vec::new(alloc);
    let left = star_items(alloc, plain, known_columns(schema, &plain.left), none)?;
    star_items(alloc, plain, known_columns(schema, &plain.right), left)
}

/// The items from left to right.
fn listed(
    alloc: Global,
    schema: &Schema,
    scope: &Scope,
    plain: &Scope,
    items: &Items,
) -> Result<Vec<Item>, BindFault>
    ensures items { Gives BindFault.NoMemory (λ v. v.items) result (spec.listed schema.now scope.now plain.now items.now) }
    ensures written { IfOk result (λ v. length (written_items items.now) ≤ length v.items) }
{
    match items {
        Items::All => all_items(alloc, schema, plain),
        Items::List(list) => written_list(alloc, schema, scope, plain, list.items()),
    }
}

/// The items of a query, of which plain ones stand in the scope `plain`, and the arguments of aggregates in
/// the other one.
#[tactic(auto, unfolding(crate::specs::Items::items_of))]
pub(crate) fn items_of(
    alloc: Global,
    schema: &Schema,
    scope: &Scope,
    plain: &Scope,
    items: &Items,
) -> Result<Vec<Item>, BindFault>
    ensures items { Gives BindFault.NoMemory (λ v. v.items) result (spec.items_of schema.now scope.now plain.now items.now) }
    ensures few { IfOk result (λ _. length (written_items items.now) ≤ MAX_LINE_CELLS) }
{
    let bound = listed(alloc, schema, scope, plain, items)?;
    if bound.is_empty() || bound.len() > MAX_LINE_CELLS {
        return Err(BindFault::WrongCount);
    }
    Ok(bound)
}
