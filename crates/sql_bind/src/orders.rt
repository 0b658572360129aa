//! What a query sorts by.
ghost use Rattle.std.specs.Prelude.{◌≡◌, ◌≤◌, ◌<◌, length, position, IfOk, IfSome};
ghost use Rattle.std.specs.List.{list_any};
ghost use Rattle.geo_base.specs.Results.{Gives};
ghost use Rattle.geo_base.specs.declared.limits.TheConstants.{MAX_LINE_CELLS};
ghost use Rattle.sql_bind.specs.Orders as spec;

use crate::bound::{Sort, SortBy};
use crate::fault::BindFault;
use crate::names::column_meant;
use crate::scope::Scope;
use geo_base::{Duplicate, Txt};
use geo_schema::Schema;
use sql_ast::{AstItem, ColRef, Items, OrderRef};
use std::alloc::Global;

fn has_alias(name: &Txt, item: &AstItem) -> bool
    ensures { result ≡ spec.has_alias name.now item.now }
{
    match &item.alias {
        Some(alias) => *alias == *name,
        None => false,
    }
}

/// The place of the first item with the AS name.
fn first_item(list: &[AstItem], name: &Txt) -> Option<usize>
    ensures place { result ≡ position (spec.has_alias name.now) list.now }
    ensures within { IfSome result (λ place. place < length list.now) }
{
    list.iter().position(|item| has_alias(name, item))
}

fn has_item(list: &[AstItem], name: &Txt) -> bool
    ensures { result ≡ list_any (spec.has_alias name.now) list.now }
{
    list.iter().any(|item| has_alias(name, item))
}

/// The first item with the AS name, which no later one may have too.
fn only_item(alloc: Global, list: &[AstItem], name: &Txt) -> Result<Option<u16>, BindFault>
    requires { length list.now ≤ MAX_LINE_CELLS }
    ensures { Gives BindFault.NoMemory (λ p. p) result (spec.only_item list.now name.now (position (spec.has_alias name.now) list.now)) }
{
    let Some(place) = first_item(list, name) else {
        return Ok(None);
    };
    if has_item(&list[place + 1..], name) {
        return Err(BindFault::Ambiguous(name.copy(alloc)?));
    }
    Ok(Some(place as u16))
}

/// The item that a column of ORDER BY means by its AS name.
fn item_meant(alloc: Global, list: &[AstItem], column: &ColRef) -> Result<Option<u16>, BindFault>
    requires { length list.now ≤ MAX_LINE_CELLS }
    ensures { Gives BindFault.NoMemory (λ p. p) result (spec.item_meant list.now column.now.table column.now.name) }
{
    match &column.table {
        Some(_) => Ok(None),
        None => only_item(alloc, list, &column.name),
    }
}

/// The item, if one is meant, and else the column.
fn item_or_column(
    alloc: Global,
    schema: &Schema,
    plain: &Scope,
    column: &ColRef,
    item: Option<u16>,
) -> Result<SortBy, BindFault>
    ensures { Gives BindFault.NoMemory (λ b. b) result (spec.item_or_column schema.now plain.now column.now item) }
{
    match item {
        Some(place) => Ok(SortBy::Item(place)),
        None => {
            let found = column_meant(alloc, schema, plain, column)?;
            Ok(SortBy::Column(found.place))
        }
    }
}

/// What one column of ORDER BY sorts by. Compares its name with the AS name of each item, and then with the
/// name of each column.
#[tactic(auto, unfolding(crate::specs::Orders::sort_of))]
fn sort_of(
    alloc: Global,
    schema: &Schema,
    plain: &Scope,
    list: &[AstItem],
    order: &OrderRef,
) -> Result<Sort, BindFault>
    requires { length list.now ≤ MAX_LINE_CELLS }
    ensures { Gives BindFault.NoMemory (λ s. s) result (spec.sort_of schema.now plain.now list.now order.now) }
{
    let item = item_meant(alloc, list, &order.column)?;
    let by = item_or_column(alloc, schema, plain, &order.column, item)?;
    Ok(Sort {
        by,
        descending: order.descending,
    })
}

/// The items of a list that is written.
pub(crate) fn written_items(items: &Items) -> &[AstItem]
    ensures { result.now ≡ spec.written_items items.now }
{
    match items {
        Items::All => &[],
        Items::List(list) => list.items(),
    }
}

/// What a query sorts by.
pub(crate) fn order_of(
    alloc: Global,
    schema: &Schema,
    plain: &Scope,
    list: &[AstItem],
    order: &[OrderRef],
) -> Result<Vec<Sort>, BindFault>
    requires { length list.now ≤ MAX_LINE_CELLS }
    ensures { Gives BindFault.NoMemory (λ v. v.items) result (spec.order_of schema.now plain.now list.now order.now) }
{
    let mut sorts = Vec::new(alloc);
    for one in order {
        sorts.push(sort_of(alloc, schema, plain, list, one)?)?;
    }
    Ok(sorts)
}
