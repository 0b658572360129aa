//! Bound queries.
ghost use Rattle.std.specs.Prelude.{◌≡◌, [], IfOk, OnOk};
ghost use Rattle.geo_base.specs.Results.{Gives};
ghost use Rattle.sql_bind.specs.Selects as spec;

use crate::bound::{BoundSelect, ColumnNoList, ExprList, ItemList, SortList, TableList};
use crate::conditions::{condition_of, filter_of};
use crate::fault::BindFault;
use crate::items::{has_aggregate, items_of};
use crate::names::{column_meant, contains};
use crate::orders::{order_of, written_items};
use crate::scope::{Known, Scope, known_of};
use geo_base::{Duplicate, NoMemory, TableNo};
use geo_schema::Schema;
use sql_ast::{ColRef, JoinRef, SelectStmt};
use sql_expr::Expr;
use std::alloc::Global;

/// What a query answers of each row, pair or group, and what it sorts them by.
#[derive(Drop)]
pub(crate) struct Lines {
    pub(crate) items: ItemList,
    pub(crate) order: SortList,
}

/// The table of JOIN.
fn second_of(
    alloc: Global,
    schema: &Schema,
    join: &Option<JoinRef>,
) -> Result<Option<Known>, BindFault>
    ensures { Gives BindFault.NoMemory (λ k. k) result (spec.second_of schema.now join.now) }
{
    match join {
        None => Ok(None),
        Some(join) => Ok(Some(known_of(alloc, schema, &join.table)?)),
    }
}

/// That two tables are known by different names.
fn different(alloc: Global, left: &Known, right: &Option<Known>) -> Result<(), BindFault>
    ensures { Gives BindFault.NoMemory (λ u. u) result (spec.different left.now right.now) }
{
    if let Some(right) = right {
        if left.name == right.name {
            return Err(BindFault::Ambiguous(left.name.copy(alloc)?));
        }
    }
    Ok(())
}

/// The tables of a query.
#[tactic(auto, unfolding(crate::specs::Selects::from_of))]
fn from_of(alloc: Global, schema: &Schema, select: &SelectStmt) -> Result<Scope, BindFault>
    ensures { Gives BindFault.NoMemory (λ s. s) result (spec.from_of schema.now select.now) }
{
    let left = known_of(alloc, schema, &select.left)?;
    let right = second_of(alloc, schema, &select.right)?;
    let told = different(alloc, &left, &right);
    let scope = Scope {
        left: Some(left),
        right,
        group: None,
    };
    match told {
        Ok(()) => Ok(scope),
        Err(fault) => {
            drop(scope);
            Err(fault)
        }
    }
}

/// The conjuncts of ON.
fn on_of(
    alloc: Global,
    schema: &Schema,
    scope: &Scope,
    join: &Option<JoinRef>,
) -> Result<Vec<Expr>, BindFault>
    ensures { Gives BindFault.NoMemory (λ tests. tests.items) result (spec.on_of schema.now scope.now join.now) }
{
    match join {
        None => Ok(Vec::new(alloc)),
        Some(join) => condition_of(alloc, schema, scope, &join.on),
    }
}

/// The conjuncts of ON and then those of WHERE.
#[tactic(auto, unfolding(crate::specs::Selects::tests_of))]
fn tests_of(
    alloc: Global,
    schema: &Schema,
    scope: &Scope,
    select: &SelectStmt,
) -> Result<Vec<Expr>, BindFault>
    ensures { Gives BindFault.NoMemory (λ tests. tests.items) result (spec.tests_of schema.now scope.now select.now) }
{
    let mut tests = on_of(alloc, schema, scope, &select.right)?;
    let mut filter = filter_of(alloc, schema, scope, &select.filter)?;
    tests.append(&mut filter)?;
    Ok(tests)
}

/// Adds a column once.
fn push_once(group: &mut Vec<u16>, place: u16) -> Result<(), NoMemory>
    ensures { OnOk result (group.new.items ≡ spec.once group.old.items place) }
{
    if !contains(group.as_slice(), place) {
        group.push(place)?;
    }
    Ok(())
}

/// The columns of GROUP BY, each once. Compares each with those before it, of which there are at most as many
/// as columns.
fn group_of(
    alloc: Global,
    schema: &Schema,
    scope: &Scope,
    columns: &[ColRef],
) -> Result<Vec<u16>, BindFault>
    ensures { Gives BindFault.NoMemory (λ g. g.items) result (spec.group_behind schema.now scope.now [] columns.now) }
{
    let mut group = Vec::new(alloc);
    for column in columns {
        let found = column_meant(alloc, schema, scope, column)?;
        push_once(&mut group, found.place)?;
    }
    Ok(group)
}

/// Whether the query has GROUP BY or an aggregate.
fn is_grouped(select: &SelectStmt) -> bool
    ensures { result ≡ spec.is_grouped select.now }
{
    !select.group.items().is_empty() || has_aggregate(&select.items)
}

fn copy_known(alloc: Global, known: &Option<Known>) -> Result<Option<Known>, NoMemory>
    ensures { IfOk result (λ c. c ≡ known.now) }
{
    match known {
        None => Ok(None),
        Some(known) => Ok(Some(known.copy(alloc)?)),
    }
}

fn group_copy(alloc: Global, grouped: bool, group: &[u16]) -> Result<Option<ColumnNoList>, NoMemory>
    ensures { IfOk result (λ c. c ≡ spec.only_group grouped group.now) }
{
    if grouped {
        let copy = Vec::from_slice(alloc, group)?;
        Ok(Some(ColumnNoList::new(copy)))
    } else {
        Ok(None)
    }
}

/// Where plain items and the columns of ORDER BY stand.
fn plain_scope(
    alloc: Global,
    grouped: bool,
    group: &[u16],
    scope: &Scope,
) -> Result<Scope, NoMemory>
    ensures { IfOk result (λ p. p ≡ spec.plain_scope grouped group.now scope.now) }
{
    let group = group_copy(alloc, grouped, group)?;
    let left = copy_known(alloc, &scope.left)?;
    let right = copy_known(alloc, &scope.right)?;
    Ok(Scope { left, right, group })
}

/// The numbers of the tables.
fn numbers_of(alloc: Global, scope: &Scope) -> Result<Vec<TableNo>, NoMemory>
    ensures { IfOk result (λ v. v.items ≡ spec.numbers_of scope.now) }
{
    let mut numbers = Vec::new(alloc);
    if let Some(left) = &scope.left {
        numbers.push(left.table)?;
    }
    if let Some(right) = &scope.right {
        numbers.push(right.table)?;
    }
    Ok(numbers)
}

/// The items, and then ORDER BY. Plain items and the columns of ORDER BY stand in the scope `plain`.
#[tactic(auto, unfolding(crate::specs::Selects::lines_in))]
fn lines_in(
    alloc: Global,
    schema: &Schema,
    scope: &Scope,
    plain: &Scope,
    select: &SelectStmt,
) -> Result<Lines, BindFault>
    ensures { Gives BindFault.NoMemory (λ l. l) result (spec.lines_in schema.now scope.now plain.now select.now) }
{
    let items = items_of(alloc, schema, scope, plain, &select.items)?;
    let list = written_items(&select.items);
    let order = order_of(alloc, schema, plain, list, select.order.items())?;
    Ok(Lines {
        items: ItemList::new(items),
        order: SortList::new(order),
    })
}

/// The items, and then ORDER BY, behind the columns of GROUP BY.
#[tactic(auto, unfolding(crate::specs::Selects::lines_of))]
fn lines_of(
    alloc: Global,
    schema: &Schema,
    scope: &Scope,
    group: &[u16],
    select: &SelectStmt,
) -> Result<Lines, BindFault>
    ensures { Gives BindFault.NoMemory (λ l. l) result (spec.lines_of schema.now scope.now group.now select.now) }
{
    let plain = plain_scope(alloc, is_grouped(select), group, scope)?;
    let lines = lines_in(alloc, schema, scope, &plain, select);
    drop(plain);
    lines
}

/// What stands behind the tables: ON, WHERE, GROUP BY, the items, and ORDER BY.
#[tactic(auto, unfolding(crate::specs::Selects::query_in))]
fn query_in(
    alloc: Global,
    schema: &Schema,
    scope: &Scope,
    select: &SelectStmt,
) -> Result<BoundSelect, BindFault>
    ensures { Gives BindFault.NoMemory (λ b. b) result (spec.query_in schema.now scope.now select.now) }
{
    let tests = tests_of(alloc, schema, scope, select)?;
    let group = group_of(alloc, schema, scope, select.group.items())?;
    let tables = numbers_of(alloc, scope)?;
    let lines = lines_of(alloc, schema, scope, group.as_slice(), select)?;
    Ok(BoundSelect {
        tables: TableList::new(tables),
        tests: ExprList::new(tests),
        grouped: is_grouped(select),
        group: ColumnNoList::new(group),
        items: lines.items,
        order: lines.order,
        limit: select.limit,
    })
}

/// A query: the tables, and then what stands behind them.
#[tactic(auto, unfolding(crate::specs::Selects::select_of))]
pub(crate) fn select_of(
    alloc: Global,
    schema: &Schema,
    select: &SelectStmt,
) -> Result<BoundSelect, BindFault>
    ensures { Gives BindFault.NoMemory (λ b. b) result (spec.select_of schema.now select.now) }
{
    let scope = from_of(alloc, schema, select)?;
    let bound = query_in(alloc, schema, &scope, select);
    drop(scope);
    bound
}

/// A query with FOR UPDATE, which may neither join nor group. That is tested last.
#[tactic(auto, unfolding(crate::specs::Selects::lock_of))]
pub(crate) fn lock_of(
    alloc: Global,
    schema: &Schema,
    select: &SelectStmt,
) -> Result<BoundSelect, BindFault>
    ensures { Gives BindFault.NoMemory (λ b. b) result (spec.lock_of schema.now select.now) }
{
    let bound = select_of(alloc, schema, select)?;
    if select.right.is_some() || bound.grouped {
        drop(bound);
        return Err(BindFault::NotLockable);
    }
    Ok(bound)
}
