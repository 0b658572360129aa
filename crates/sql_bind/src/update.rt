//! Bound UPDATEs.
ghost use Rattle.std.specs.Prelude.{◌≡◌, ◌≤◌, ◌<◌, [], length, IfOk};
ghost use Rattle.geo_base.specs.Results.{Gives};
ghost use Rattle.geo_base.specs.declared.limits.TheConstants.{MAX_COLUMNS};
ghost use Rattle.geo_schema.specs.Schemas.{table_at};
ghost use Rattle.sql_bind.specs.Steps.{each_behind};
ghost use Rattle.sql_bind.specs.Updates as spec;

use crate::bound::{BoundUpdate, ExprList, SetTo, SetToList};
use crate::conditions::filter_of;
use crate::expressions::taken_by;
use crate::fault::BindFault;
use crate::names::{column_named, type_at};
use crate::scope::{Scope, alone, columns_of, key_of, table_named};
use geo_base::{Duplicate, TableNo, Txt};
use geo_schema::{ColumnDef, Schema, is_in};
use sql_ast::{AstSet, UpdateStmt};
use std::alloc::Global;

fn is_set(sets: &[SetTo], place: u8) -> bool
    ensures { result ≡ spec.is_set sets.now place }
{
    sets.iter().any(|set| set.column == place)
}

/// The column that is set, behind others: the table has it, it isn't of the key, and it isn't set before.
#[tactic(auto, unfolding(crate::specs::Updates::column_behind))]
fn column_behind(
    alloc: Global,
    columns: &[ColumnDef],
    key: &[u8],
    before: &[SetTo],
    name: &Txt,
) -> Result<u8, BindFault>
    requires { length columns.now ≤ MAX_COLUMNS }
    ensures place { Gives BindFault.NoMemory (λ p. p) result (spec.column_behind columns.now key.now before.now name.now) }
    ensures within { IfOk result (λ place. place < length columns.now) }
{
    let place = column_named(alloc, columns, name)?;
    if is_in(key, place) {
        return Err(BindFault::KeyColumn(name.copy(alloc)?));
    }
    if is_set(before, place) {
        return Err(BindFault::Ambiguous(name.copy(alloc)?));
    }
    Ok(place)
}

/// What is set, behind others: the column, its value, and the value's type.
#[tactic(auto, unfolding(crate::specs::Updates::set_behind))]
fn set_behind(
    alloc: Global,
    schema: &Schema,
    scope: &Scope,
    table: TableNo,
    before: &[SetTo],
    set: &AstSet,
) -> Result<SetTo, BindFault>
    ensures { Gives BindFault.NoMemory (λ s. s) result (spec.set_behind schema.now scope.now (table_at schema.now table) before.now set.now) }
{
    let columns = columns_of(schema, table);
    let column = column_behind(alloc, columns, key_of(schema, table), before, &set.column)?;
    let value = taken_by(alloc, type_at(columns, column), schema, scope, &set.value)?;
    Ok(SetTo { column, value })
}

/// What is set, from left to right. Each column may be set once, so there are at most as many as columns.
fn sets_of(
    alloc: Global,
    schema: &Schema,
    scope: &Scope,
    table: TableNo,
    sets: &[AstSet],
) -> Result<Vec<SetTo>, BindFault>
    ensures { Gives BindFault.NoMemory (λ v. v.items) result (each_behind (spec.set_behind schema.now scope.now (table_at schema.now table)) [] sets.now) }
{
    let mut bound = Vec::new(alloc);
    for set in sets {
        let next = set_behind(alloc, schema, scope, table, bound.as_slice(), set)?;
        bound.push(next)?;
    }
    Ok(bound)
}

/// What is set, and then WHERE, over the columns of the table.
#[tactic(auto, unfolding(crate::specs::Updates::update_in))]
fn update_in(
    alloc: Global,
    schema: &Schema,
    scope: &Scope,
    table: TableNo,
    update: &UpdateStmt,
) -> Result<BoundUpdate, BindFault>
    ensures { Gives BindFault.NoMemory (λ b. b) result (spec.update_in schema.now scope.now table update.now) }
{
    let sets = sets_of(alloc, schema, scope, table, update.sets.items())?;
    let tests = filter_of(alloc, schema, scope, &update.filter)?;
    Ok(BoundUpdate {
        table,
        sets: SetToList::new(sets),
        tests: ExprList::new(tests),
    })
}

/// An UPDATE: the table, what is set, and WHERE.
#[tactic(auto, unfolding(crate::specs::Updates::update_of))]
pub(crate) fn update_of(
    alloc: Global,
    schema: &Schema,
    update: &UpdateStmt,
) -> Result<BoundUpdate, BindFault>
    ensures { Gives BindFault.NoMemory (λ b. b) result (spec.update_of schema.now update.now) }
{
    let table = table_named(alloc, schema, &update.table)?;
    let scope = alone(alloc, &update.table, table)?;
    let bound = update_in(alloc, schema, &scope, table, update);
    drop(scope);
    bound
}
