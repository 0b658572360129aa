//! Bound INSERTs.
ghost use Rattle.std.specs.Prelude.{◌≡◌, ◌≤◌, ◌<◌, [], length, map, IfOk};
ghost use Rattle.std.specs.List.{All, range_with_len};
ghost use Rattle.geo_base.specs.Results.{Gives};
ghost use Rattle.geo_base.specs.declared.limits.TheConstants.{MAX_COLUMNS};
ghost use Rattle.sql_bind.specs.Inserts as spec;
ghost use Rattle.sql_bind.specs.Names.{type_at};
ghost use Rattle.sql_bind.specs.Steps.{each, each_behind};

use crate::bound::{BoundInsert, ExprList, ExprRow, ExprRowList};
use crate::expressions::taken_by;
use crate::fault::BindFault;
use crate::names::{column_named, type_at};
use crate::scope::{Scope, columns_of, nowhere, table_named};
use geo_base::{Duplicate, NoMemory, Txt};
use geo_schema::{ColumnDef, PlaceList, Schema, is_in};
use sql_ast::{Ast, AstRow, InsertStmt};
use sql_expr::{Expr, ValueType};
use std::alloc::Global;

/// A column of the list, behind others.
#[tactic(auto, unfolding(crate::specs::Inserts::listed_column))]
fn listed_column(
    alloc: Global,
    columns: &[ColumnDef],
    before: &[u8],
    name: &Txt,
) -> Result<u8, BindFault>
    requires { length columns.now ≤ MAX_COLUMNS }
    ensures place { Gives BindFault.NoMemory (λ p. p) result (spec.listed_column columns.now before.now name.now) }
    ensures within { IfOk result (λ place. place < length columns.now) }
{
    let place = column_named(alloc, columns, name)?;
    if is_in(before, place) {
        return Err(BindFault::Ambiguous(name.copy(alloc)?));
    }
    Ok(place)
}

/// The columns of the list, from left to right.
fn written_columns(
    alloc: Global,
    columns: &[ColumnDef],
    names: &[Txt],
) -> Result<Vec<u8>, BindFault>
    requires { length columns.now ≤ MAX_COLUMNS }
    ensures places { Gives BindFault.NoMemory (λ v. v.items) result (each_behind (spec.listed_column columns.now) [] names.now) }
    ensures within { IfOk result (λ v. All (λ place. place < length columns.now) v.items) }
{
    let mut places = Vec::new(alloc);
    for name in names {
        places.push(listed_column(alloc, columns, places.as_slice(), name)?)?;
    }
    Ok(places)
}

/// All columns, so many of them.
fn all_columns(alloc: Global, count: u8) -> Result<Vec<u8>, NoMemory>
    ensures places { IfOk result (λ v. v.items ≡ range_with_len 0 count) }
    ensures within { IfOk result (λ v. All (λ place. place < count) v.items) }
{
    let mut places = Vec::with_capacity(alloc, count as usize)?;
    for place in 0..count {
        places.push(place)?;
    }
    Ok(places)
}

/// The columns that the values of a row are for.
#[tactic(auto, unfolding(crate::specs::Inserts::listed_columns))]
fn listed_columns(alloc: Global, columns: &[ColumnDef], names: &[Txt]) -> Result<Vec<u8>, BindFault>
    requires { length columns.now ≤ MAX_COLUMNS }
    ensures places { Gives BindFault.NoMemory (λ v. v.items) result (spec.listed_columns columns.now names.now) }
    ensures within { IfOk result (λ v. All (λ place. place < length columns.now) v.items) }
{
    if names.is_empty() {
        return Ok(all_columns(alloc, columns.len() as u8)?);
    }
    written_columns(alloc, columns, names)
}

/// The types of the columns at the places.
fn place_types(
    alloc: Global,
    columns: &[ColumnDef],
    places: &[u8],
) -> Result<Vec<ValueType>, NoMemory>
    requires { All (λ place. place < length columns.now) places.now }
    ensures { IfOk result (λ v. v.items ≡ map (type_at columns.now) places.now) }
{
    let mut types = Vec::with_capacity(alloc, places.len())?;
    for place in places {
        types.push(type_at(columns, *place))?;
    }
    Ok(types)
}

/// The values of a row, from left to right.
fn values_of(
    alloc: Global,
    schema: &Schema,
    scope: &Scope,
    types: &[ValueType],
    values: &[Ast],
) -> Result<Vec<Expr>, BindFault>
    requires { length values.now ≡ length types.now }
    ensures { Gives BindFault.NoMemory (λ v. v.items) result (each_behind (spec.next_value schema.now scope.now types.now) [] values.now) }
{
    let mut bound = Vec::with_capacity(alloc, values.len())?;
    for (place, value) in values.iter().enumerate() {
        bound.push(taken_by(alloc, types[place], schema, scope, value)?)?;
    }
    Ok(bound)
}

/// A row, which has one value for each column.
#[tactic(auto, unfolding(crate::specs::Inserts::row_of))]
fn row_of(
    alloc: Global,
    schema: &Schema,
    scope: &Scope,
    types: &[ValueType],
    row: &AstRow,
) -> Result<ExprRow, BindFault>
    ensures { Gives BindFault.NoMemory (λ r. r) result (spec.row_of schema.now scope.now types.now row.now) }
{
    let values = row.values.items();
    if values.len() != types.len() {
        return Err(BindFault::WrongCount);
    }
    let values = values_of(alloc, schema, scope, types, values)?;
    Ok(ExprRow {
        values: ExprList::new(values),
    })
}

/// The rows in their order, over the types of their values.
fn typed_rows(
    alloc: Global,
    schema: &Schema,
    scope: &Scope,
    types: &[ValueType],
    rows: &[AstRow],
) -> Result<Vec<ExprRow>, BindFault>
    ensures { Gives BindFault.NoMemory (λ v. v.items) result (each (spec.row_of schema.now scope.now types.now) rows.now) }
{
    let mut bound = Vec::new(alloc);
    for row in rows {
        bound.push(row_of(alloc, schema, scope, types, row)?)?;
    }
    Ok(bound)
}

/// The rows in their order, with a value for each column at the places.
#[tactic(auto, unfolding(crate::specs::Inserts::rows_of))]
fn rows_of(
    alloc: Global,
    schema: &Schema,
    columns: &[ColumnDef],
    places: &[u8],
    rows: &[AstRow],
) -> Result<Vec<ExprRow>, BindFault>
    requires { All (λ place. place < length columns.now) places.now }
    ensures { Gives BindFault.NoMemory (λ v. v.items) result (spec.rows_of schema.now columns.now places.now rows.now) }
{
    let types = place_types(alloc, columns, places)?;
    let scope = nowhere();
    let bound = typed_rows(alloc, schema, &scope, types.as_slice(), rows);
    drop(scope);
    bound
}

/// An INSERT: the table, the list of columns, and the rows.
#[tactic(auto, unfolding(crate::specs::Inserts::insert_of))]
pub(crate) fn insert_of(
    alloc: Global,
    schema: &Schema,
    insert: &InsertStmt,
) -> Result<BoundInsert, BindFault>
    ensures { Gives BindFault.NoMemory (λ b. b) result (spec.insert_of schema.now insert.now) }
{
    let table = table_named(alloc, schema, &insert.table)?;
    let columns = columns_of(schema, table);
    let places = listed_columns(alloc, columns, insert.columns.items())?;
    let rows = rows_of(
        alloc,
        schema,
        columns,
        places.as_slice(),
        insert.rows.items(),
    )?;
    Ok(BoundInsert {
        table,
        columns: PlaceList::new(places),
        rows: ExprRowList::new(rows),
    })
}
