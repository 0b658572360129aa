//! What written columns mean.
ghost use Rattle.std.specs.Prelude.{◌≡◌, ◌≤◌, ◌<◌, length, IfOk, IfSome};
ghost use Rattle.geo_base.specs.Results.{Gives};
ghost use Rattle.geo_base.specs.declared.limits.TheConstants.{MAX_COLUMNS};
ghost use Rattle.geo_schema.specs.Rows.{is_in};
ghost use Rattle.sql_bind.specs.Names as names;

use crate::bound::ColumnNoList;
use crate::fault::BindFault;
use crate::scope::{Known, Scope, columns_of, known_columns};
use geo_base::{Duplicate, NoMemory, Printed, Txt, TxtFault};
use geo_schema::{ColumnDef, Kind, Schema};
use sql_ast::ColRef;
use sql_expr::ValueType;
use std::alloc::Global;

/// A column by its number through the left table and then the right one, and the type of its cells.
#[derive(Clone, Copy)]
pub(crate) struct Found {
    pub(crate) place: u16,
    pub(crate) value_type: ValueType,
}

/// The type of the cells of a column.
pub(crate) fn kind_type(kind: Kind) -> ValueType
    ensures { result ≡ names.kind_type kind }
{
    match kind {
        Kind::Int => ValueType::Int,
        Kind::Text { .. } => ValueType::Text,
        Kind::Truth => ValueType::Truth,
    }
}

/// The type of the column at the place.
pub(crate) fn type_at(columns: &[ColumnDef], place: u8) -> ValueType
    requires { place < length columns.now }
    ensures { result ≡ names.type_at columns.now place }
{
    kind_type(columns[place as usize].kind)
}

/// The place of the first column with the name.
fn place_of(columns: &[ColumnDef], name: &Txt) -> Option<usize>
    ensures place { result ≡ names.place_named columns.now name.now }
    ensures within { IfSome result (λ place. place < length columns.now) }
{
    columns.iter().position(|column| column.name == *name)
}

/// The place of the column with the name. Compares it with each column's.
pub(crate) fn place_named(columns: &[ColumnDef], name: &Txt) -> Option<u8>
    requires { length columns.now ≤ MAX_COLUMNS }
    ensures place { result ≡ names.place_named columns.now name.now }
    ensures within { IfSome result (λ place. place < length columns.now) }
{
    let place = place_of(columns, name)?;
    Some(place as u8)
}

/// The same, where INSERT or SET names the column.
pub(crate) fn column_named(
    alloc: Global,
    columns: &[ColumnDef],
    name: &Txt,
) -> Result<u8, BindFault>
    requires { length columns.now ≤ MAX_COLUMNS }
    ensures place { Gives BindFault.NoMemory (λ p. p) result (names.column_named columns.now name.now) }
    ensures within { IfOk result (λ place. place < length columns.now) }
{
    match place_named(columns, name) {
        Some(place) => Ok(place),
        None => Err(BindFault::NoColumn(name.copy(alloc)?)),
    }
}

/// The name of a column as it is written.
#[tactic(auto, unfolding(crate::specs::Names::written))]
fn written(alloc: Global, column: &ColRef) -> Result<Txt, NoMemory>
    ensures { IfOk result (λ name. name ≡ names.written column.now) }
{
    let mut text = String::new(alloc);
    column.print_to(&mut text)?;
    match Txt::new(alloc, text.as_str()) {
        Ok(name) => Ok(name),
        Err(TxtFault::TooLong) => column.name.copy(alloc),
        Err(TxtFault::NoMemory) => Err(NoMemory),
    }
}

/// Whether the column may be one of the table's.
fn is_meant(table: &Option<Txt>, known: &Known) -> bool
    ensures { result ≡ names.is_meant table.now known.now }
{
    match table {
        None => true,
        Some(table) => *table == known.name,
    }
}

/// A column of a table whose columns are numbered from `first` on.
fn found_at(first: u16, columns: &[ColumnDef], place: u8) -> Found
    requires place { place < length columns.now }
    requires first { first ≤ MAX_COLUMNS }
    ensures { result ≡ names.found_at first columns.now place }
{
    Found {
        place: first + place as u16,
        value_type: type_at(columns, place),
    }
}

/// The column of a table that a written one may be.
fn found_in(schema: &Schema, first: u16, column: &ColRef, known: &Option<Known>) -> Option<Found>
    requires { first ≤ MAX_COLUMNS }
    ensures { result ≡ names.found_in schema.now first column.now known.now }
{
    let Some(known) = known else {
        return None;
    };
    if !is_meant(&column.table, known) {
        return None;
    }
    let columns = columns_of(schema, known.table);
    match place_named(columns, &column.name) {
        Some(place) => Some(found_at(first, columns, place)),
        None => None,
    }
}

/// The column that is meant.
#[tactic(auto, unfolding(crate::specs::Names::found_of))]
fn found_of(
    alloc: Global,
    schema: &Schema,
    scope: &Scope,
    column: &ColRef,
) -> Result<Found, BindFault>
    ensures { Gives BindFault.NoMemory (λ f. f) result (names.found_of schema.now scope.now column.now) }
{
    let first = known_columns(schema, &scope.left).len() as u16;
    let left = found_in(schema, 0, column, &scope.left);
    let right = found_in(schema, first, column, &scope.right);
    match (left, right) {
        (None, None) => Err(BindFault::NoColumn(written(alloc, column)?)),
        (Some(found), None) => Ok(found),
        (None, Some(found)) => Ok(found),
        (Some(_), Some(_)) => Err(BindFault::Ambiguous(written(alloc, column)?)),
    }
}

/// Whether the column is one of the list's.
pub(crate) fn contains(places: &[u16], place: u16) -> bool
    ensures { result ≡ is_in places.now place }
{
    places.contains(&place)
}

/// Whether the column may stand there.
pub(crate) fn is_allowed(group: &Option<ColumnNoList>, place: u16) -> bool
    ensures { result ≡ names.is_allowed group.now place }
{
    match group {
        None => true,
        Some(group) => contains(group.items(), place),
    }
}

/// The column that is meant, which has to be one that may stand there. Compares its name with that of each
/// column of the tables, and its number with that of each column of GROUP BY, of which there are at most as
/// many as columns.
#[tactic(auto, unfolding(crate::specs::Names::column_meant))]
pub(crate) fn column_meant(
    alloc: Global,
    schema: &Schema,
    scope: &Scope,
    column: &ColRef,
) -> Result<Found, BindFault>
    ensures { Gives BindFault.NoMemory (λ f. f) result (names.column_meant schema.now scope.now column.now) }
{
    let found = found_of(alloc, schema, scope, column)?;
    if !is_allowed(&scope.group, found.place) {
        return Err(BindFault::NotGrouped(written(alloc, column)?));
    }
    Ok(found)
}
