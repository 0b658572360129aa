//! The tables of a statement, and where their columns may stand.
ghost use Rattle.std.specs.Prelude.{◌≡◌, ◌≤◌, length, IfOk};
ghost use Rattle.geo_base.specs.Results.{Gives};
ghost use Rattle.geo_base.specs.declared.limits.TheConstants.{MAX_COLUMNS};
ghost use Rattle.geo_schema.specs.Schemas.{table_at};
ghost use Rattle.sql_bind.specs.Names as names;

use crate::bound::ColumnNoList;
use crate::fault::BindFault;
use geo_base::{Duplicate, NoMemory, TableNo, Txt};
use geo_schema::{ColumnDef, Schema};
use sql_ast::TableRef;
use std::alloc::Global;

/// A table of a statement, and the name that it is known by.
#[derive(Drop)]
pub(crate) struct Known {
    pub(crate) name: Txt,
    pub(crate) table: TableNo,
}

/// The tables whose columns may stand in an expression.
#[derive(Drop)]
pub(crate) struct Scope {
    pub(crate) left: Option<Known>,
    pub(crate) right: Option<Known>,
    /// The columns of GROUP BY, where only these may stand.
    pub(crate) group: Option<ColumnNoList>,
}

impl Duplicate for Known {
    fn copy(&self, alloc: Global) -> Result<Known, NoMemory> {
        Ok(Known {
            name: self.name.copy(alloc)?,
            table: self.table,
        })
    }
}

/// The number of the table that is shown under the name. Compares it with each table's.
pub(crate) fn table_named(alloc: Global, schema: &Schema, name: &Txt) -> Result<TableNo, BindFault>
    ensures { Gives BindFault.NoMemory (λ n. n) result (names.table_named schema.now name.now) }
{
    match schema.find(name) {
        Some(number) => Ok(number),
        None => Err(BindFault::NoTable(name.copy(alloc)?)),
    }
}

/// The name that the table of a query is known by.
fn known_name(alloc: Global, table: &TableRef) -> Result<Txt, NoMemory>
    ensures { IfOk result (λ name. name ≡ names.known_name table.now) }
{
    match &table.alias {
        Some(alias) => alias.copy(alloc),
        None => table.name.copy(alloc),
    }
}

/// A table that a query names.
#[tactic(auto, unfolding(crate::specs::Names::known_of))]
pub(crate) fn known_of(alloc: Global, schema: &Schema, table: &TableRef) -> Result<Known, BindFault>
    ensures { Gives BindFault.NoMemory (λ k. k) result (names.known_of schema.now table.now) }
{
    let number = table_named(alloc, schema, &table.name)?;
    Ok(Known {
        name: known_name(alloc, table)?,
        table: number,
    })
}

/// The columns of the table with the number.
pub(crate) fn columns_of<'a>(schema: &'a Schema, table: TableNo) -> &'a [ColumnDef]
    ensures columns { result.now ≡ names.columns_of schema.now table }
    ensures few { length result.now ≤ MAX_COLUMNS }
{
    match schema.table(table) {
        Some(table) => table.columns.items(),
        None => &[],
    }
}

/// The places of the key's columns of the table with the number.
pub(crate) fn key_of<'a>(schema: &'a Schema, table: TableNo) -> &'a [u8]
    ensures { result.now ≡ (table_at schema.now table).key }
{
    match schema.table(table) {
        Some(table) => table.key.items(),
        None => &[],
    }
}

/// The columns of a table of a statement, and none where it is missing.
pub(crate) fn known_columns<'a>(schema: &'a Schema, known: &Option<Known>) -> &'a [ColumnDef]
    ensures columns { result.now ≡ names.known_columns schema.now known.now }
    ensures few { length result.now ≤ MAX_COLUMNS }
{
    match known {
        Some(known) => columns_of(schema, known.table),
        None => &[],
    }
}

/// The columns of the one table of an UPDATE or DELETE.
pub(crate) fn alone(alloc: Global, name: &Txt, table: TableNo) -> Result<Scope, NoMemory>
    ensures { IfOk result (λ s. s ≡ names.alone name.now table) }
{
    let known = Known {
        name: name.copy(alloc)?,
        table,
    };
    Ok(Scope {
        left: Some(known),
        right: None,
        group: None,
    })
}

/// No columns, as in the values of INSERT.
pub(crate) fn nowhere() -> Scope
    ensures { result ≡ names.nowhere }
{
    Scope {
        left: None,
        right: None,
        group: None,
    }
}
