//! Texts that declare tables.
ghost use Rattle.std.specs.Prelude.{◌≡◌, ◌≤◌, ◌<◌, ◌^◌, Some, map, length, IfOk, IfSome};
ghost use Rattle.std.specs.Option.{option_map, option_and_then};
ghost use Rattle.geo_base.specs.declared.limits.TheConstants.{MAX_COLUMNS};
ghost use Rattle.geo_schema.specs.declared.table.TableDef.{TableDef};
ghost use Rattle.schema_text.specs.Spelling.{IsTableText};
ghost use Rattle.schema_text.specs.Tables.{key_places, table_with};
ghost use Rattle.schema_text.specs.inner.Texts as spec;

use crate::column::Column;
use crate::columns::column_of;
use crate::listed::listed;
use crate::mark::{Mark, marks_of};
use geo_base::limits::MAX_COLUMNS;
use geo_base::{Duplicate, NoMemory, Txt};
use geo_schema::{ColumnDef, ColumnList, IndexList, PlaceList, TableDef};
use std::alloc::Global;

/// The columns, if each item is one.
fn each_column(alloc: Global, items: &[&[Mark]]) -> Result<Option<Vec<Column>>, NoMemory>
    ensures count { IfOk result (λ found. IfSome found (λ columns. length columns.items ≡ length items.now)) }
    ensures columns { IfOk result (λ found. option_map (λ columns. columns.items) found ≡ spec.all_read spec.column_of (map (λ item. item.now) items.now)) }
{
    let mut columns = Vec::new(alloc);
    for item in items {
        match column_of(alloc, item)? {
            Some(column) => columns.push(column)?,
            None => return Ok(None),
        }
    }
    Ok(Some(columns))
}

/// The columns, of which there may be at most 32.
#[tactic(auto, unfolding(crate::specs::inner::Texts::columns_of))]
fn columns_of(alloc: Global, items: &[&[Mark]]) -> Result<Option<Vec<Column>>, NoMemory>
    ensures columns { IfOk result (λ found. option_map (λ columns. columns.items) found ≡ spec.columns_of (map (λ item. item.now) items.now)) }
    ensures few { IfOk result (λ found. IfSome found (λ columns. length columns.items ≤ MAX_COLUMNS)) }
{
    if items.len() <= MAX_COLUMNS {
        each_column(alloc, items)
    } else {
        Ok(None)
    }
}

/// The places of the columns that are of the key.
fn key_places(alloc: Global, columns: &[Column]) -> Result<Vec<u8>, NoMemory>
    requires { length columns.now ≤ MAX_COLUMNS }
    ensures { IfOk result (λ places. places.items ≡ key_places 0 columns.now) }
{
    let mut places = Vec::new(alloc);
    for (place, column) in columns.iter().enumerate() {
        if column.is_key {
            places.push(place as u8)?;
        }
    }
    Ok(places)
}

/// The columns alone.
fn definitions(alloc: Global, columns: Vec<Column>) -> Result<Vec<ColumnDef>, NoMemory>
    ensures { IfOk result (λ defs. defs.items ≡ map (λ column. column.def) columns.items) }
{
    let mut defs = Vec::with_capacity(alloc, columns.len())?;
    for column in columns {
        defs.push(column.def)?;
    }
    Ok(defs)
}

/// The table with the name and the columns, and no index.
fn table_with(alloc: Global, name: &Txt, columns: Vec<Column>) -> Result<TableDef, NoMemory>
    requires { length columns.items ≤ MAX_COLUMNS }
    ensures { IfOk result (λ table. table ≡ table_with name.now columns.items) }
{
    let key = PlaceList::new(key_places(alloc, columns.as_slice())?);
    let columns = ColumnList::new(definitions(alloc, columns)?);
    Ok(TableDef {
        name: name.copy(alloc)?,
        columns,
        key,
        indexes: IndexList::new(Vec::new(alloc)),
    })
}

/// The columns of a list in parentheses.
fn listed_columns(alloc: Global, marks: &[Mark]) -> Result<Option<Vec<Column>>, NoMemory>
    ensures columns { IfOk result (λ found. option_map (λ columns. columns.items) found ≡ option_and_then spec.columns_of (spec.listed marks.now)) }
    ensures few { IfOk result (λ found. IfSome found (λ columns. length columns.items ≤ MAX_COLUMNS)) }
{
    match listed(alloc, marks)? {
        Some(items) => columns_of(alloc, items.as_slice()),
        None => Ok(None),
    }
}

/// A table: its name, and its columns in parentheses.
#[tactic(auto, unfolding(crate::specs::inner::Texts::table_of))]
fn table_of(alloc: Global, marks: &[Mark]) -> Result<Option<TableDef>, NoMemory>
    ensures { IfOk result (λ found. found ≡ spec.table_of marks.now) }
{
    let [Mark::Name(name), rest @ ..] = marks else {
        return Ok(None);
    };
    match listed_columns(alloc, rest)? {
        Some(columns) => Ok(Some(table_with(alloc, name, columns)?)),
        None => Ok(None),
    }
}

/// The table that the text declares, by the steps of the code.
#[tactic(auto, unfolding(crate::specs::inner::Texts::declared_table))]
fn declared_table(alloc: Global, text: &str) -> Result<Option<TableDef>, NoMemory>
    requires { length text.now < 2 ^ 32 }
    ensures { IfOk result (λ found. found ≡ spec.declared_table text.now) }
{
    match marks_of(alloc, text)? {
        Some(marks) => table_of(alloc, marks.as_slice()),
        None => Ok(None),
    }
}

/// The table that the text declares: its name, and behind it in parentheses at most 32 columns. The columns
/// are tested by their spelling alone. Takes one pass over the text.
pub fn read_table(alloc: Global, text: &str) -> Result<Option<TableDef>, NoMemory>
    requires { length text.now < 2 ^ 32 }
    ensures declared { IfOk result (λ found. IfSome found (λ table. IsTableText text.now table × (length table.columns ≤ MAX_COLUMNS))) }
    ensures only { (table : TableDef) → IsTableText text.now table → length table.columns ≤ MAX_COLUMNS → IfOk result (λ found. found ≡ Some table) }
{
    declared_table(alloc, text)
}
