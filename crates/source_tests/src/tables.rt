//! Tables as texts: `NAME|COLUMNS|KEY|INDEXES`, with a `/` between them.
//!
//! Columns have commas between them, and hold numbers. A place is one digit. An index is its places, which
//! are its name too, and indexes have commas between them.
ghost use Rattle.std.specs.Prelude.{IsTrue};
ghost use Rattle.geo_schema.specs.Indexes.{HasIndex};

use geo_base::{TableNo, Txt};
use geo_schema::{ColumnDef, ColumnList, IndexDef, IndexList, Kind, PlaceList, Schema, TableDef};
use std::alloc::Global;
use std::test::Fail;

fn columns_of(alloc: Global, names: &str) -> Result<ColumnList, Fail> {
    let mut columns = Vec::new(alloc);
    for name in names.split(',') {
        columns.push(ColumnDef {
            name: Txt::new(alloc, name)?,
            kind: Kind::Int,
            not_null: false,
        })?;
    }
    Ok(ColumnList::new(columns))
}

fn places_of(alloc: Global, digits: &str) -> Result<PlaceList, Fail> {
    let mut places = Vec::new(alloc);
    for digit in digits.as_bytes() {
        places.push(digit.wrapping_sub(b'0'))?;
    }
    Ok(PlaceList::new(places))
}

fn index_of(alloc: Global, digits: &str) -> Result<IndexDef, Fail> {
    Ok(IndexDef {
        name: Txt::new(alloc, digits)?,
        columns: places_of(alloc, digits)?,
    })
}

fn indexes_of(alloc: Global, text: &str) -> Result<IndexList, Fail> {
    let mut indexes = Vec::new(alloc);
    if !text.is_empty() {
        for digits in text.split(',') {
            indexes.push(index_of(alloc, digits)?)?;
        }
    }
    Ok(IndexList::new(indexes))
}

fn table_of(alloc: Global, text: &str) -> Result<TableDef, Fail> {
    let (name, rest) = text.split_once('|').ok_or("a table without columns")?;
    let (columns, rest) = rest.split_once('|').ok_or("a table without a key")?;
    let (key, indexes) = rest.split_once('|').ok_or("a table without indexes")?;
    Ok(TableDef {
        name: Txt::new(alloc, name)?,
        columns: columns_of(alloc, columns)?,
        key: places_of(alloc, key)?,
        indexes: indexes_of(alloc, indexes)?,
    })
}

/// The schema of the tables of a text.
pub fn schema_of(alloc: Global, text: &str) -> Result<Schema, Fail> {
    let mut tables = Vec::new(alloc);
    for part in text.split('/') {
        tables.push(table_of(alloc, part)?)?;
    }
    Ok(Schema::new(alloc, tables)?)
}

/// Whether the schema has the table, and the table the index.
pub fn has_index(schema: &Schema, table: TableNo, index: u8) -> bool
    ensures { IsTrue result → HasIndex schema.now table index }
{
    match schema.table(table) {
        Some(table) => usize::from(index) < table.indexes.items().len(),
        None => false,
    }
}
