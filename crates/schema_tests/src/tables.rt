//! Tables as texts: `NAME|COLUMNS|KEY|INDEXES`, where columns have commas between them, and indexes.
//!
//! A column is its name, then `:` and its kind where that isn't a number: `truth`, or the most bytes of a
//! text. A `!` behind it says that it isn't null. An index is its name, `:` and its places. A place is one
//! digit. A name alone is the table of that name whose one column `k` is its key.
//!
//! Uniques have commas between them, and each is `NAME:TABLE:PLACES`, with its table's number.
use geo_base::Txt;
use geo_schema::{
    ColumnDef, ColumnList, IndexDef, IndexList, Kind, PlaceList, Schema, TableDef, UniqueDef,
};
use std::alloc::Global;
use std::test::Fail;

fn kind_of(text: &str) -> Result<Kind, Fail> {
    match text {
        "" => Ok(Kind::Int),
        "truth" => Ok(Kind::Truth),
        _ => Ok(Kind::Text { max: text.parse()? }),
    }
}

fn column_of(alloc: Global, text: &str) -> Result<ColumnDef, Fail> {
    let (text, not_null) = match text.strip_suffix('!') {
        Some(front) => (front, true),
        None => (text, false),
    };
    let (name, kind) = text.split_once(':').unwrap_or((text, ""));
    Ok(ColumnDef {
        name: Txt::new(alloc, name)?,
        kind: kind_of(kind)?,
        not_null,
    })
}

fn columns_of(alloc: Global, text: &str) -> Result<ColumnList, Fail> {
    let mut columns = Vec::new(alloc);
    if !text.is_empty() {
        for part in text.split(',') {
            columns.push(column_of(alloc, part)?)?;
        }
    }
    Ok(ColumnList::new(columns))
}

fn places_of(alloc: Global, digits: &str) -> Result<PlaceList, Fail> {
    let mut places = Vec::new(alloc);
    for digit in digits.as_bytes() {
        places.push(digit.wrapping_sub(b'0'))?;
    }
    Ok(PlaceList::new(places))
}

fn index_of(alloc: Global, text: &str) -> Result<IndexDef, Fail> {
    let (name, places) = text.split_once(':').ok_or("an index without places")?;
    Ok(IndexDef {
        name: Txt::new(alloc, name)?,
        columns: places_of(alloc, places)?,
    })
}

fn indexes_of(alloc: Global, text: &str) -> Result<IndexList, Fail> {
    let mut indexes = Vec::new(alloc);
    if !text.is_empty() {
        for part in text.split(',') {
            indexes.push(index_of(alloc, part)?)?;
        }
    }
    Ok(IndexList::new(indexes))
}

fn table_of(alloc: Global, text: &str) -> Result<TableDef, Fail> {
    let (name, rest) = text.split_once('|').unwrap_or((text, "k|0|"));
    let (columns, rest) = rest.split_once('|').ok_or("a table without a key")?;
    let (key, indexes) = rest.split_once('|').ok_or("a table without indexes")?;
    Ok(TableDef {
        name: Txt::new(alloc, name)?,
        columns: columns_of(alloc, columns)?,
        key: places_of(alloc, key)?,
        indexes: indexes_of(alloc, indexes)?,
    })
}

/// The tables of texts with a `/` between them; of no text, none.
pub fn tables_of(alloc: Global, text: &str) -> Result<Vec<TableDef>, Fail> {
    let mut tables = Vec::new(alloc);
    if !text.is_empty() {
        for part in text.split('/') {
            tables.push(table_of(alloc, part)?)?;
        }
    }
    Ok(tables)
}

/// The schema of the tables of a text.
pub fn schema_of(alloc: Global, text: &str) -> Result<Schema, Fail> {
    Ok(Schema::new(alloc, tables_of(alloc, text)?)?)
}

fn unique_of(alloc: Global, text: &str) -> Result<UniqueDef, Fail> {
    let (name, rest) = text.split_once(':').ok_or("a unique without a table")?;
    let (table, places) = rest.split_once(':').ok_or("a unique without columns")?;
    let table = table.parse()?;
    Ok(UniqueDef {
        name: Txt::new(alloc, name)?,
        table,
        columns: places_of(alloc, places)?,
    })
}

/// The uniques of a text; of no text, none.
pub fn uniques_of(alloc: Global, text: &str) -> Result<Vec<UniqueDef>, Fail> {
    let mut uniques = Vec::new(alloc);
    if !text.is_empty() {
        for part in text.split(',') {
            uniques.push(unique_of(alloc, part)?)?;
        }
    }
    Ok(uniques)
}
