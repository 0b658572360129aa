//! Tables as texts: `NAME|COLUMNS|KEY|INDEXES`, one a line.
//!
//! Columns have commas between them, and each is its name and, behind a space, `i` for numbers, `b` for truth values, `t`
//! for texts of at most 20 bytes or `x` for texts of at most 1,024, and a capital letter where it isn't null. A place is
//! one digit, or a letter from `a` for 10 on. An index is its name, a space and its places; without a name these are its
//! name too. Indexes have commas between them.
use geo_base::Txt;
use geo_schema::{ColumnDef, ColumnList, IndexDef, IndexList, Kind, PlaceList, Schema, TableDef};
use std::alloc::Global;
use std::test::Fail;

fn kind_of(letter: &str) -> Result<Kind, Fail> {
    Ok(match letter {
        "i" | "I" => Kind::Int,
        "b" | "B" => Kind::Truth,
        "t" | "T" => Kind::Text { max: 20 },
        "x" | "X" => Kind::Text { max: 1_024 },
        _ => return Err("a column of no kind".into()),
    })
}

fn column_of(alloc: Global, text: &str) -> Result<ColumnDef, Fail> {
    let (name, kind) = text.split_once(' ').ok_or("a column without a kind")?;
    Ok(ColumnDef {
        name: Txt::new(alloc, name)?,
        kind: kind_of(kind)?,
        not_null: matches!(kind, "I" | "B" | "T" | "X"),
    })
}

fn columns_of(alloc: Global, texts: &str) -> Result<ColumnList, Fail> {
    let mut columns = Vec::new(alloc);
    for text in texts.split(',') {
        columns.push(column_of(alloc, text)?)?;
    }
    Ok(ColumnList::new(columns))
}

fn place_of(digit: u8) -> u8 {
    if digit < b'a' {
        digit.wrapping_sub(b'0')
    } else {
        digit - b'a' + 10
    }
}

fn places_of(alloc: Global, digits: &str) -> Result<PlaceList, Fail> {
    let mut places = Vec::new(alloc);
    for digit in digits.as_bytes() {
        places.push(place_of(*digit))?;
    }
    Ok(PlaceList::new(places))
}

fn index_of(alloc: Global, text: &str) -> Result<IndexDef, Fail> {
    let (name, digits) = match text.split_once(' ') {
        Some(parts) => parts,
        None => (text, text),
    };
    Ok(IndexDef {
        name: Txt::new(alloc, name)?,
        columns: places_of(alloc, digits)?,
    })
}

fn indexes_of(alloc: Global, text: &str) -> Result<IndexList, Fail> {
    let mut indexes = Vec::new(alloc);
    if !text.is_empty() {
        for index in text.split(',') {
            indexes.push(index_of(alloc, index)?)?;
        }
    }
    Ok(IndexList::new(indexes))
}

fn table_of(alloc: Global, text: &str) -> Result<TableDef, Fail> {
    let (name, rest) = text.split_once('|').ok_or("a table without columns")?;
    let (columns, rest) = rest.split_once('|').ok_or("a table without a key")?;
    let (key, indexes) = rest.split_once('|').ok_or("a table without indexes")?;
    Ok(TableDef {
        name: Txt::new(alloc, name)?,
        columns: columns_of(alloc, columns)?,
        key: places_of(alloc, key)?,
        indexes: indexes_of(alloc, indexes)?,
    })
}

/// The tables of a text.
pub fn tables_of(alloc: Global, text: &str) -> Result<Vec<TableDef>, Fail> {
    let mut tables = Vec::new(alloc);
    for line in text.lines() {
        tables.push(table_of(alloc, line)?)?;
    }
    Ok(tables)
}

/// The schema of the tables of a text.
pub fn schema_of(alloc: Global, text: &str) -> Result<Schema, Fail> {
    Ok(Schema::new(alloc, tables_of(alloc, text)?)?)
}
