//! Texts that declare a table or an index, without the lines that they stand in.
ghost use Rattle.std.specs.Prelude.{◌<◌, length};
ghost use Rattle.geo_schema.specs.Schemas.{IsSchema, shown_only};

use geo_base::copy_items;
use geo_schema::{Schema, TableDef};
use schema_text::{read_index, read_table};
use std::alloc::Global;
use std::test::Fail;

/// A table's name, how many columns it has, the key's places, and its last column: name, kind and whether it is NOT NULL.
fn written(alloc: Global, table: &TableDef) -> Result<String, Fail> {
    let columns = table.columns.items();
    let key = table.key.items();
    match columns.last() {
        Some(column) => {
            let (name, kind, set) = (column.name.text(), column.kind, column.not_null);
            let front = format!(in alloc; "{} {} {:?}", table.name.text(), columns.len(), key)?;
            Ok(format!(in alloc; "{} {} {:?} {}", front.as_str(), name, kind, set)?)
        }
        None => Err("no column".into()),
    }
}

/// The table that the text declares, if it isn't too long for a test.
fn table_of(alloc: Global, text: &str) -> Result<Option<TableDef>, Fail> {
    if text.len() < 1000 {
        Ok(read_table(alloc, text)?)
    } else {
        Err("a long text".into())
    }
}

fn is_table(alloc: Global, text: &str, wanted: &str) -> Result<bool, Fail> {
    match table_of(alloc, text)? {
        Some(table) => Ok(written(alloc, &table)?.as_str() == wanted),
        None => Ok(wanted == "none"),
    }
}

const TABLES: [(&str, &str); 14] = [
    ("c (k INT KEY)", "c 1 [0] k Int false"),
    (
        "c(k int not null key,t text( 007 ) ,u Text,w BOOL KEY)",
        "c 4 [0, 3] w Truth false",
    ),
    (
        " c (k INT, t TEXT(20) NOT NULL)",
        "c 2 [] t Text { max: 20 } true",
    ),
    ("c (t TEXT)", "c 1 [] t Text { max: 1024 } false"),
    (
        "c (t TEXT(0) NOT NULL KEY)",
        "c 1 [0] t Text { max: 0 } true",
    ),
    ("c (k INT, k INT)", "c 2 [] k Int false"),
    ("", "none"),
    ("c", "none"),
    ("c ()", "none"),
    ("c (k INT,)", "none"),
    ("c (k INT KEY NOT NULL)", "none"),
    ("c (k TEXT(1025))", "none"),
    ("int (k INT)", "none"),
    ("c (k INT) ;", "none"),
];

#[test]
fn texts_of_tables(rt: HostRuntime) -> Result<(), Fail> {
    for (text, wanted) in TABLES {
        assert!(rt; is_table(rt.alloc(), text, wanted)?, "{text}");
    }
    Ok(())
}

/// Two tables, `a` with the columns k and v, and `b` with k.
fn two_tables(alloc: Global) -> Result<Vec<TableDef>, Fail> {
    let mut tables = Vec::new(alloc);
    for text in ["a (k INT KEY, v TEXT)", "b (k INT KEY)"] {
        match table_of(alloc, text)? {
            Some(table) => tables.push(table)?,
            None => return Err("no table".into()),
        }
    }
    Ok(tables)
}

/// The index on one of the tables: its name, that table's number, and the columns' places.
fn index_written(alloc: Global, tables: &[TableDef], name: &str, text: &str) -> Result<String, Fail>
    requires name { length name.now < 1000 }
    requires text { length text.now < 1000 }
    requires schema { IsSchema (shown_only tables.now) }
{
    match read_index(alloc, tables, name, text)? {
        Some((at, index)) => {
            let places = index.columns.items();
            Ok(format!(in alloc; "{} {} {:?}", index.name.text(), at, places)?)
        }
        None => Ok(format!(in alloc; "none")?),
    }
}

/// The same of the two tables, for a name and a text that aren't too long for a test.
fn index_of(alloc: Global, name: &str, text: &str) -> Result<String, Fail> {
    if name.len() >= 1000 || text.len() >= 1000 {
        return Err("a long text".into());
    }
    let tables = two_tables(alloc)?;
    match Schema::new(alloc, copy_items(alloc, &tables)?) {
        Ok(_) => index_written(alloc, &tables, name, text),
        Err(_) => Err("no schema".into()),
    }
}

const INDEXES: [(&str, &str, &str); 11] = [
    ("i", "a (v)", "i 0 [1]"),
    ("a", " a(v,k)", "a 0 [1, 0]"),
    ("i", "b (k)", "i 1 [0]"),
    ("i", "a (v, v)", "i 0 [1, 1]"),
    ("i", "c (k)", "none"),
    ("i", "b (v)", "none"),
    ("i", "a ()", "none"),
    ("i", "a (v INT)", "none"),
    ("int", "a (v)", "none"),
    ("i j", "a (v)", "none"),
    ("", "a (v)", "none"),
];

#[test]
fn texts_of_indexes(rt: HostRuntime) -> Result<(), Fail> {
    for (name, text, wanted) in INDEXES {
        let found = index_of(rt.alloc(), name, text)?;
        assert!(rt; found.as_str() == wanted, "{name} on {text}");
    }
    Ok(())
}
