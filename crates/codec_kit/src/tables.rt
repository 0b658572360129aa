//! Tables as texts, as `acc (id INT KEY, amount INT)`.
use geo_base::Txt;
use geo_schema::{PlaceList, Schema, TableDef, UniqueDef};
use schema_text::read_table;
use std::alloc::Global;
use std::test::Fail;

fn table_of(alloc: Global, text: &str) -> Result<TableDef, Fail> {
    if text.len() > 1000 {
        return Err("a long text".into());
    }
    Ok(read_table(alloc, text)?.ok_or("no table")?)
}

/// The schema of a table.
fn schema_of(alloc: Global, text: &str) -> Result<Schema, Fail> {
    let tables = vec![in alloc; table_of(alloc, text)?]?;
    Ok(Schema::new(alloc, tables)?)
}

/// A table whose key is its last column and then its first, as no text declares it.
fn places(alloc: Global) -> Result<TableDef, Fail> {
    let key = PlaceList::new(vec![in alloc; 2, 0]?);
    let mut table = table_of(alloc, "place (owner TEXT(8) KEY, open BOOL, no INT KEY)")?;
    table.key = key;
    Ok(table)
}

/// Two tables, of which the second one is that of places.
pub fn two_tables(alloc: Global) -> Result<Schema, Fail> {
    let mut tables = Vec::new(alloc);
    tables.push(table_of(alloc, "acc (id INT KEY, amount INT)")?)?;
    tables.push(places(alloc)?)?;
    Ok(Schema::new(alloc, tables)?)
}

/// A unique of the second column of the first table.
fn one_name(alloc: Global) -> Result<UniqueDef, Fail> {
    let columns = PlaceList::new(vec![in alloc; 1]?);
    Ok(UniqueDef {
        name: Txt::new(alloc, "one_name")?,
        table: 0,
        columns,
    })
}

/// A table and its unique, so that there is a hidden table of the number 64: its key is a name, and behind it stands
/// the key of the row with that name.
fn with_unique(alloc: Global) -> Result<Schema, Fail> {
    let uniques = vec![in alloc; one_name(alloc)?]?;
    let tables = vec![in alloc; table_of(alloc, "man (id INT KEY, name TEXT(8))")?]?;
    Ok(Schema::with_unique(alloc, tables, uniques)?)
}

/// The schema with the name.
pub fn schema_named(alloc: Global, name: &str) -> Result<Schema, Fail> {
    match name {
        "numbers" => schema_of(alloc, "acc (id INT KEY, amount INT)"),
        "texts" => schema_of(alloc, "acc (id INT KEY, amount TEXT)"),
        "narrow" => schema_of(alloc, "acc (id INT KEY, amount INT NOT NULL, note TEXT(8))"),
        "unique" => with_unique(alloc),
        _ => two_tables(alloc),
    }
}
