//! The tables that statements are bound to: accounts, and customers with a key of two columns.
use geo_base::Txt;
use geo_schema::{ColumnDef, ColumnList, IndexList, Kind, PlaceList, Schema, TableDef};
use std::alloc::Global;
use std::test::Fail;

fn columns(alloc: Global, list: &[(&str, Kind)]) -> Result<ColumnList, Fail> {
    let mut columns = Vec::new(alloc);
    for (name, kind) in list {
        columns.push(ColumnDef {
            name: Txt::new(alloc, name)?,
            kind: *kind,
            not_null: false,
        })?;
    }
    Ok(ColumnList::new(columns))
}

/// A table of these columns, with the places of its key.
pub fn table(
    alloc: Global,
    name: &str,
    list: &[(&str, Kind)],
    key: &[u8],
) -> Result<TableDef, Fail> {
    Ok(TableDef {
        name: Txt::new(alloc, name)?,
        columns: columns(alloc, list)?,
        key: PlaceList::new(Vec::from_slice(alloc, key)?),
        indexes: IndexList::new(Vec::new(alloc)),
    })
}

/// The tables, in the order of their numbers.
pub fn tables(alloc: Global) -> Result<Vec<TableDef>, Fail> {
    let accounts = [("id", Kind::Int), ("amount", Kind::Int)];
    let customers = [
        ("id", Kind::Int),
        ("name", Kind::Text { max: 20 }),
        ("good", Kind::Truth),
        ("region", Kind::Int),
    ];
    let mut tables = Vec::new(alloc);
    tables.push(table(alloc, "acc", &accounts, &[0])?)?;
    tables.push(table(alloc, "cust", &customers, &[0, 3])?)?;
    Ok(tables)
}

/// The schema of these tables.
pub fn schema(alloc: Global) -> Result<Schema, Fail> {
    Ok(Schema::new(alloc, tables(alloc)?)?)
}
