//! The tables that plans are of: 0 accounts, 1 customers, 2 events, 3 orders and 4 notes.
//!
//! The types of their columns don't matter to a plan, so all hold numbers.
use geo_base::Txt;
use geo_schema::{ColumnDef, ColumnList, IndexDef, IndexList, Kind, PlaceList, Schema, TableDef};
use std::alloc::Global;
use std::test::Fail;

fn columns(alloc: Global, names: &[&str]) -> Result<ColumnList, Fail> {
    let mut columns = Vec::new(alloc);
    for name in names {
        columns.push(ColumnDef {
            name: Txt::new(alloc, name)?,
            kind: Kind::Int,
            not_null: false,
        })?;
    }
    Ok(ColumnList::new(columns))
}

fn places(alloc: Global, places: &[u8]) -> Result<PlaceList, Fail> {
    Ok(PlaceList::new(Vec::from_slice(alloc, places)?))
}

fn indexes(alloc: Global, list: &[(&str, &[u8])]) -> Result<IndexList, Fail> {
    let mut indexes = Vec::new(alloc);
    for (name, columns) in list {
        indexes.push(IndexDef {
            name: Txt::new(alloc, name)?,
            columns: places(alloc, columns)?,
        })?;
    }
    Ok(IndexList::new(indexes))
}

/// A table of these columns, with the places of its key and those of its indexes.
fn table(
    alloc: Global,
    name: &str,
    names: &[&str],
    key: &[u8],
    list: &[(&str, &[u8])],
) -> Result<TableDef, Fail> {
    Ok(TableDef {
        name: Txt::new(alloc, name)?,
        columns: columns(alloc, names)?,
        key: places(alloc, key)?,
        indexes: indexes(alloc, list)?,
    })
}

/// Accounts have an index of their owners. Customers have none. The key of events has two columns, of which the second
/// one stands first; orders have four indexes, three of them of two columns or three; notes have a key of three
/// columns.
pub fn schema(alloc: Global) -> Result<Schema, Fail> {
    let mut tables = Vec::new(alloc);
    tables.push(table(
        alloc,
        "acc",
        &["id", "owner", "amount"],
        &[0],
        &[("by_owner", &[1])],
    )?)?;
    tables.push(table(alloc, "cust", &["id", "name"], &[0], &[])?)?;
    tables.push(table(
        alloc,
        "event",
        &["region", "at", "kind"],
        &[1, 0],
        &[("by_kind", &[2]), ("by_at", &[1, 2])],
    )?)?;
    tables.push(table(
        alloc,
        "orders",
        &["id", "a", "b", "c"],
        &[0],
        &[
            ("by_a_b", &[1, 2]),
            ("by_b", &[2]),
            ("by_c_a_b", &[3, 1, 2]),
            ("by_c", &[3]),
        ],
    )?)?;
    tables.push(table(alloc, "note", &["x", "y", "z", "text"], &[0, 1, 2], &[])?)?;
    Ok(Schema::new(alloc, tables)?)
}
