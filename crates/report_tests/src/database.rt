//! The tables of the tests.
use geo_base::Txt;
use geo_schema::{PlaceList, Schema, UniqueDef};
use rows_kit::tables_of;
use std::alloc::Global;
use std::test::Fail;

/// Accounts, customers, whose key is their name and number, and truth values.
const TABLES: &str = "\
acc|id i,amount i|0|
cust|id i,name t|10|
free|id i,good b|0|";

/// These tables, with a unique of the customers' names: its hidden table is number 64.
pub fn database(alloc: Global) -> Result<Schema, Fail> {
    let unique = UniqueDef {
        name: Txt::new(alloc, "one_name")?,
        table: 1,
        columns: PlaceList::new(vec![in alloc; 1]?),
    };
    let uniques = vec![in alloc; unique]?;
    Ok(Schema::with_unique(alloc, tables_of(alloc, TABLES)?, uniques)?)
}
