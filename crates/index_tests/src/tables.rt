//! Schemas as texts: tables as `rows_kit` reads them, and where there is a unique of the first table, its name and the
//! place of its column behind `unique ` in a last line.
use geo_base::Txt;
use geo_schema::{PlaceList, Schema, UniqueDef};
use rows_kit::tables_of;
use std::alloc::Global;
use std::test::Fail;

fn unique_of(alloc: Global, text: &str) -> Result<UniqueDef, Fail> {
    let (name, place) = text.split_once(' ').ok_or("a unique without a column")?;
    let place: u8 = place.parse()?;
    Ok(UniqueDef {
        name: Txt::new(alloc, name)?,
        table: 0,
        columns: PlaceList::new(vec![in alloc; place]?),
    })
}

/// The schema of the lines.
pub fn schema_of(alloc: Global, lines: &str) -> Result<Schema, Fail> {
    let mut uniques = Vec::new(alloc);
    let tables = match lines.split_once("\nunique ") {
        Some((tables, text)) => {
            uniques.push(unique_of(alloc, text)?)?;
            tables
        }
        None => lines,
    };
    Ok(Schema::with_unique(alloc, tables_of(alloc, tables)?, uniques)?)
}
