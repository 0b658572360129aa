//! Hidden tables of uniques: their numbers, columns, keys and rows.
use crate::cells::cells_of;
use crate::tables::{tables_of, uniques_of};
use geo_base::{Duplicate, RowImage, Txt};
use geo_schema::{ColumnDef, Kind, Schema, TableDef};
use std::alloc::Global;
use std::test::Fail;

/// People with a key of two columns that isn't in their order, and two uniques, of which the second has a
/// column of the key.
const TABLES: &str = "other/people|id,name:20,here:truth,year|20|i:3";

const UNIQUES: &str = "one_name:1:1,born:1:30";

/// A copy of the schema of these tables and uniques.
fn schema(alloc: Global) -> Result<Schema, Fail> {
    let tables = tables_of(alloc, TABLES)?;
    let schema = Schema::with_unique(alloc, tables, uniques_of(alloc, UNIQUES)?)?;
    Ok(schema.copy(alloc)?)
}

fn column_text(alloc: Global, column: &ColumnDef) -> Result<String, Fail> {
    let end = if column.not_null { "!" } else { "" };
    match column.kind {
        Kind::Int => Ok(format!(in alloc; " {}{end}", column.name.text())?),
        Kind::Text { max } => Ok(format!(in alloc; " {}:{max}{end}", column.name.text())?),
        Kind::Truth => Ok(format!(in alloc; " {}:truth{end}", column.name.text())?),
    }
}

/// A table's name, its columns, its key and the count of its indexes.
fn table_text(alloc: Global, table: &TableDef) -> Result<String, Fail> {
    let mut text = String::from_str(alloc, table.name.text())?;
    for column in table.columns.items() {
        text.push_str(column_text(alloc, column)?.as_str())?;
    }
    let key = table.key.items();
    let indexes = table.indexes.items().len();
    text.push_str(format!(in alloc; " {key:?} {indexes}")?.as_str())?;
    Ok(text)
}

/// Whether the table with the number is the one of the text; of no text, none.
fn is_table(alloc: Global, schema: &Schema, no: u8, want: &str) -> Result<bool, Fail> {
    match schema.table(no) {
        Some(table) => Ok(schema.has_table(no) && table_text(alloc, table)?.as_str() == want),
        None => Ok(!schema.has_table(no) && want.is_empty()),
    }
}

#[test]
fn tables_have_their_numbers(rt: HostRuntime) -> Result<(), Fail> {
    let schema = schema(rt.alloc())?;
    for (no, want) in [
        (0, "other k [0] 0"),
        (1, "people id name:20 here:truth year [2, 0] 1"),
        (2, ""),
        (63, ""),
        (64, "one_name name:20! here:truth! id! [0] 0"),
        (65, "born year! id! here:truth! id! [0, 1] 0"),
        (66, ""),
        (255, ""),
    ] {
        assert!(rt; is_table(rt.alloc(), &schema, no, want)?, "{no}");
    }
    Ok(())
}

/// Whether the hidden tables are left out of what is counted and found by names.
fn are_hidden(alloc: Global, schema: &Schema) -> Result<bool, Fail> {
    let found = schema.find(&Txt::new(alloc, "one_name")?);
    Ok(found.is_none() && schema.count() == 2 && schema.uniques().len() == 2)
}

#[test]
fn hidden_tables_are_neither_found_nor_counted(rt: HostRuntime) -> Result<(), Fail> {
    let schema = schema(rt.alloc())?;
    assert!(rt; are_hidden(rt.alloc(), &schema)?);
    Ok(())
}

/// Whether the cells are a row of the hidden table of the number, and have this key.
fn has_key(alloc: Global, schema: &Schema, no: u8, words: &str, key: &str) -> Result<bool, Fail> {
    let row = RowImage::new(cells_of(alloc, words)?)?;
    if !schema.has_table(no) || schema.check_row(no, row.cells()).is_err() {
        return Ok(false);
    }
    let wanted = cells_of(alloc, key)?;
    Ok(schema.key_of(alloc, no, &row)?.cells() == wanted.as_slice())
}

/// Whether the cells are no row of the hidden table of the number, for the reason.
fn has_fault(
    alloc: Global,
    schema: &Schema,
    no: u8,
    words: &str,
    want: &str,
) -> Result<bool, Fail> {
    let cells = cells_of(alloc, words)?;
    if !schema.has_table(no) {
        return Ok(false);
    }
    match schema.check_row(no, &cells) {
        Err(fault) => Ok(format!(in alloc; "{fault:?}")?.as_str() == want),
        Ok(()) => Ok(false),
    }
}

/// The number of a hidden table, cells, and their key or what is wrong with them.
const ROWS: &str = "\
64 'Ann yes 7 => key 'Ann
64 'Ann yes => WrongCount
64 - yes 7 => NullNotAllowed(0)
64 'Ann - 7 => NullNotAllowed(1)
64 'Ann yes - => NullNotAllowed(2)
64 7 yes 7 => TypeClash(0)
64 'Ann yes 'x => TypeClash(2)
64 'a2345678901234567890x yes 7 => TextTooLong(0)
65 1980 7 no 7 => key 1980 7
65 1980 7 no - => NullNotAllowed(3)";

fn is_told(alloc: Global, schema: &Schema, line: &str) -> Result<bool, Fail> {
    let (row, want) = line.split_once(" => ").ok_or("a line without an answer")?;
    let (no, words) = row.split_once(' ').ok_or("a line without a row")?;
    let no: u8 = no.parse()?;
    match want.strip_prefix("key ") {
        Some(key) => has_key(alloc, schema, no, words, key),
        None => has_fault(alloc, schema, no, words, want),
    }
}

#[test]
fn rows_of_hidden_tables(rt: HostRuntime) -> Result<(), Fail> {
    let schema = schema(rt.alloc())?;
    for line in ROWS.lines() {
        assert!(rt; is_told(rt.alloc(), &schema, line)?, "{line}");
    }
    Ok(())
}
