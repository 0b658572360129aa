//! Rows of tables: their faults, their keys, and the ranges that these lie in.
use crate::cells::cells_of;
use crate::tables::schema_of;
use geo_base::{Duplicate, RowImage, TableNo, Txt};
use geo_schema::{CellFault, CellList, Edge, KeyRange, Schema};
use std::alloc::Global;
use std::test::Fail;

/// Numbers by numbers; and people by whether they are here and by their number.
const TABLES: &str = "kv|k,v|0|/people|id,name:3!,note:1024,here:truth|30|";

/// A copy of the schema of these tables.
fn schema(alloc: Global) -> Result<Schema, Fail> {
    let schema = schema_of(alloc, TABLES)?;
    Ok(schema.copy(alloc)?)
}

/// What the cells are told, where the schema has the table.
fn told(
    alloc: Global,
    schema: &Schema,
    no: TableNo,
    words: &str,
) -> Result<Option<CellFault>, Fail> {
    let cells = cells_of(alloc, words)?;
    if !schema.has_table(no) {
        return Err("no table".into());
    }
    Ok(schema.check_row(no, &cells).err())
}

#[test]
fn each_fault_of_rows(rt: HostRuntime) -> Result<(), Fail> {
    let schema = schema(rt.alloc())?;
    for (no, words, fault) in [
        (0, "7 'x", Some(CellFault::TypeClash(1))),
        (0, "7 -", None),
        (1, "7 'ann - yes", None),
        (1, "7 'ann -", Some(CellFault::WrongCount)),
        (1, "7 'ann - yes -", Some(CellFault::WrongCount)),
        (1, "'x - - -", Some(CellFault::TypeClash(0))),
        (1, "7 yes 7 -", Some(CellFault::TypeClash(1))),
        (1, "7 'ann 7 -", Some(CellFault::TypeClash(2))),
        (1, "- - 7 -", Some(CellFault::NullNotAllowed(0))),
        (1, "7 - 7 -", Some(CellFault::NullNotAllowed(1))),
        (1, "7 'ann - -", Some(CellFault::NullNotAllowed(3))),
        (1, "7 'éé - -", Some(CellFault::TextTooLong(1))),
        (1, "7 'anna - -", Some(CellFault::TextTooLong(1))),
    ] {
        let told = told(rt.alloc(), &schema, no, words)?;
        assert_eq!(rt; told, fault, "{words}");
    }
    Ok(())
}

fn is_named(schema: &Schema, no: TableNo, name: &str) -> bool {
    match schema.table(no) {
        Some(table) => table.name.text() == name,
        None => false,
    }
}

/// Whether the table of the name, if there is to be one, is found and has the number.
fn is_found(alloc: Global, schema: &Schema, name: &str, no: Option<TableNo>) -> Result<bool, Fail> {
    let found = schema.find(&Txt::new(alloc, name)?);
    let named = match no {
        Some(no) => is_named(schema, no, name),
        None => schema.table(schema.count()).is_none(),
    };
    Ok(found == no && named)
}

#[test]
fn tables_are_found_by_names_and_numbers(rt: HostRuntime) -> Result<(), Fail> {
    let schema = schema(rt.alloc())?;
    for (name, no) in [("kv", Some(0)), ("people", Some(1)), ("b", None)] {
        assert!(rt; is_found(rt.alloc(), &schema, name, no)?, "{name}");
    }
    assert_eq!(rt; schema.count(), 2);
    Ok(())
}

/// Whether the cells are a row of people with this key.
fn has_key(alloc: Global, schema: &Schema, words: &str, key: &str) -> Result<bool, Fail> {
    let row = RowImage::new(cells_of(alloc, words)?)?;
    if !schema.has_table(1) || schema.check_row(1, row.cells()).is_err() {
        return Ok(false);
    }
    let wanted = cells_of(alloc, key)?;
    Ok(schema.key_of(alloc, 1, &row)?.cells() == wanted.as_slice())
}

#[test]
fn keys_are_in_the_keys_order(rt: HostRuntime) -> Result<(), Fail> {
    let schema = schema(rt.alloc())?;
    assert!(rt; has_key(rt.alloc(), &schema, "7 'ann - yes", "yes 7")?);
    Ok(())
}

/// The edge of a text: `[` before cells that are within, `(` before cells that are outside, or else no bound.
fn edge_of(alloc: Global, text: &str) -> Result<Edge, Fail> {
    if let Some(words) = text.strip_prefix('[') {
        return Ok(Edge::Incl(CellList::new(cells_of(alloc, words)?)));
    }
    match text.strip_prefix('(') {
        Some(words) => Ok(Edge::Excl(CellList::new(cells_of(alloc, words)?))),
        None => Ok(Edge::Open),
    }
}

/// Whether the key lies between the edges.
fn is_between(alloc: Global, key: &str, low: &str, high: &str) -> Result<bool, Fail> {
    let range = KeyRange {
        low: edge_of(alloc, low)?,
        high: edge_of(alloc, high)?,
    };
    Ok(range.holds(&cells_of(alloc, key)?))
}

/// A key, two edges, and whether it lies between them. A key that has fewer cells than an edge and begins it
/// is less than the edge.
const RANGES: &str = "\
4 9 / open / open => within
4 9 / [4 / [4 9 => within
4 9 / (4 / open => outside
4 9 / open / (4 => outside
4 9 / (3 / (5 => within
4 9 / [4 10 / open => outside
4 / [4 9 / open => outside
4 / (4 9 / open => outside
4 / open / [4 9 => within
4 / open / (4 9 => within
4 / [4 - / open => outside
4 / (3 9 / open => within
4 / [5 0 / open => outside
4 / open / (5 0 => within
4 / open / [3 9 => outside
4 / [3 9 / (4 9 => within";

fn is_told(alloc: Global, line: &str) -> Result<bool, Fail> {
    let (range, want) = line.split_once(" => ").ok_or("a line without an answer")?;
    let (key, edges) = range.split_once(" / ").ok_or("a line without edges")?;
    let (low, high) = edges.split_once(" / ").ok_or("a line with one edge")?;
    Ok(is_between(alloc, key, low, high)? == (want == "within"))
}

#[test]
fn keys_between_edges(rt: HostRuntime) -> Result<(), Fail> {
    for line in RANGES.lines() {
        assert!(rt; is_told(rt.alloc(), line)?, "{line}");
    }
    Ok(())
}
