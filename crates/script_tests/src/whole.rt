//! A whole script: its regions, its tables with their columns, keys and indexes, and its events.
use crate::reading::Refusal;
use crate::seen::{Seen, is_seen};
use geo_base::{Duplicate, NoMemory};
use geo_schema::{ColumnDef, IndexDef, Kind, Schema, TableDef};
use geo_script::{EventAt, Form, Script, read_script};
use std::alloc::Global;
use std::test::Fail;

const LINES: [&str; 18] = [
    "geogauss play 1",
    "regions 3",
    "# accounts, and what was paid on a day",
    "table acc (id INT KEY, owner TEXT(20) NOT NULL, open BOOL, note TEXT)",
    "",
    "index by_owner on acc (owner, id)",
    "table paid (amount INT NOT NULL, acc INT KEY, day INT NOT NULL KEY)",
    "begin",
    "sql 0.0 INSERT INTO acc VALUES (1, 'é', TRUE, NULL)\r",
    "# begin",
    "",
    "seal 0",
    "deliver 0 1",
    "fetch 2 1 7",
    "\r",
    "crash 2 sealing lost",
    "#",
    "restart 2",
];

const EVENTS: [(u32, Seen<'static>); 6] = [
    (
        9,
        (
            "sql",
            0,
            0,
            0,
            "INSERT INTO acc VALUES (1, 'é', TRUE, NULL)",
        ),
    ),
    (12, ("seal", 0, 0, 0, "")),
    (13, ("deliver", 0, 1, 0, "")),
    (14, ("fetch", 2, 1, 7, "")),
    (16, ("crash", 2, 0, 0, "sealing lost")),
    (18, ("restart", 2, 0, 0, "")),
];

// A column: its name, its type, and whether it is declared NOT NULL.
type Column = (&'static str, Kind, bool);

// An index: its name and the places of its columns.
type Index = (&'static str, &'static [u8]);

// A table: its name, its columns, the places of its key, and its indexes.
type Table = (
    &'static str,
    &'static [Column],
    &'static [u8],
    &'static [Index],
);

const TABLES: [Table; 2] = [
    (
        "acc",
        &[
            ("id", Kind::Int, false),
            ("owner", Kind::Text { max: 20 }, true),
            ("open", Kind::Truth, false),
            ("note", Kind::Text { max: 1_024 }, false),
        ],
        &[0],
        &[("by_owner", &[1, 0])],
    ),
    (
        "paid",
        &[
            ("amount", Kind::Int, true),
            ("acc", Kind::Int, false),
            ("day", Kind::Int, true),
        ],
        &[1, 2],
        &[],
    ),
];

fn are_columns(found: &[ColumnDef], wanted: &[Column]) -> bool {
    for (column, (name, kind, not_null)) in found.iter().zip(wanted.iter()) {
        if column.name.text() != *name || column.kind != *kind || column.not_null != *not_null {
            return false;
        }
    }
    found.len() == wanted.len()
}

fn are_indexes(found: &[IndexDef], wanted: &[Index]) -> bool {
    for (index, (name, columns)) in found.iter().zip(wanted.iter()) {
        if index.name.text() != *name || index.columns.items() != *columns {
            return false;
        }
    }
    found.len() == wanted.len()
}

fn is_table(found: &TableDef, wanted: Table) -> bool {
    let (name, columns, key, indexes) = wanted;
    found.name.text() == name
        && are_columns(found.columns.items(), columns)
        && found.key.items() == key
        && are_indexes(found.indexes.items(), indexes)
}

fn has_table(schema: &Schema, place: u8, wanted: Table) -> bool {
    match schema.table(place) {
        Some(found) => is_table(found, wanted),
        None => false,
    }
}

fn are_tables(schema: &Schema) -> bool {
    for (place, wanted) in (0u8..2).zip(TABLES) {
        if !has_table(schema, place, wanted) {
            return false;
        }
    }
    schema.count() == 2
}

fn are_events(found: &[EventAt]) -> bool {
    for (event, (line, wanted)) in found.iter().zip(EVENTS) {
        if !is_seen(event, line, wanted) {
            return false;
        }
    }
    found.len() == EVENTS.len()
}

fn script(alloc: Global) -> Result<Script, Refusal> {
    let mut text = Vec::new(alloc);
    for line in LINES {
        text.extend_from_slice(line.as_bytes())?;
        text.push(b'\n')?;
    }
    read_script(alloc, &text, Form::Play)
}

/// Whether the schema has the tables, and a copy of it too.
fn has_tables(alloc: Global, schema: &Schema) -> Result<bool, NoMemory> {
    let copy = schema.copy(alloc)?;
    Ok(are_tables(schema) && are_tables(&copy))
}

fn is_whole(alloc: Global) -> Result<bool, Fail> {
    let script = script(alloc)?;
    let tables = has_tables(alloc, &script.schema)?;
    Ok(script.regions == 3 && tables && are_events(script.events.items()))
}

#[test]
fn scripts_are_read_whole(rt: HostRuntime) -> Result<(), Fail> {
    assert!(rt; is_whole(rt.alloc())?);
    Ok(())
}
