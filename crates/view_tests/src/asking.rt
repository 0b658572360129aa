//! What a view tells, as texts.
ghost use Rattle.std.specs.Prelude.{◌≡◌, IsTrue};
ghost use Rattle.geo_schema.specs.Indexes.{HasIndex};

use geo_base::{RowImage, TableNo, print_row};
use geo_schema::Schema;
use index_kit::{range_of, row_named};
use row_source::{RowSource, Steps};
use snap_view::View;
use std::alloc::Global;
use std::sync::ledger::Ledger;
use std::test::Fail;

/// The rows, one behind another, and `none` where there is none.
fn text_of(alloc: Global, rows: &[&RowImage]) -> Result<String, Fail> {
    let mut out = String::new(alloc);
    for row in rows {
        print_row(&mut out, row.cells())?;
    }
    if rows.is_empty() {
        out.push_str("none")?;
    }
    Ok(out)
}

/// The row with the name, and whether the snapshot has it too.
fn told_of_row<L: Ledger>(
    alloc: Global,
    view: &View,
    name: &str,
    steps: &mut Steps<L>,
) -> Result<String, Fail> {
    let row = row_named(alloc, name)?;
    let mut out = match view.get(&row, steps) {
        Some(image) => text_of(alloc, &[image])?,
        None => text_of(alloc, &[])?,
    };
    if view.base_has(&row) {
        out.push_str(" in base")?;
    }
    Ok(out)
}

/// The table's rows whose keys lie in the range.
fn told_by_key<L: Ledger>(
    alloc: Global,
    view: &View,
    asked: &str,
    steps: &mut Steps<L>,
) -> Result<String, Fail> {
    let (table, range) = asked.split_once(' ').ok_or("a range of no table")?;
    let range = range_of(alloc, range)?;
    let rows = view.key_range(alloc, table.parse()?, &range, steps)?;
    text_of(alloc, rows.as_slice())
}

/// Whether the schema has the table, and the table the index.
fn has_index(schema: &Schema, table: TableNo, index: u8) -> bool
    ensures { IsTrue result → HasIndex schema.now table index }
{
    match schema.table(table) {
        Some(table) => usize::from(index) < table.indexes.items().len(),
        None => false,
    }
}

/// The table's rows whose cells in the index lie in the range.
fn told_by_index<L: Ledger>(
    alloc: Global,
    schema: &Schema,
    view: &View,
    asked: &str,
    steps: &mut Steps<L>,
) -> Result<String, Fail>
    requires { view.now.tables ≡ schema.now }
{
    let (table, rest) = asked.split_once(' ').ok_or("an index of no table")?;
    let (index, range) = rest.split_once(' ').ok_or("an index without a range")?;
    let table: TableNo = table.parse()?;
    let index: u8 = index.parse()?;
    if !has_index(schema, table, index) {
        return Err("no such index".into());
    }
    let range = range_of(alloc, range)?;
    let rows = view.index_range(alloc, table, index, &range, steps)?;
    text_of(alloc, rows.as_slice())
}

/// What the view is asked.
pub fn told<L: Ledger>(
    alloc: Global,
    schema: &Schema,
    view: &View,
    verb: &str,
    asked: &str,
    steps: &mut Steps<L>,
) -> Result<String, Fail>
    requires { view.now.tables ≡ schema.now }
{
    match verb {
        "row" => told_of_row(alloc, view, asked, steps),
        "keys" => told_by_key(alloc, view, asked, steps),
        "index" => told_by_index(alloc, schema, view, asked, steps),
        _ => Err("no such line".into()),
    }
}
