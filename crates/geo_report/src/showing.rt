//! The lines of tables.
ghost use Rattle.std.specs.Prelude.{◌≡◌, ◌<◌, ◌++◌, IfOk, OnOk, string_bytes};
ghost use Rattle.geo_schema.specs.declared.range.Edge.TheVariants as edge;
ghost use Rattle.snap_view.specs.Snapshots.{HoldsIndexes, rows_of};
ghost use Rattle.geo_report.specs.TableLines.{lines_of_number, table_lines_of};

use crate::listing::print_images;
use crate::pieces::{print_number, print_table_name};
use geo_base::{NoMemory, TableNo};
use geo_schema::{Edge, KeyRange, Schema};
use row_source::{RowSource, Steps};
use snap_view::{Snapshot, View};
use std::alloc::Global;
use std::marker::Brand;
use std::sync::ledger::{Blank, Ledger};
use write_set::WriteSet;

/// The lines of the table with the number, put at the end of a text, which is to be dropped after an error. The range has
/// no edges.
fn print_table<R: RowSource, L: Ledger>(
    alloc: Global,
    out: &mut String,
    schema: &Schema,
    source: &R,
    number: TableNo,
    all: &KeyRange,
    steps: &mut Steps<L>,
) -> Result<(), NoMemory>
    requires low { all.now.low ≡ edge.Open }
    requires high { all.now.high ≡ edge.Open }
    ensures { OnOk result (string_bytes out.new ≡ string_bytes out.old ++ lines_of_number schema.now (R.rows source.now) number) }
{
    let rows = source.key_range(alloc, number, all, steps)?;
    print_table_name(out, "table ", schema, number)?;
    print_number(out, " ", rows.len() as u64)?;
    out.push_str(" rows\n")?;
    print_images(out, rows.as_slice())
}

/// The lines of all tables that are shown, put at the end of a text, which is to be dropped after an error. The range has
/// no edges.
fn print_tables<R: RowSource, L: Ledger>(
    alloc: Global,
    out: &mut String,
    schema: &Schema,
    source: &R,
    all: &KeyRange,
    steps: &mut Steps<L>,
) -> Result<(), NoMemory>
    requires low { all.now.low ≡ edge.Open }
    requires high { all.now.high ≡ edge.Open }
    ensures { OnOk result (string_bytes out.new ≡ string_bytes out.old ++ table_lines_of schema.now (R.rows source.now)) }
{
    for number in 0..schema.count() {
        print_table(alloc, out, schema, source, number, all, steps)?;
    }
    Ok(())
}

/// The lines of the snapshot's tables, with a counter that is opened on the ledger.
fn lines_counted<L: Ledger>(
    alloc: Global,
    schema: &Schema,
    snapshot: &Snapshot,
    blank: Blank,
) -> Result<Vec<u8>, NoMemory>
    requires held { HoldsIndexes schema.now snapshot.now }
    requires name { blank.name ≡ L.name }
    requires parts { blank.parts ≡ L.parts }
    requires some { 0 < L.parts }
    ensures { IfOk result (λ bytes. bytes.items ≡ table_lines_of schema.now (rows_of snapshot.now)) }
{
    let own = WriteSet::empty(alloc);
    let view = View::new(schema, snapshot, &own);
    let mut steps: Steps<L> = Steps::new(blank);
    let all = KeyRange {
        low: Edge::Open,
        high: Edge::Open,
    };
    let mut out = String::new(alloc);
    let printed = print_tables(alloc, &mut out, schema, &view, &all, &mut steps);
    drop(all);
    printed?;
    Ok(out.into_bytes())
}

/// The lines of the tables that are shown, in the order of the schema, each with its rows after the snapshot's epoch in
/// the order of their keys. Takes memory for the answer and for a list of the rows of one table at a time.
pub fn table_lines(alloc: Global, schema: &Schema, snapshot: &Snapshot) -> Result<Vec<u8>, NoMemory>
    requires { HoldsIndexes schema.now snapshot.now }
    ensures { IfOk result (λ bytes. bytes.items ≡ table_lines_of schema.now (rows_of snapshot.now)) }
{
    lines_counted::<Brand>(alloc, schema, snapshot, Blank::new(1))
}
