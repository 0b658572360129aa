//! What sources answer: rows with a name, rows in a range of keys or of an index, and rows of the base.
ghost use Rattle.std.specs.Prelude.{◌≡◌, ◌<◌};

use crate::counting::{handed_out, read};
use crate::ranges::range_of;
use crate::rows::{row_named, source_of};
use crate::tables::{has_index, schema_of};
use geo_base::{RowImage, TableNo, print_row};
use geo_schema::Schema;
use row_source::{ListSource, RowSource, Steps};
use std::alloc::Global;
use std::marker::Brand;
use std::sync::ledger::{Blank, Ledger};
use std::test::Fail;

/// Numbers by numbers; rows with a key of two columns that isn't in their order, and indexes of one column and of
/// two; and numbers.
const TABLES: &str = "kv|k,v|0|/t|a,b,c,d|10|2,32/z|k|0|";

/// Rows of the three tables.
const ROWS: &str = "\
0 1 -> 1 10
0 2 -> 2 20
0 4 -> 4 -
1 1 2 -> 2 1 30 8
1 1 5 -> 5 1 - 9
1 2 0 -> 0 2 10 9
1 2 9 -> 9 2 20 -
1 3 1 -> 1 3 10 8
2 1 -> 1
2 3 -> 3";

/// Rows of which one is as it is above but for its value, and one isn't there.
const BASE: &str = "\
0 1 -> 1 11
0 3 -> 3 30
1 1 5 -> 5 1 7 7";

/// The rows, each behind a space.
fn text_of(alloc: Global, rows: &[&RowImage]) -> Result<String, Fail> {
    let mut out = String::new(alloc);
    for row in rows {
        out.push(' ')?;
        print_row(&mut out, row.cells())?;
    }
    Ok(out)
}

/// Whether the row with the name is the one of the text; of no text, there is none.
fn is_got<L: Ledger>(
    alloc: Global,
    source: &ListSource,
    name: &str,
    want: &str,
    steps: &mut Steps<L>,
) -> Result<bool, Fail> {
    let row = row_named(alloc, name)?;
    match source.get(&row, steps) {
        Some(image) => Ok(text_of(alloc, &[image])?.as_str() == want),
        None => Ok(want.is_empty()),
    }
}

/// Whether the base has the row with the name where it is to have it.
fn is_of_base(alloc: Global, source: &ListSource, name: &str, want: &str) -> Result<bool, Fail> {
    let row = row_named(alloc, name)?;
    Ok(source.base_has(&row) == (want == " yes"))
}

/// Whether the table's rows whose keys lie in the range are those of the text.
fn are_by_key<L: Ledger>(
    alloc: Global,
    source: &ListSource,
    asked: &str,
    want: &str,
    steps: &mut Steps<L>,
) -> Result<bool, Fail> {
    let (table, range) = asked.split_once(' ').ok_or("a range of no table")?;
    let table: TableNo = table.parse()?;
    let range = range_of(alloc, range)?;
    let rows = source.key_range(alloc, table, &range, steps)?;
    Ok(text_of(alloc, rows.as_slice())?.as_str() == want)
}

/// Whether the table's rows whose cells in the index lie in the range are those of the text.
fn are_by_index<L: Ledger>(
    alloc: Global,
    schema: &Schema,
    source: &ListSource,
    asked: &str,
    want: &str,
    steps: &mut Steps<L>,
) -> Result<bool, Fail>
    requires { source.now.tables ≡ schema.now }
{
    let (table, rest) = asked.split_once(' ').ok_or("an index of no table")?;
    let (index, range) = rest.split_once(' ').ok_or("an index without a range")?;
    let table: TableNo = table.parse()?;
    let index: u8 = index.parse()?;
    if !has_index(schema, table, index) {
        return Err("no such index".into());
    }
    let range = range_of(alloc, range)?;
    let rows = source.index_range(alloc, table, index, &range, steps)?;
    Ok(text_of(alloc, rows.as_slice())?.as_str() == want)
}

/// Whether the rows of the named row's table in the range, and that row behind them, are those of the text.
fn are_both<L: Ledger>(
    alloc: Global,
    source: &ListSource,
    asked: &str,
    want: &str,
    steps: &mut Steps<L>,
) -> Result<bool, Fail> {
    let (name, range) = asked.split_once(" in ").ok_or("a row without a range")?;
    let row = row_named(alloc, name)?;
    let range = range_of(alloc, range)?;
    let rows = read(alloc, source, &row, &range, steps)?;
    Ok(text_of(alloc, rows.as_slice())?.as_str() == want)
}

/// Whether the row, and the rows of its table in the range by their keys and by the first index, are so many.
fn are_so_many<L: Ledger>(
    alloc: Global,
    schema: &Schema,
    source: &ListSource,
    asked: &str,
    want: &str,
    steps: &mut Steps<L>,
) -> Result<bool, Fail>
    requires { source.now.tables ≡ schema.now }
{
    let (name, range) = asked.split_once(" in ").ok_or("a row without a range")?;
    let row = row_named(alloc, name)?;
    if !has_index(schema, row.table, 0) {
        return Err("no such index".into());
    }
    let range = range_of(alloc, range)?;
    let count = handed_out(alloc, source, &row, &range, steps)?;
    Ok(format!(in alloc; " {count}")?.as_str() == want)
}

fn is_told<L: Ledger>(
    alloc: Global,
    schema: &Schema,
    source: &ListSource,
    line: &str,
    steps: &mut Steps<L>,
) -> Result<bool, Fail>
    requires { source.now.tables ≡ schema.now }
{
    let (asked, want) = line.split_once(" =>").ok_or("a line without an answer")?;
    let (call, asked) = asked.split_once(' ').ok_or("a line without a call")?;
    match call {
        "row" => is_got(alloc, source, asked, want, steps),
        "base" => is_of_base(alloc, source, asked, want),
        "keys" => are_by_key(alloc, source, asked, want, steps),
        "index" => are_by_index(alloc, schema, source, asked, want, steps),
        "both" => are_both(alloc, source, asked, want, steps),
        "count" => are_so_many(alloc, schema, source, asked, want, steps),
        _ => Err("no such call".into()),
    }
}

/// Rows, those of their base if it is another, and lines that say what is told of them.
#[derive(Drop)]
struct Case {
    rows: String,
    base: Option<String>,
    lines: String,
}

/// Tests that the source of the rows tells what each line says.
fn are_told_on<L: Ledger>(alloc: Global, case: Case, blank: Blank) -> Result<(), Fail>
    requires name { blank.name ≡ L.name }
    requires parts { blank.parts ≡ L.parts }
    requires some { 0 < L.parts }
{
    let schema = schema_of(alloc, TABLES)?;
    let source = source_of(alloc, &schema, &case.rows, case.base.as_deref())?;
    let mut steps: Steps<L> = Steps::new(blank);
    for line in case.lines.lines() {
        if !is_told(alloc, &schema, &source, line, &mut steps)? {
            return Err(Fail::new(line));
        }
    }
    Ok(())
}

/// A copy of the text, if there is one.
fn some_text(alloc: Global, text: Option<&str>) -> Result<Option<String>, Fail> {
    match text {
        Some(text) => Ok(Some(String::from_str(alloc, text)?)),
        None => Ok(None),
    }
}

/// The same, with a counter that nobody reads.
fn are_told(alloc: Global, rows: &str, base: Option<&str>, lines: &str) -> Result<(), Fail> {
    let case = Case {
        rows: String::from_str(alloc, rows)?,
        base: some_text(alloc, base)?,
        lines: String::from_str(alloc, lines)?,
    };
    are_told_on::<Brand>(alloc, case, Blank::new(1))
}

/// Names of rows, and the rows. A row of another table, or whose key begins with the cells, is another one.
const NAMES: &str = "\
row 0 1 => (1, 10)
row 0 2 => (2, 20)
row 0 4 => (4, NULL)
row 0 0 =>
row 0 3 =>
row 0 5 =>
row 1 1 2 => (2, 1, 30, 8)
row 1 1 5 => (5, 1, NULL, 9)
row 1 3 1 => (1, 3, 10, 8)
row 1 5 1 =>
row 1 1 =>
row 0 1 2 =>
row 2 1 => (1)
row 2 3 => (3)
row 2 2 =>
row 3 1 =>
row 64 1 =>";

#[test]
fn rows_by_their_names(rt: HostRuntime) -> Result<(), Fail> {
    are_told(rt.alloc(), ROWS, None, NAMES)
}

/// Ranges of keys of the rows of a table, and its rows in them.
const KEYS: &str = "\
keys 0 open .. open => (1, 10) (2, 20) (4, NULL)
keys 1 open .. open => (2, 1, 30, 8) (5, 1, NULL, 9) (0, 2, 10, 9) (9, 2, 20, NULL) (1, 3, 10, 8)
keys 2 open .. open => (1) (3)
keys 3 open .. open =>
keys 0 [2 .. open => (2, 20) (4, NULL)
keys 0 (2 .. open => (4, NULL)
keys 0 open .. [2 => (1, 10) (2, 20)
keys 0 open .. (2 => (1, 10)
keys 0 [2 .. [2 => (2, 20)
keys 0 [2 .. (2 =>
keys 0 (2 .. (4 =>
keys 0 [3 .. [3 =>
keys 0 [4 .. [1 =>
keys 2 [1 .. (3 => (1)
keys 1 [2 .. open => (0, 2, 10, 9) (9, 2, 20, NULL) (1, 3, 10, 8)
keys 1 (2 .. open => (1, 3, 10, 8)
keys 1 open .. [2 => (2, 1, 30, 8) (5, 1, NULL, 9) (0, 2, 10, 9) (9, 2, 20, NULL)
keys 1 open .. (2 => (2, 1, 30, 8) (5, 1, NULL, 9)
keys 1 [2 .. [2 => (0, 2, 10, 9) (9, 2, 20, NULL)
keys 1 [1 5 .. (2 9 => (5, 1, NULL, 9) (0, 2, 10, 9)
keys 1 (1 5 .. [2 9 => (0, 2, 10, 9) (9, 2, 20, NULL)
keys 1 (1 .. [2 0 => (0, 2, 10, 9)
keys 1 (1 5 .. (2 0 =>";

#[test]
fn rows_by_their_keys(rt: HostRuntime) -> Result<(), Fail> {
    are_told(rt.alloc(), ROWS, None, KEYS)
}

/// Ranges of an index of the second table, and the rows in them, in the order of their keys and not of the index.
/// The first index is of its column c, and the second of d and then c. NULL is less than each number.
const INDEXED: &str = "\
index 1 0 open .. open => (2, 1, 30, 8) (5, 1, NULL, 9) (0, 2, 10, 9) (9, 2, 20, NULL) (1, 3, 10, 8)
index 1 0 [10 .. [10 => (0, 2, 10, 9) (1, 3, 10, 8)
index 1 0 [10 .. open => (2, 1, 30, 8) (0, 2, 10, 9) (9, 2, 20, NULL) (1, 3, 10, 8)
index 1 0 (10 .. open => (2, 1, 30, 8) (9, 2, 20, NULL)
index 1 0 open .. (20 => (5, 1, NULL, 9) (0, 2, 10, 9) (1, 3, 10, 8)
index 1 0 open .. [- => (5, 1, NULL, 9)
index 1 0 [- .. [- => (5, 1, NULL, 9)
index 1 0 (- .. [20 => (0, 2, 10, 9) (9, 2, 20, NULL) (1, 3, 10, 8)
index 1 0 open .. (- =>
index 1 0 [1 .. [5 =>
index 1 1 [8 .. [8 => (2, 1, 30, 8) (1, 3, 10, 8)
index 1 1 (8 .. open => (5, 1, NULL, 9) (0, 2, 10, 9)
index 1 1 open .. (8 => (9, 2, 20, NULL)
index 1 1 [8 20 .. [9 - => (2, 1, 30, 8) (5, 1, NULL, 9)
index 1 1 [8 10 .. (9 10 => (2, 1, 30, 8) (5, 1, NULL, 9) (1, 3, 10, 8)
index 1 1 (9 .. open =>";

#[test]
fn rows_by_an_index(rt: HostRuntime) -> Result<(), Fail> {
    are_told(rt.alloc(), ROWS, None, INDEXED)
}

/// A source without a base of its own.
const SAME_BASE: &str = "\
base 0 1 => yes
base 0 3 => no
base 1 1 5 => yes
base 1 1 => no
base 2 1 => yes
base 2 2 => no";

/// One with another base, which is asked for nothing else.
const OTHER_BASE: &str = "\
base 0 1 => yes
base 0 2 => no
base 0 3 => yes
base 1 1 5 => yes
base 1 1 2 => no
base 2 1 => no
row 0 1 => (1, 10)
row 0 3 =>
row 1 1 5 => (5, 1, NULL, 9)
keys 0 [1 .. (4 => (1, 10) (2, 20)
index 1 0 [7 .. [7 =>";

#[test]
fn rows_of_the_base(rt: HostRuntime) -> Result<(), Fail> {
    are_told(rt.alloc(), ROWS, None, SAME_BASE)?;
    are_told(rt.alloc(), ROWS, Some(BASE), OTHER_BASE)
}

/// A source without rows, and without a base.
const NOTHING: &str = "\
row 0 1 =>
base 0 1 => no
keys 0 open .. open =>
index 1 0 open .. open =>";

/// A source whose rows have all been removed, and one whose rows are all new.
const REMOVED: &str = "\
row 0 1 =>
base 0 1 => yes
keys 0 open .. open =>";

const INSERTED: &str = "\
row 0 1 => (1, 10)
base 0 1 => no
index 1 1 (8 .. open => (5, 1, NULL, 9) (0, 2, 10, 9)";

#[test]
fn lists_without_rows(rt: HostRuntime) -> Result<(), Fail> {
    are_told(rt.alloc(), "", None, NOTHING)?;
    are_told(rt.alloc(), "", Some(BASE), REMOVED)?;
    are_told(rt.alloc(), ROWS, Some(""), INSERTED)
}

/// A row and a range, read by the trait alone; and how many rows the name, the keys in the range, and the cells of the
/// first index in it come to.
const TOGETHER: &str = "\
both 0 4 in open .. (2 => (1, 10) (4, NULL)
both 0 3 in [2 .. open => (2, 20) (4, NULL)
both 1 1 5 in (2 .. open => (1, 3, 10, 8) (5, 1, NULL, 9)
both 2 3 in [3 .. [3 => (3) (3)
both 3 1 in open .. open =>
count 1 1 5 in [1 .. [10 => 8
count 1 9 9 in (2 .. open => 5
count 1 3 1 in [4 .. (4 => 1
count 1 2 1 in [4 .. (4 => 0
count 1 2 0 in open .. open => 11";

#[test]
fn rows_by_several_calls(rt: HostRuntime) -> Result<(), Fail> {
    are_told(rt.alloc(), ROWS, None, TOGETHER)
}
