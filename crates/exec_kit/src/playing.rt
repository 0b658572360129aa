//! Lines of statements and of what is wanted of the last of each line, played over the tables and rows of texts.
ghost use Rattle.std.specs.Prelude.{◌≡◌, ◌<◌, IfOk};
ghost use Rattle.row_source.specs.Sources.{AreRowsOf};
ghost use Rattle.write_set.specs.Overlay.{overlay};
ghost use Rattle.write_set.specs.Sets.{Rises};

use crate::asking::print_text;
use crate::counted::Counted;
use crate::repeating::repeated;
use crate::sample::{ROWS, TABLES};
use geo_base::Duplicate;
use geo_schema::Schema;
use row_source::{ListSource, Steps};
use rows_kit::{are_rows, lay_over, net_of, rows_of, schema_of};
use std::alloc::Global;
use std::cell::Cell;
use std::marker::Brand;
use std::sync::ledger::{Blank, Ledger};
use std::test::Fail;
use write_set::WriteSet;

/// The source of the rows with the net laid over them, and which has the rows without it as its base.
fn source_of<'a>(
    alloc: Global,
    schema: &'a Schema,
    rows: &str,
    own: &WriteSet,
) -> Result<Counted<'a>, Fail>
    ensures schema { IfOk result (λ source. source.list.tables ≡ schema.entry.now) }
    ensures rows { IfOk result (λ source. AreRowsOf schema.entry.now source.list.rows) }
    ensures base { IfOk result (λ source. Rises source.list.base) }
    ensures laid { IfOk result (λ source. source.list.rows ≡ overlay source.list.base own.now) }
{
    let rows = rows_of(alloc, schema, rows)?;
    let count = rows.len();
    let laid = lay_over(alloc, rows, own)?;
    if laid.base.len() != count {
        return Err("a row that is there twice".into());
    }
    if !are_rows(alloc, schema, laid.rows.as_slice())? {
        return Err("a net of other rows".into());
    }
    Ok(Counted {
        list: ListSource::over(schema, laid.rows, laid.base),
        count: Cell::new(0),
    })
}

/// Texts of tables, of their rows, of a transaction's net, and of lines that are played over them.
#[derive(Drop)]
struct Texts {
    tables: String,
    rows: String,
    net: String,
    lines: String,
}

/// Writes what the statement is answered behind the net, in which its changes are made, and answers how many rows it is
/// handed.
fn print_one<L: Ledger>(
    out: &mut String,
    alloc: Global,
    schema: &Schema,
    source: &Counted,
    own: &mut WriteSet,
    text: &str,
    steps: &mut Steps<L>,
) -> Result<usize, Fail>
    requires schema { source.now.list.tables ≡ schema.now }
    requires rows { AreRowsOf schema.now source.now.list.rows }
    requires laid { source.now.list.rows ≡ overlay source.now.list.base own.old }
    requires base { Rises source.now.list.base }
{
    out.clear();
    let printed = print_text(out, alloc, schema, source, own, text, steps);
    let count = source.take_count();
    printed?;
    Ok(count)
}

/// The same over the rows of the text with the net laid over them.
fn print_next<L: Ledger>(
    out: &mut String,
    alloc: Global,
    schema: &Schema,
    rows: &str,
    own: &mut WriteSet,
    text: &str,
    steps: &mut Steps<L>,
) -> Result<usize, Fail> {
    let source = source_of(alloc, schema, rows, own)?;
    let count = print_one(out, alloc, schema, &source, own, text, steps);
    drop(source);
    count
}

/// The same of the last of the statements, each behind the net that those before it have left.
fn print_rest<L: Ledger>(
    out: &mut String,
    alloc: Global,
    schema: &Schema,
    rows: &str,
    own: &mut WriteSet,
    statements: &str,
    steps: &mut Steps<L>,
) -> Result<usize, Fail> {
    let mut count = 0;
    for text in statements.split(';') {
        count = print_next(out, alloc, schema, rows, own, text, steps)?;
    }
    Ok(count)
}

/// The same where the net is laid over the source's rows, over which the first statement is.
fn print_last<L: Ledger>(
    out: &mut String,
    alloc: Global,
    schema: &Schema,
    rows: &str,
    source: &Counted,
    own: &mut WriteSet,
    statements: &str,
    steps: &mut Steps<L>,
) -> Result<usize, Fail>
    requires schema { source.now.list.tables ≡ schema.now }
    requires rows { AreRowsOf schema.now source.now.list.rows }
    requires laid { source.now.list.rows ≡ overlay source.now.list.base own.old }
    requires base { Rises source.now.list.base }
{
    let Some((first, rest)) = statements.split_once(';') else {
        return print_one(out, alloc, schema, source, own, statements, steps);
    };
    print_one(out, alloc, schema, source, own, first, steps)?;
    print_rest(out, alloc, schema, rows, own, rest, steps)
}

/// What the last of the statements is answered, and in front of it how many rows it is handed. The net stays as it is.
fn answer<L: Ledger>(
    alloc: Global,
    schema: &Schema,
    rows: &str,
    source: &Counted,
    own: &WriteSet,
    statements: &str,
    steps: &mut Steps<L>,
) -> Result<String, Fail>
    requires schema { source.now.list.tables ≡ schema.now }
    requires rows { AreRowsOf schema.now source.now.list.rows }
    requires laid { source.now.list.rows ≡ overlay source.now.list.base own.now }
    requires base { Rises source.now.list.base }
{
    let mut out = String::new(alloc);
    let mut net = own.copy(alloc)?;
    let count = print_last(
        &mut out, alloc, schema, rows, source, &mut net, statements, steps,
    );
    drop(net);
    let count = count?;
    Ok(format!(in alloc; "{count}:{out}")?)
}

/// What the line is answered in place of what it says, if it is.
fn wrong<L: Ledger>(
    alloc: Global,
    schema: &Schema,
    rows: &str,
    source: &Counted,
    own: &WriteSet,
    line: &str,
    steps: &mut Steps<L>,
) -> Result<Option<String>, Fail>
    requires schema { source.now.list.tables ≡ schema.now }
    requires rows { AreRowsOf schema.now source.now.list.rows }
    requires laid { source.now.list.rows ≡ overlay source.now.list.base own.now }
    requires base { Rises source.now.list.base }
{
    let (statements, want) = line.split_once(" => ").ok_or("a line without an answer")?;
    let found = answer(alloc, schema, rows, source, own, statements, steps)?;
    if found.as_str() == want {
        return Ok(None);
    }
    Ok(Some(format!(in alloc; "found {found} in {line}")?))
}

fn first_wrong_of<L: Ledger>(
    alloc: Global,
    schema: &Schema,
    texts: &Texts,
    source: &Counted,
    own: &WriteSet,
    steps: &mut Steps<L>,
) -> Result<Option<String>, Fail>
    requires schema { source.now.list.tables ≡ schema.now }
    requires rows { AreRowsOf schema.now source.now.list.rows }
    requires laid { source.now.list.rows ≡ overlay source.now.list.base own.now }
    requires base { Rises source.now.list.base }
{
    let rows = texts.rows.as_str();
    for line in texts.lines.lines() {
        if let Some(wrong) = wrong(alloc, schema, rows, source, own, line, steps)? {
            return Ok(Some(wrong));
        }
    }
    Ok(None)
}

/// The first line that is wrong over the schema.
fn first_wrong_over<L: Ledger>(
    alloc: Global,
    schema: &Schema,
    texts: &Texts,
    steps: &mut Steps<L>,
) -> Result<Option<String>, Fail> {
    let own = net_of(alloc, schema, texts.net.as_str())?;
    let source = source_of(alloc, schema, texts.rows.as_str(), &own)?;
    let found = first_wrong_of(alloc, schema, texts, &source, &own, steps);
    drop(source);
    drop(own);
    found
}

fn first_wrong_on<L: Ledger>(
    alloc: Global,
    texts: Texts,
    blank: Blank,
) -> Result<Option<String>, Fail>
    requires name { blank.name ≡ L.name }
    requires parts { blank.parts ≡ L.parts }
    requires some { 0 < L.parts }
{
    let schema = schema_of(alloc, texts.tables.as_str())?;
    let mut steps: Steps<L> = Steps::new(blank);
    let found = first_wrong_over(alloc, &schema, &texts, &mut steps);
    drop(schema);
    found
}

/// The first line that isn't answered as it says, behind what it is answered. Each line has a statement, or several with a
/// semicolon between them, which one transaction does one after another; an arrow, how many rows the last of them is
/// handed, a colon, and its lines, its plan or its fault; or how many rows it has changed, a semicolon, and the net behind
/// it.
pub fn first_wrong(
    alloc: Global,
    tables: &str,
    rows: &str,
    net: &str,
    lines: &str,
) -> Result<Option<String>, Fail> {
    let texts = Texts {
        tables: String::from_str(alloc, tables)?,
        rows: repeated(alloc, rows)?,
        net: repeated(alloc, net)?,
        lines: repeated(alloc, lines)?,
    };
    first_wrong_on::<Brand>(alloc, texts, Blank::new(1))
}

/// Plays the lines over tables and rows of one's own, behind a net, and fails with the first that is wrong.
pub fn play_over(
    alloc: Global,
    tables: &str,
    rows: &str,
    net: &str,
    lines: &str,
) -> Result<(), Fail> {
    match first_wrong(alloc, tables, rows, net, lines)? {
        Some(wrong) => Err(Fail::new(wrong)),
        None => Ok(()),
    }
}

/// Plays the lines over the sample behind a net, and fails with the first that is wrong.
pub fn play_behind(alloc: Global, net: &str, lines: &str) -> Result<(), Fail> {
    play_over(alloc, TABLES, ROWS, net, lines)
}

/// Plays the lines over the sample, and fails with the first that is wrong.
pub fn play(alloc: Global, lines: &str) -> Result<(), Fail> {
    play_behind(alloc, "", lines)
}
