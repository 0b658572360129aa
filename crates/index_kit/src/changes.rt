//! Changes of rows as texts: `TABLE KEY -> CELLS` puts a row, `TABLE KEY x` removes one, and `TABLE KEY ~` touches it.
ghost use Rattle.std.specs.Prelude.{◌≡◌, true, All, IsTrue};

use geo_base::{Key, RowId, RowImage};
use rows_kit::cells_of;
use std::alloc::Global;
use std::fmt::Write;
use std::test::Fail;
use write_set::{Change, RowChange, WriteSet};

/// The row's name, of its table and the cells of its key.
pub fn row_named(alloc: Global, words: &str) -> Result<RowId, Fail> {
    let (table, key) = words.split_once(' ').ok_or("a row without a key")?;
    let key = Key::new(cells_of(alloc, key)?)?;
    Ok(RowId {
        table: table.parse()?,
        key,
    })
}

/// The words of the row in a text, and what is done to it.
fn done_of<'a>(alloc: Global, text: &'a str) -> Result<(&'a str, Change), Fail> {
    if let Some((row, cells)) = text.split_once(" -> ") {
        return Ok((row, Change::Put(RowImage::new(cells_of(alloc, cells)?)?)));
    }
    if let Some(row) = text.strip_suffix(" x") {
        return Ok((row, Change::Remove));
    }
    let row = text.strip_suffix(" ~").ok_or("no change of a row")?;
    Ok((row, Change::Touch))
}

/// The row of a text, and what is done to it, as if it was there before.
fn change_of(alloc: Global, text: &str) -> Result<RowChange, Fail> {
    let (row, change) = done_of(alloc, text)?;
    Ok(RowChange {
        row: row_named(alloc, row)?,
        before: true,
        change,
    })
}

/// Whether each of the rows was there before.
fn are_known(changes: &[RowChange]) -> bool
    ensures { IsTrue result → All (λ c. c.before ≡ true) changes.now }
{
    changes.iter().all(|change| change.before)
}

/// The net of the changes, all of rows that were there before.
fn net_of(alloc: Global, changes: Vec<RowChange>) -> Result<WriteSet, Fail> {
    if are_known(&changes) {
        Ok(WriteSet::empty(alloc).with(alloc, changes)?)
    } else {
        Err("a row that wasn't there before".into())
    }
}

/// The net of the changes of a text, which have ` & ` between them; `none` has no changes.
pub fn set_of(alloc: Global, texts: &str) -> Result<WriteSet, Fail> {
    let mut changes = Vec::new(alloc);
    if texts != "none" {
        for text in texts.split(" & ") {
            changes.push(change_of(alloc, text)?)?;
        }
    }
    net_of(alloc, changes)
}

/// The text of changes that put rows of table 0, from `FIRST LAST OWNER`: those with the keys from the first to the last,
/// each with the owner, and its key as the amount.
pub fn puts_of(alloc: Global, words: &str) -> Result<String, Fail> {
    let (first, rest) = words.split_once(' ').ok_or("no last row")?;
    let (last, owner) = rest.split_once(' ').ok_or("no owner")?;
    let (first, last): (u32, u32) = (first.parse()?, last.parse()?);
    let mut text = String::new(alloc);
    let mut between = "";
    for key in first..=last {
        write!(text, "{between}0 {key} -> {key} {owner} {key}")?;
        between = " & ";
    }
    Ok(text)
}
