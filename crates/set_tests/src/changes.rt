//! Changes of rows, made from words and written as texts.
ghost use Rattle.std.specs.Prelude.{◌≡◌, true, None, All, IsTrue};
ghost use Rattle.write_set.specs.declared.change.Change.TheVariants.{Touch};
ghost use Rattle.write_set.specs.Net.{change_in};

use geo_base::{Cell, Key, RowId, RowImage, print_row};
use std::alloc::Global;
use std::fmt::Write;
use std::test::Fail;
use write_set::{Change, RowChange, SetFault, WriteSet};

/// The row's name: its table, and its key as a row.
pub fn add_name(out: &mut String, row: &RowId) -> Result<(), Fail> {
    write!(out, "{}", row.table)?;
    Ok(print_row(out, row.key.cells())?)
}

/// The row behind `; `: its name and its image, as `0(7) -> (7, NULL)`.
pub fn add_row(out: &mut String, row: &RowId, image: &RowImage) -> Result<(), Fail> {
    out.push_str("; ")?;
    add_name(out, row)?;
    out.push_str(" -> ")?;
    Ok(print_row(out, image.cells())?)
}

/// The row's name behind `; `, and what is done to it.
fn add_done(out: &mut String, row: &RowId, done: &str) -> Result<(), Fail> {
    out.push_str("; ")?;
    add_name(out, row)?;
    Ok(out.push_str(done)?)
}

/// The change behind `; `: a row as by [`add_row`], or the name of one that is removed or touched.
pub fn add_change(out: &mut String, row: &RowId, change: &Change) -> Result<(), Fail> {
    match change {
        Change::Put(image) => add_row(out, row, image),
        Change::Remove => add_done(out, row, " removed"),
        Change::Touch => add_done(out, row, " touched"),
    }
}

/// The row of table 0 whose key is the number.
pub fn row_of(alloc: Global, key: i64) -> Result<RowId, Fail> {
    let key = Key::new(vec![in alloc; Cell::Int(key)]?)?;
    Ok(RowId { table: 0, key })
}

/// The row image of a key and a value.
fn image_of(alloc: Global, key: i64, value: i64) -> Result<RowImage, Fail> {
    Ok(RowImage::new(vec![in alloc; Cell::Int(key), Cell::Int(value)]?)?)
}

/// The key of a word, and what the word does to its row: `1=10` puts 10 at 1, `1` removes it, and `@1`
/// touches it.
pub fn change_of(alloc: Global, word: &str) -> Result<(i64, Change), Fail> {
    if let Some(key) = word.strip_prefix('@') {
        return Ok((key.parse()?, Change::Touch));
    }
    match word.split_once('=') {
        Some((key, value)) => {
            let (key, value) = (key.parse()?, value.parse()?);
            Ok((key, Change::Put(image_of(alloc, key, value)?)))
        }
        None => Ok((word.parse()?, Change::Remove)),
    }
}

/// The change of a word; before that of a row that the snapshot lacks there is a `+`.
fn row_change_of(alloc: Global, word: &str) -> Result<RowChange, Fail> {
    let (word, before) = match word.strip_prefix('+') {
        Some(rest) => (rest, false),
        None => (word, true),
    };
    let (key, change) = change_of(alloc, word)?;
    let row = row_of(alloc, key)?;
    Ok(RowChange {
        row,
        before,
        change,
    })
}

/// The changes of the words.
pub fn row_changes_of(alloc: Global, words: &str) -> Result<Vec<RowChange>, Fail> {
    let mut changes = Vec::new(alloc);
    for word in words.split_whitespace() {
        changes.push(row_change_of(alloc, word)?)?;
    }
    Ok(changes)
}

/// Whether the row is in the snapshot, or isn't touched.
fn is_known(change: &RowChange) -> bool
    ensures { IsTrue result → change.now.change ≡ Touch → change.now.before ≡ true }
{
    change.before || !matches!(change.change, Change::Touch)
}

/// Whether each touched row is in the snapshot.
fn are_known(changes: &[RowChange]) -> bool
    ensures { IsTrue result → All (λ c. c.change ≡ Touch → c.before ≡ true) changes.now }
{
    changes.iter().all(|change| is_known(change))
}

/// What [`WriteSet::with`] answers, or None where a touched row isn't in the snapshot.
pub fn with_changes(
    alloc: Global,
    set: &WriteSet,
    changes: Vec<RowChange>,
) -> Option<Result<WriteSet, SetFault>> {
    if are_known(&changes) {
        Some(set.with(alloc, changes))
    } else {
        None
    }
}

/// What [`WriteSet::apply`] answers, or None where a touched row isn't in the snapshot.
pub fn apply_changes(
    alloc: Global,
    set: &mut WriteSet,
    changes: Vec<RowChange>,
) -> Option<Result<(), SetFault>> {
    if are_known(&changes) {
        Some(set.apply(alloc, changes))
    } else {
        None
    }
}

/// Whether the row is in the snapshot, or the set has it, or it isn't touched.
fn is_known_to(set: &WriteSet, change: &RowChange) -> bool
    ensures { IsTrue result → change.now.change ≡ Touch → change_in set.now change.now.row ≡ None → change.now.before ≡ true }
{
    is_known(change) || set.get(&change.row).is_some()
}

/// What [`WriteSet::with`] answers for the change of a word, or None where a row is touched that is neither in
/// the snapshot nor in the set.
pub fn with_word(alloc: Global, set: &WriteSet, word: &str) -> Result<WriteSet, Fail> {
    let change = row_change_of(alloc, word)?;
    if !is_known_to(set, &change) {
        return Err("a touch of an unknown row".into());
    }
    let changes = vec![in alloc; change]?;
    Ok(set.with(alloc, changes)?)
}

/// The net of the set and of the changes of the words.
pub fn with_words(alloc: Global, set: &WriteSet, words: &str) -> Result<WriteSet, Fail> {
    let changes = row_changes_of(alloc, words)?;
    let net = with_changes(alloc, set, changes).ok_or("a touch of an unknown row")?;
    Ok(net?)
}

/// The set with the changes of the words made in it.
pub fn applied_words(alloc: Global, mut set: WriteSet, words: &str) -> Result<WriteSet, Fail> {
    let changes = row_changes_of(alloc, words)?;
    let told = apply_changes(alloc, &mut set, changes).ok_or("a touch of an unknown row")?;
    told?;
    Ok(set)
}
