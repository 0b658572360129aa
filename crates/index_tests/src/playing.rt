//! Playing lines: epochs are applied, the horizon is moved, and ranges are asked for.
//!
//! Changes, batches and ranges are written as `index_kit` reads them. `epoch BATCHES` applies the next epoch, and
//! `rows FIRST LAST OWNER` one in which a candidate puts the rows of table 0 with the keys from the first to the last.
//! `trim N` moves the horizon, `fork` keeps a fork of the store, and `swap` puts each of them in the other's place.
//! `ask TABLE INDEX RANGE` asks the store, and `old TABLE INDEX RANGE` the fork; the keys that it is to tell, or `none`,
//! stand behind ` => `.
use crate::epochs::apply;
use crate::plain_versions::PlainVersions;
use crate::tables::schema_of;
use geo_base::{Key, print_row};
use geo_schema::Schema;
use index_kit::{puts_of, range_of};
use index_store::IndexStore;
use std::alloc::Global;
use std::mem::swap;
use std::test::Fail;
use write_set::KeptVersions;

/// What is played.
#[derive(Drop)]
struct Played<'a> {
    schema: &'a Schema,
    versions: PlainVersions,
    store: IndexStore,
    fork: IndexStore,
}

/// Moves the horizon up to the epoch.
fn trim(played: &mut Played, words: &str) -> Result<(), Fail> {
    let horizon = words.parse()?;
    if horizon < played.versions.horizon() || played.versions.applied() < horizon {
        return Err("no epoch to which the horizon can move".into());
    }
    played.versions.trim(horizon);
    Ok(played.store.trim(&played.versions)?)
}

/// Makes a fork, and lets go of the one that was there.
fn fork(played: &mut Played) -> Result<(), Fail> {
    let mut fork = played.store.fork()?;
    swap(&mut played.fork, &mut fork);
    drop(fork);
    Ok(())
}

/// The keys, and `none` where there is none.
fn printed(alloc: Global, keys: &[&Key]) -> Result<String, Fail> {
    let mut told = String::new(alloc);
    for key in keys {
        print_row(&mut told, key.cells())?;
    }
    if keys.is_empty() {
        told.push_str("none")?;
    }
    Ok(told)
}

/// The keys that the store tells of a range of an index.
fn keys_in(alloc: Global, store: &IndexStore, words: &str) -> Result<String, Fail> {
    let (table, rest) = words.split_once(' ').ok_or("no index")?;
    let (index, range) = rest.split_once(' ').ok_or("no range")?;
    let (table, index) = (table.parse()?, index.parse()?);
    let range = range_of(alloc, range)?;
    let keys = store.range(table, index, &range);
    drop(range);
    printed(alloc, keys?.as_slice())
}

/// What the store or the fork is asked.
fn asked(alloc: Global, played: &Played, verb: &str, words: &str) -> Result<String, Fail> {
    match verb {
        "ask" => keys_in(alloc, &played.store, words),
        "old" => keys_in(alloc, &played.fork, words),
        _ => Err("no such line".into()),
    }
}

/// Plays one line and answers what it is told, which is nothing where something is done.
fn answer(alloc: Global, played: &mut Played, line: &str) -> Result<String, Fail> {
    let (verb, words) = line.split_once(' ').unwrap_or((line, ""));
    match verb {
        "epoch" => apply(
            alloc,
            played.schema,
            &mut played.versions,
            &mut played.store,
            words,
        )?,
        "rows" => {
            let text = puts_of(alloc, words)?;
            apply(
                alloc,
                played.schema,
                &mut played.versions,
                &mut played.store,
                text.as_str(),
            )?;
        }
        "trim" => trim(played, words)?,
        "fork" => fork(played)?,
        "swap" => swap(&mut played.store, &mut played.fork),
        _ => return asked(alloc, played, verb, words),
    }
    Ok(String::new(alloc))
}

/// Plays the lines. Fails at the first one that is told something else than it says.
fn play_each(alloc: Global, played: &mut Played, lines: &str) -> Result<(), Fail> {
    for line in lines.lines() {
        let (words, want) = line.split_once(" => ").unwrap_or((line, ""));
        let found = answer(alloc, played, words)?;
        if found.as_str() != want {
            return Err(Fail::new(line));
        }
    }
    Ok(())
}

/// Plays the lines over the schema of the tables, from the first epoch on.
pub fn play(alloc: Global, tables: &str, lines: &str) -> Result<(), Fail> {
    let schema = schema_of(alloc, tables)?;
    let mut begun = Played {
        schema: &schema,
        versions: PlainVersions::empty(alloc),
        store: IndexStore::empty(alloc),
        fork: IndexStore::empty(alloc),
    };
    let told = play_each(alloc, &mut begun, lines);
    drop(begun);
    told
}
