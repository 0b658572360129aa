//! Versions that are played with by lines.
use crate::epochs::{apply, apply_many};
use crate::telling::{checked, last_upto, listed, read, told_of};
use std::alloc::Global;
use std::mem::swap;
use std::test::Fail;
use version_store::Versions;

/// The versions, and a fork of them.
#[derive(Drop)]
struct Play {
    versions: Versions,
    fork: Versions,
}

/// Moves the horizon up to the epoch.
fn trim(versions: &mut Versions, words: &str) -> Result<(), Fail> {
    let horizon = words.parse()?;
    if horizon < versions.horizon() || versions.applied() < horizon {
        return Err("no epoch to which the horizon can move".into());
    }
    Ok(versions.trim(horizon)?)
}

/// Applies so many epochs without candidates.
fn wait(alloc: Global, versions: &mut Versions, words: &str) -> Result<(), Fail> {
    let count: u32 = words.parse()?;
    for _ in 0..count {
        apply(alloc, versions, "")?;
    }
    Ok(())
}

/// Applies an epoch that changes many rows alike: those between two keys.
fn many(alloc: Global, versions: &mut Versions, words: &str) -> Result<(), Fail> {
    let (first, rest) = words.split_once(' ').ok_or("no last row")?;
    let (last, change) = rest.split_once(' ').ok_or("no change")?;
    apply_many(alloc, versions, first.parse()?, last.parse()?, change)
}

fn told_of_row(alloc: Global, versions: &Versions, words: &str) -> Result<String, Fail> {
    match words.split_once(' ') {
        Some((row, epoch)) => read(alloc, versions, row, epoch.parse()?),
        None => told_of(alloc, versions, words),
    }
}

fn told_of_rows(alloc: Global, versions: &Versions, words: &str) -> Result<String, Fail> {
    let (first, rest) = words.split_once(' ').ok_or("no last row")?;
    let (last, epoch) = rest.split_once(' ').ok_or("no epoch")?;
    listed(alloc, versions, first, last, epoch.parse()?)
}

fn told_of_change(alloc: Global, versions: &Versions, words: &str) -> Result<String, Fail> {
    let (row, epoch) = words.split_once(' ').ok_or("no epoch")?;
    last_upto(alloc, versions, row, epoch.parse()?)
}

/// What the versions are asked.
fn told(alloc: Global, versions: &Versions, verb: &str, words: &str) -> Result<String, Fail> {
    match verb {
        "row" => told_of_row(alloc, versions, words),
        "rows" => told_of_rows(alloc, versions, words),
        "last" => told_of_change(alloc, versions, words),
        "check" => checked(alloc, versions, words.parse()?),
        _ => Err("no such line".into()),
    }
}

/// Makes a fork, and lets go of the one that was there.
fn fork(play: &mut Play) -> Result<(), Fail> {
    let mut fork = play.versions.fork()?;
    swap(&mut play.fork, &mut fork);
    drop(fork);
    Ok(())
}

/// Plays one line and answers what it is told, which is nothing where something is done.
fn answer(alloc: Global, play: &mut Play, line: &str) -> Result<String, Fail> {
    let (verb, words) = line.split_once(' ').unwrap_or((line, ""));
    match verb {
        "apply" => apply(alloc, &mut play.versions, words)?,
        "many" => many(alloc, &mut play.versions, words)?,
        "trim" => trim(&mut play.versions, words)?,
        "wait" => wait(alloc, &mut play.versions, words)?,
        "fork" => fork(play)?,
        "swap" => swap(&mut play.versions, &mut play.fork),
        _ => return told(alloc, &play.versions, verb, words),
    }
    Ok(String::new(alloc))
}

/// The first line that is told something else than it says.
pub fn first_wrong(alloc: Global, lines: &str) -> Result<Option<String>, Fail> {
    let mut play = Play {
        versions: Versions::empty(alloc),
        fork: Versions::empty(alloc),
    };
    for line in lines.lines() {
        let (words, want) = line.split_once(" => ").unwrap_or((line, ""));
        let found = answer(alloc, &mut play, words)?;
        if found.as_str() != want {
            return Ok(Some(format!(in alloc; "{line}, but found {found}")?));
        }
    }
    Ok(None)
}
