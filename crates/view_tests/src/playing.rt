//! Playing lines: epochs are applied, the horizon is moved, snapshots are taken, and views are asked.
//!
//! `epoch BATCHES` applies the next epoch, `rows FIRST LAST OWNER` one in which a candidate puts these rows, `trim N`
//! moves the horizon, `view N` takes the snapshot of an epoch, `copy` puts a copy of the snapshot in its place, and
//! `own CHANGES` says what the transaction has written. What else a line asks is told behind ` => `: `at` the snapshot's
//! epoch, `last ROW` the last change that it holds for the row, `row ROW` the row and whether the snapshot has it,
//! `keys TABLE RANGE` and `index TABLE INDEX RANGE` the rows in the range.
ghost use Rattle.std.specs.Prelude.{◌≡◌, ◌<◌};
ghost use Rattle.snap_view.specs.Snapshots.{HoldsIndexes};

use crate::asking::told;
use crate::region::Region;
use geo_base::{Duplicate, Epoch};
use geo_schema::Schema;
use index_kit::{puts_of, row_named, set_of};
use row_source::Steps;
use rows_kit::schema_of;
use snap_view::{Snapshot, View};
use std::alloc::Global;
use std::marker::{Brand, Model};
use std::sync::ledger::{Blank, Ledger};
use std::test::Fail;
use write_set::{Changes, WriteSet};

/// A region, and a transaction with its snapshot and what it has written. Contracts see the tables of the schema.
#[derive(Drop)]
struct Played<'a> {
    schema: &'a Schema,
    region: Region<'a>,
    snapshot: Snapshot,
    own: WriteSet,
}

impl<'a> Model for Played<'a> {
    ghost use Rattle.std.specs.Prelude.{◌≡◌};
    ghost use Rattle.geo_schema.specs.Schemas.{Tables};
    ghost use Rattle.snap_view.specs.Snapshots.{HoldsIndexes};

    ghost Value = { Tables };

    ghost view = { λ p. p.schema.now };

    ghost invariant = { λ p. (p.region ≡ p.schema.now) × HoldsIndexes p.schema.now p.snapshot };
}

impl<'a> Played<'a> {
    /// No rows, and a transaction that has written nothing.
    fn new(alloc: Global, schema: &'a Schema) -> Result<Played<'a>, Fail> {
        let region = Region::new(alloc, schema);
        let snapshot = region.snapshot(0)?;
        Ok(Played {
            schema,
            region,
            snapshot,
            own: WriteSet::empty(alloc),
        })
    }

    /// Takes the snapshot of the epoch.
    fn look(&mut self, epoch: Epoch) -> Result<(), Fail> {
        let snapshot = self.region.snapshot(epoch)?;
        self.snapshot = snapshot;
        Ok(())
    }

    /// Puts a copy of the snapshot in its place.
    fn take_copy(&mut self, alloc: Global) -> Result<(), Fail> {
        let copy = self.snapshot.copy(alloc)?;
        self.snapshot = copy;
        Ok(())
    }

    /// Does what the line says.
    fn act(&mut self, alloc: Global, verb: &str, words: &str) -> Result<(), Fail> {
        match verb {
            "epoch" => self.region.apply(alloc, words)?,
            "rows" => self.region.apply(alloc, puts_of(alloc, words)?.as_str())?,
            "trim" => self.region.trim(words.parse()?)?,
            "view" => self.look(words.parse()?)?,
            "copy" => self.take_copy(alloc)?,
            "own" => self.own = set_of(alloc, words)?,
            _ => return Err("no such line".into()),
        }
        Ok(())
    }

    /// What the line asks.
    fn ask<L: Ledger>(
        &self,
        alloc: Global,
        verb: &str,
        words: &str,
        steps: &mut Steps<L>,
    ) -> Result<String, Fail> {
        let epoch = match verb {
            "at" => self.snapshot.epoch(),
            "last" => last_change_of(&self.snapshot, alloc, words)?,
            _ => {
                let view = View::new(self.schema, &self.snapshot, &self.own);
                return told(alloc, self.schema, &view, verb, words, steps);
            }
        };
        Ok(format!(in alloc; "{epoch}")?)
    }
}

/// The last change that is held for the row, as a merge asks for it.
fn last_change_of<C: Changes>(changes: &C, alloc: Global, name: &str) -> Result<Epoch, Fail> {
    Ok(changes.last_change(&row_named(alloc, name)?))
}

/// Plays the lines. Fails at the first one that is told something else than it says.
fn play_on<L: Ledger>(
    alloc: Global,
    tables: &str,
    lines: &str,
    steps: &mut Steps<L>,
) -> Result<(), Fail> {
    let schema = schema_of(alloc, tables)?;
    let mut play = Played::new(alloc, &schema)?;
    for line in lines.lines() {
        match line.split_once(" => ") {
            Some((words, want)) => {
                let (verb, rest) = words.split_once(' ').unwrap_or((words, ""));
                let found = play.ask(alloc, verb, rest, steps)?;
                if found.as_str() != want {
                    return Err(Fail::new(line));
                }
            }
            None => {
                let (verb, rest) = line.split_once(' ').unwrap_or((line, ""));
                play.act(alloc, verb, rest)?;
            }
        }
    }
    Ok(())
}

/// The same with a counter of its own, so that it can be opened on a ledger.
fn play_counted<L: Ledger>(alloc: Global, script: &Script, blank: Blank) -> Result<(), Fail>
    requires name { blank.name ≡ L.name }
    requires parts { blank.parts ≡ L.parts }
    requires some { 0 < L.parts }
{
    let mut steps: Steps<L> = Steps::new(blank);
    play_on(alloc, &script.tables, &script.lines, &mut steps)
}

/// Tables, and lines that are played over them.
#[derive(Drop)]
struct Script {
    tables: String,
    lines: String,
}

/// Plays the lines over the tables.
pub fn play(alloc: Global, tables: &str, lines: &str) -> Result<(), Fail> {
    let script = Script {
        tables: String::from_str(alloc, tables)?,
        lines: String::from_str(alloc, lines)?,
    };
    play_counted::<Brand>(alloc, &script, Blank::new(1))
}
