//! Scripts of lines that a region is asked.
//!
//! The first line opens it: `open TABLES NO REGIONS LAST / ENTRIES / FAILS` names its tables, itself, how many regions
//! there are and the last epoch, and has the entries of its log and the calls of the keepers that fail. Each other line
//! has a verb, its words, and behind an arrow what is told. Candidates and batches stand in the words as in their bytes.
ghost use Rattle.std.specs.Prelude.{◌<◌, ◌≤◌, IfOk};

use crate::keeping::keepers_for;
use crate::playing::Played;
use crate::telling::{
    count_kept, entry_text, log_text, outcome_text, reply_text, round_text, rows_text, sealed,
    standing, submitted, written,
};
use codec_kit::{halves, schema_named};
use geo_base::Epoch;
use std::alloc::Global;
use std::test::Fail;

/// The region of the line.
fn opened(alloc: Global, line: &str) -> Result<Played, Fail> {
    let (words, rest) = halves(line, " /")?;
    let (entries, fails) = halves(rest, " /")?;
    let (tables, words) = halves(words, " ")?;
    let (no, words) = halves(words, " ")?;
    let (regions, last) = halves(words, " ")?;
    let schema = schema_named(alloc, tables)?;
    let no = no.parse()?;
    let logs = keepers_for(alloc, no, entries.trim(), fails.trim())?;
    Played::open(alloc, no, regions.parse()?, &schema, last.parse()?, logs)
}

/// The number of seats.
fn seats_of(words: &str) -> Result<u8, Fail>
    ensures { IfOk result (λ seats. (0 < seats) × (seats ≤ 8)) }
{
    let seats = words.parse()?;
    if seats == 0 || seats > 8 {
        return Err("no such number of seats".into());
    }
    Ok(seats)
}

/// Submits the candidate of the words behind a number so often.
fn fill(play: &mut Played, words: &str) -> Result<String, Fail> {
    let (count, words) = halves(words, " ")?;
    let count: u32 = count.parse()?;
    for _ in 0..count {
        play.submit(words)??;
    }
    written(play.alloc, play.region.open_count())
}

/// Seals and publishes so often.
fn turns(play: &mut Played, words: &str) -> Result<String, Fail> {
    let count: u32 = words.parse()?;
    for _ in 0..count {
        drop(play.seal()??);
        play.publish(1)?;
    }
    written(play.alloc, play.region.published())
}

/// Seals, takes a batch without candidates of region 1 in, and publishes, so often.
fn both(play: &mut Played, words: &str) -> Result<String, Fail> {
    let count: u32 = words.parse()?;
    for _ in 0..count {
        let epoch = play.region.open_epoch();
        let other = format!(in play.alloc; "1 #{epoch} #0")?;
        drop(play.seal()??);
        play.arrive(&other)??;
        play.publish(1)?;
    }
    written(play.alloc, play.region.published())
}

/// Seals so often.
fn seals(play: &mut Played, words: &str) -> Result<String, Fail> {
    let count: u32 = words.parse()?;
    for _ in 0..count {
        drop(play.seal()??);
    }
    written(play.alloc, play.region.open_epoch())
}

/// The rows of the snapshot of an epoch, or of the published one.
fn rows(play: &Played, words: &str) -> Result<String, Fail> {
    if words == "now" {
        return match play.region.begin() {
            Ok(snapshot) => rows_text(play.alloc, snapshot),
            Err(fault) => written(play.alloc, fault),
        };
    }
    match play.region.as_of(words.parse()?) {
        Ok(snapshot) => rows_text(play.alloc, snapshot),
        Err(fault) => written(play.alloc, fault),
    }
}

fn round(play: &Played) -> Result<String, Fail> {
    match play.region.round() {
        Ok(input) => round_text(play.alloc, input),
        Err(fault) => written(play.alloc, fault),
    }
}

fn restart_log(play: &mut Played) -> Result<String, Fail> {
    match play.restart_log()? {
        Ok(batches) => log_text(play.alloc, batches),
        Err(fault) => written(play.alloc, fault),
    }
}

fn fetch(play: &mut Played, words: &str) -> Result<String, Fail> {
    let (epoch, words) = words.split_once(' ').unwrap_or((words, ""));
    let epoch: Epoch = epoch.parse()?;
    let told = play.fetch(epoch);
    reply_text(play.alloc, told, words)
}

/// What a line tells that changes the region.
fn act(play: &mut Played, verb: &str, words: &str) -> Result<String, Fail> {
    match verb {
        "submit" => submitted(play.alloc, play.submit(words)?),
        "fill" => fill(play, words),
        "seal" => {
            let told = play.seal()?;
            sealed(play, told)
        }
        "seals" => seals(play, words),
        "turns" => turns(play, words),
        "both" => both(play, words),
        "arrive" => written(play.alloc, play.arrive(words)?),
        "publish" => written(play.alloc, play.publish(seats_of(words)?)?),
        "twice" => written(play.alloc, play.publish_twice(seats_of(words)?)?),
        "late" => written(play.alloc, play.publish_late(seats_of(words)?)?),
        "restart" => written(play.alloc, play.restart()?),
        "log" => restart_log(play),
        "fetch" => fetch(play, words),
        "crash" => {
            play.crash()?;
            standing(play.alloc, &play.region)
        }
        _ => Err("no such verb".into()),
    }
}

/// What a line tells.
fn told(play: &mut Played, verb: &str, words: &str) -> Result<String, Fail> {
    match verb {
        "stands" => standing(play.alloc, &play.region),
        "can" => written(play.alloc, play.region.can_seal()),
        "round" => round(play),
        "rows" => rows(play, words),
        "outcome" => outcome_text(play.alloc, play.told(words.parse()?)?),
        "entry" => entry_text(play, words),
        "kept" => written(play.alloc, count_kept(play)),
        _ => act(play, verb, words),
    }
}

fn is_told(play: &mut Played, line: &str) -> Result<bool, Fail> {
    let (asked, want) = halves(line, " => ")?;
    let (verb, words) = asked.split_once(' ').unwrap_or((asked, ""));
    Ok(told(play, verb, words)?.as_str() == want)
}

fn play_lines(play: &mut Played, lines: &str) -> Result<(), Fail> {
    for line in lines.lines() {
        if !is_told(play, line)? {
            return Err(Fail::new(line));
        }
    }
    Ok(())
}

fn play_script(alloc: Global, script: &str) -> Result<(), Fail> {
    let (first, lines) = halves(script, "\n")?;
    let mut play = opened(
        alloc,
        first
            .strip_prefix("open ")
            .ok_or("a script that opens nothing")?,
    )?;
    let told = play_lines(&mut play, lines);
    drop(play);
    told
}

/// Plays scripts, with an empty line between two of them. The first line that is told something else than it says is
/// the failure.
pub fn play(alloc: Global, scripts: &str) -> Result<(), Fail> {
    for script in scripts.split("\n\n") {
        play_script(alloc, script)?;
    }
    Ok(())
}
