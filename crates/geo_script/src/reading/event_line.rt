//! Event lines, by what stands behind their first word.
ghost use Rattle.std.specs.Prelude.{◌≡◌, ◌≤◌, ◌<◌, Ok, Err, IfOk, MatchResult};
ghost use Rattle.geo_script.specs.declared.event.Event.TheVariants as event;
ghost use Rattle.geo_script.specs.inner.EventLines as spec;

use crate::event::Event;
use crate::fault::ScriptKind;
use crate::limits::{
    LAST_ASKED_EPOCH, LAST_CRASH_EPOCH, LAST_PACKET, SEATS_PER_ROUND, STATEMENT_BYTES,
};
use crate::past::Past;
use crate::reading::event_words::{after_words, crash_words, packet_words, statement_parts};
use crate::reading::words::{cut_at_dot, is_word, number_within, three_words, two_words};
use crate::word::Word;
use geo_base::limits::{PACKETS_PER_LINE, SESSIONS_PER_REGION};
use geo_base::{NoMemory, RegionNo};
use std::alloc::Global;

/// The number from `least` to `most` that the word spells.
pub(crate) fn number(least: u32, most: u32, word: &str) -> Result<u32, ScriptKind>
    ensures number { result ≡ spec.number_or_bad least most word.now }
    ensures within { IfOk result (λ n. (least ≤ n) × (n ≤ most)) }
{
    number_within(least, most, word).ok_or(ScriptKind::BadNumber)
}

/// The region, below their number.
fn region(regions: u8, word: &str) -> Result<RegionNo, ScriptKind>
    requires { 1 ≤ regions }
    ensures { result ≡ spec.region regions word.now }
{
    let region = number(0, u32::from(regions - 1), word)?;
    Ok(region as RegionNo)
}

/// A region and a session of it, with a dot between them.
#[tactic(auto, unfolding(crate::specs::inner::EventLines::place))]
fn place(regions: u8, word: &str) -> Result<(RegionNo, u8), ScriptKind>
    requires { 1 ≤ regions }
    ensures { result ≡ spec.place regions word.now }
{
    let Some((at, session)) = cut_at_dot(word) else {
        return Err(ScriptKind::BadNumber);
    };
    let at = region(regions, at)?;
    let session = number(0, u32::from(SESSIONS_PER_REGION - 1), session)?;
    Ok((at, session as u8))
}

/// The session and the statement behind `sql`.
#[tactic(auto, unfolding(crate::specs::inner::EventLines::sql))]
fn sql_parts(regions: u8, rest: &str) -> Result<(RegionNo, u8, &str), ScriptKind>
    requires { 1 ≤ regions }
    ensures { MatchResult result
        (λ p. spec.sql regions rest.now ≡ Ok (event.Sql p.0 p.1 p.2.now))
        (λ kind. spec.sql regions rest.now ≡ Err kind) }
{
    let Some((at, text)) = statement_parts(rest) else {
        return Err(ScriptKind::BadLine);
    };
    let (region, session) = place(regions, at)?;
    if text.len() <= STATEMENT_BYTES {
        Ok((region, session, text))
    } else {
        Err(ScriptKind::LongStatement)
    }
}

/// A statement, behind `sql`. Its text is the one part of a line that is copied.
pub(crate) fn sql(
    alloc: Global,
    regions: u8,
    rest: &str,
) -> Result<Result<Event, ScriptKind>, NoMemory>
    requires { 1 ≤ regions }
    ensures { IfOk result (λ found. found ≡ spec.sql regions rest.now) }
{
    match sql_parts(regions, rest) {
        Ok((region, session, text)) => {
            let text = Word::new(String::from_str(alloc, text)?);
            Ok(Ok(Event::Sql {
                region,
                session,
                text,
            }))
        }
        Err(kind) => Ok(Err(kind)),
    }
}

/// A session, behind `outcome`.
#[tactic(auto, unfolding(crate::specs::inner::EventLines::outcome))]
pub(crate) fn outcome(regions: u8, rest: &str) -> Result<Event, ScriptKind>
    requires { 1 ≤ regions }
    ensures { result ≡ spec.outcome regions rest.now }
{
    if !is_word(rest) {
        return Err(ScriptKind::BadLine);
    }
    let (region, session) = place(regions, rest)?;
    Ok(Event::Outcome { region, session })
}

/// A region alone.
#[tactic(auto, unfolding(crate::specs::inner::EventLines::only_region))]
pub(crate) fn only_region(regions: u8, rest: &str) -> Result<RegionNo, ScriptKind>
    requires { 1 ≤ regions }
    ensures { result ≡ spec.only_region regions rest.now }
{
    if is_word(rest) {
        region(regions, rest)
    } else {
        Err(ScriptKind::BadLine)
    }
}

/// Packets, behind `deliver`.
#[tactic(auto, unfolding(crate::specs::inner::EventLines::deliver))]
pub(crate) fn deliver(rest: &str) -> Result<Event, ScriptKind>
    ensures { result ≡ spec.deliver rest.now }
{
    let Some((first, last)) = packet_words(rest) else {
        return Err(ScriptKind::BadLine);
    };
    let first = number(0, LAST_PACKET, first)?;
    let last = number(0, LAST_PACKET, last)?;
    if first <= last && last - first < PACKETS_PER_LINE {
        Ok(Event::Deliver { first, last })
    } else {
        Err(ScriptKind::BadNumber)
    }
}

/// Two regions and an epoch, behind `fetch`.
#[tactic(auto, unfolding(crate::specs::inner::EventLines::fetch))]
pub(crate) fn fetch(regions: u8, rest: &str) -> Result<Event, ScriptKind>
    requires { 1 ≤ regions }
    ensures { result ≡ spec.fetch regions rest.now }
{
    let Some((asking, asked, epoch)) = three_words(rest) else {
        return Err(ScriptKind::BadLine);
    };
    let region = region(regions, asking)?;
    let asked = self::region(regions, asked)?;
    let epoch = number(1, LAST_ASKED_EPOCH, epoch)?;
    if region == asked {
        Err(ScriptKind::BadNumber)
    } else {
        Ok(Event::Fetch {
            region,
            asked,
            epoch,
        })
    }
}

/// A region and a seat of its round, behind `work`.
#[tactic(auto, unfolding(crate::specs::inner::EventLines::work))]
pub(crate) fn work(regions: u8, rest: &str) -> Result<Event, ScriptKind>
    requires { 1 ≤ regions }
    ensures { result ≡ spec.work regions rest.now }
{
    let Some((at, seat)) = two_words(rest) else {
        return Err(ScriptKind::BadLine);
    };
    let region = region(regions, at)?;
    let seat = number(0, u32::from(SEATS_PER_ROUND - 1), seat)?;
    Ok(Event::Work {
        region,
        worker: seat as u8,
    })
}

/// A region, and what becomes of its open epoch, behind `crash`.
#[tactic(auto, unfolding(crate::specs::inner::EventLines::crash))]
pub(crate) fn crash(regions: u8, rest: &str) -> Result<Event, ScriptKind>
    requires { 1 ≤ regions }
    ensures { result ≡ spec.crash regions rest.now }
{
    let Some((at, sealing)) = crash_words(rest) else {
        return Err(ScriptKind::BadLine);
    };
    let region = region(regions, at)?;
    Ok(Event::Crash { region, sealing })
}

/// The region that the word names, which has no crash line yet.
fn fresh_region(regions: u8, past: &Past, word: &str) -> Result<RegionNo, ScriptKind>
    requires { 1 ≤ regions }
    ensures { result ≡ spec.fresh_region past.now (spec.region regions word.now) }
{
    let region = region(regions, word)?;
    if past.has_crash(region) {
        Err(ScriptKind::BadLine)
    } else {
        Ok(region)
    }
}

/// A region and an epoch, behind `crash` in a run.
#[tactic(auto, unfolding(crate::specs::inner::EventLines::crash_after))]
pub(crate) fn crash_after(regions: u8, past: &Past, rest: &str) -> Result<Event, ScriptKind>
    requires { 1 ≤ regions }
    ensures { result ≡ spec.crash_after regions past.now rest.now }
{
    let Some((at, epoch)) = after_words(rest) else {
        return Err(ScriptKind::BadLine);
    };
    let region = fresh_region(regions, past, at)?;
    let epoch = number(1, LAST_CRASH_EPOCH, epoch)?;
    Ok(Event::CrashAfter { region, epoch })
}
