//! Event lines, from the line `begin` on.
ghost use Rattle.std.specs.Prelude.{◌≡◌, ◌≢◌, ◌+◌, ◌<◌, ◌≤◌, ◌^◌, Some, None, Ok, Err, length, IfOk, MatchOption, MatchResult};
ghost use Rattle.geo_script.specs.declared.script.Form.TheVariants.{Play, Run};
ghost use Rattle.geo_script.specs.inner.Answers.{Answers, spoken};
ghost use Rattle.geo_script.specs.inner.EventLines as spec;
ghost use Rattle.geo_script.specs.declared.verb.Verb.TheVariants.{Sql};
ghost use Rattle.geo_script.specs.inner.Past.{nothing_yet, next_past};
ghost use Rattle.geo_script.specs.inner.Scripts.{at, behind, events_of};

use crate::event::Event;
use crate::fault::{ScriptKind, ScriptRefusal, bad};
use crate::limits::SESSIONS_PER_RUN;
use crate::past::Past;
use crate::reading::event_line::{
    crash, crash_after, deliver, fetch, only_region, outcome, sql, work,
};
use crate::reading::lines::{Rest, next_spoken, text_of};
use crate::reading::words::cut_at_space;
use crate::script::{EventAt, EventAtList, Form};
use crate::verb::{Verb, verb_of};
use geo_base::NoMemory;
use std::alloc::Global;

/// An event line of a play, by its first word and what stands behind the next space.
#[tactic(auto, unfolding(crate::specs::inner::EventLines::play_event))]
fn play_event(
    alloc: Global,
    regions: u8,
    verb: Verb,
    rest: &str,
) -> Result<Result<Event, ScriptKind>, NoMemory>
    requires { 1 ≤ regions }
    ensures { IfOk result (λ found. found ≡ spec.play_event regions verb rest.now) }
{
    match verb {
        Verb::Sql => sql(alloc, regions, rest),
        other => Ok(plain_event(regions, other, rest)),
    }
}

/// An event line of a play that has no statement.
#[tactic(auto, unfolding(crate::specs::inner::EventLines::play_event))]
fn plain_event(regions: u8, verb: Verb, rest: &str) -> Result<Event, ScriptKind>
    requires regions { 1 ≤ regions }
    requires plain { verb ≢ Sql }
    ensures { result ≡ spec.play_event regions verb rest.now }
{
    match verb {
        Verb::Sql => unreachable!(),
        Verb::Outcome => outcome(regions, rest),
        Verb::Seal => Ok(Event::Seal {
            region: only_region(regions, rest)?,
        }),
        Verb::Deliver => deliver(rest),
        Verb::Fetch => fetch(regions, rest),
        Verb::Work => work(regions, rest),
        Verb::Publish => Ok(Event::Publish {
            region: only_region(regions, rest)?,
        }),
        Verb::Show => Ok(Event::Show {
            region: only_region(regions, rest)?,
        }),
        Verb::Crash => crash(regions, rest),
        Verb::Restart => Ok(Event::Restart {
            region: only_region(regions, rest)?,
        }),
    }
}

/// The statement is of a session that the run has already, or there is room for one more.
fn if_admitted(past: &Past, event: Event) -> Result<Event, ScriptKind>
    ensures { result ≡ spec.if_admitted past.now event }
{
    if let Event::Sql {
        region,
        session,
        ..
    } = &event
    {
        if !past.has_session(*region, *session) && past.sessions() >= SESSIONS_PER_RUN {
            return Err(ScriptKind::TooManySessions);
        }
    }
    Ok(event)
}

/// An event line of a run, which has statements and crashes alone.
#[tactic(auto, unfolding(crate::specs::inner::EventLines::run_event))]
fn run_event(
    alloc: Global,
    regions: u8,
    past: &Past,
    verb: Verb,
    rest: &str,
) -> Result<Result<Event, ScriptKind>, NoMemory>
    requires { 1 ≤ regions }
    ensures { IfOk result (λ found. found ≡ spec.run_event regions past.now verb rest.now) }
{
    match verb {
        Verb::Sql => match sql(alloc, regions, rest)? {
            Ok(event) => Ok(if_admitted(past, event)),
            Err(kind) => Ok(Err(kind)),
        },
        Verb::Crash => Ok(crash_after(regions, past, rest)),
        _ => Ok(Err(ScriptKind::BadLine)),
    }
}

/// The first word of the text, if it is a verb, and what stands behind the next space.
#[tactic(auto, unfolding(crate::specs::inner::EventLines::verb_and_rest))]
fn verb_and_rest(text: &str) -> Option<(Verb, &str)>
    ensures { MatchOption result
        (spec.verb_and_rest text.now ≡ None)
        (λ p. spec.verb_and_rest text.now ≡ Some (p.0, p.1.now)) }
{
    let (word, rest) = cut_at_space(text)?;
    let verb = verb_of(word.as_bytes())?;
    Some((verb, rest))
}

/// The event that the text asks for.
#[tactic(auto, unfolding(crate::specs::inner::EventLines::event_of, crate::specs::inner::EventLines::form_event))]
fn event_of(
    alloc: Global,
    form: Form,
    regions: u8,
    past: &Past,
    text: &str,
) -> Result<Result<Event, ScriptKind>, NoMemory>
    requires { 1 ≤ regions }
    ensures { IfOk result (λ found. found ≡ spec.event_of form regions past.now text.now) }
{
    let Some((verb, rest)) = verb_and_rest(text) else {
        return Ok(Err(ScriptKind::BadLine));
    };
    match form {
        Form::Play => play_event(alloc, regions, verb, rest),
        Form::Run => run_event(alloc, regions, past, verb, rest),
    }
}

/// The event that the line asks for.
#[tactic(auto, unfolding(crate::specs::inner::EventLines::event_line))]
fn event_line(
    alloc: Global,
    form: Form,
    regions: u8,
    past: &Past,
    line: &[u8],
) -> Result<Result<Event, ScriptKind>, NoMemory>
    requires { 1 ≤ regions }
    ensures { IfOk result (λ found. found ≡ spec.event_line form regions past.now line.now) }
{
    match text_of(line) {
        Ok(text) => event_of(alloc, form, regions, past, text),
        Err(kind) => Ok(Err(kind)),
    }
}

/// The event of the line with this number, which the past then has too.
fn event_at(
    alloc: Global,
    form: Form,
    regions: u8,
    past: &mut Past,
    number: u32,
    line: &[u8],
) -> Result<EventAt, ScriptRefusal>
    requires { 1 ≤ regions }
    ensures event { Answers (λ at. at.event) result (at number (spec.event_line form regions past.old line.now)) }
    ensures line { IfOk result (λ at. at.line ≡ number) }
    ensures past { IfOk result (λ at. past.new ≡ next_past form past.old at.event) }
{
    match event_line(alloc, form, regions, past, line)? {
        Ok(event) => {
            past.add(form, &event)?;
            Ok(EventAt {
                line: number,
                event,
            })
        }
        Err(kind) => Err(bad(number, kind)),
    }
}

/// Reads the event of each line that says something, behind those that were read. Of the events behind an error
/// nothing is known.
fn read_rest(
    alloc: Global,
    form: Form,
    regions: u8,
    rest: Rest<'_>,
    past: &mut Past,
    events: &mut Vec<EventAt>,
) -> Result<(), ScriptRefusal>
    requires regions { 1 ≤ regions }
    requires room { rest.number + length rest.bytes.now < 2 ^ 32 }
    ensures { Answers (λ _. events.new.items) result (behind events.old.items (events_of form regions past.old (spoken rest.entry))) }
{
    let mut ahead = rest;
    while let Ok(next) = next_spoken(ahead) {
        let event = event_at(alloc, form, regions, past, next.number, next.line)?;
        events.push(event)?;
        ahead = next.rest;
    }
    Ok(())
}

/// The events of all lines that say something.
#[tactic(auto, using(crate::proofs::EventLists::behind_none))]
pub(crate) fn read_events(
    alloc: Global,
    form: Form,
    regions: u8,
    rest: Rest<'_>,
) -> Result<EventAtList, ScriptRefusal>
    requires regions { 1 ≤ regions }
    requires room { rest.number + length rest.bytes.now < 2 ^ 32 }
    ensures { Answers (λ events. events) result (events_of form regions nothing_yet (spoken rest.entry)) }
{
    let mut past = Past::new(alloc);
    let mut events = Vec::new(alloc);
    read_rest(alloc, form, regions, rest, &mut past, &mut events)?;
    Ok(EventAtList::new(events))
}
