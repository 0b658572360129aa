//! What an event is, with a text that is lent.
use geo_script::{Event, EventAt, Sealing};

/// An event: the word that its line begins with, its numbers, and its statement or how a region crashes.
pub type Seen<'a> = (&'a str, u32, u32, u32, &'a str);

fn sealing_word(sealing: Sealing) -> &'static str {
    match sealing {
        Sealing::No => "",
        Sealing::Kept => "sealing kept",
        Sealing::Lost => "sealing lost",
    }
}

fn seen(event: &Event) -> Seen<'_> {
    match event {
        Event::Sql {
            region,
            session,
            text,
        } => (
            "sql",
            u32::from(*region),
            u32::from(*session),
            0,
            text.text(),
        ),
        Event::Outcome { region, session } => {
            ("outcome", u32::from(*region), u32::from(*session), 0, "")
        }
        Event::Seal { region } => ("seal", u32::from(*region), 0, 0, ""),
        Event::Deliver { first, last } => ("deliver", *first, *last, 0, ""),
        Event::Fetch {
            region,
            asked,
            epoch,
        } => ("fetch", u32::from(*region), u32::from(*asked), *epoch, ""),
        Event::Work { region, worker } => ("work", u32::from(*region), u32::from(*worker), 0, ""),
        Event::Publish { region } => ("publish", u32::from(*region), 0, 0, ""),
        Event::Show { region } => ("show", u32::from(*region), 0, 0, ""),
        Event::Crash { region, sealing } => {
            ("crash", u32::from(*region), 0, 0, sealing_word(*sealing))
        }
        Event::Restart { region } => ("restart", u32::from(*region), 0, 0, ""),
        Event::CrashAfter { region, epoch } => ("crash", u32::from(*region), *epoch, 0, "after"),
    }
}

/// The event of the line is this one.
pub fn is_seen(found: &EventAt, line: u32, wanted: Seen<'_>) -> bool {
    found.line == line && seen(&found.event) == wanted
}
