//! The lines behind the header.
ghost use Rattle.std.specs.Prelude.{◌≡◌, ◌+◌, ◌≤◌, [], length, IfOk, IfSome, IfNone, ◌∷◌, ◌<◌, ℕ, Err};
ghost use Rattle.geo_base.specs.declared.limits.TheConstants.{SCRIPT_BYTES};
ghost use Rattle.world_script.specs.declared.script.ScriptFault.{ScriptFault};
ghost use Rattle.world_script.specs.declared.script.ScriptKind.TheVariants.{NotBuilt};
ghost use Rattle.world_script.specs.declared.script.ReadFault.TheVariants as read_fault;
ghost use Rattle.world_script.specs.inner.Reading.{HasEvents, HasOther, LacksWanted, IsEventLine};

use crate::event::{Event, EventList};
use crate::reading::event_line::read_event;
use crate::reading::header::bad_line;
use crate::reading::pieces::cut_at;
use crate::script::ReadFault;
use std::alloc::Global;

/// The events of the lines, for this number of regions.
pub fn read_events(alloc: Global, text: &[u8], regions: u8) -> Result<EventList, ReadFault>
    requires { length text.now ≤ SCRIPT_BYTES }
    ensures ok { IfOk result (λ events. HasEvents regions text.now events []) }
    ensures fault { (fault : ScriptFault) → result ≡ Err (read_fault.Script fault) →
        (fault.kind ≡ NotBuilt) × ((count : ℕ) × (fault.line ≡ count + 5) × HasOther regions text.now count) }
{
    let mut events: Vec<Event> = Vec::new(alloc);
    let mut rest = text;
    while !rest.is_empty() {
        let Some((event, more)) = next_event(rest, regions) else {
            return Err(ReadFault::Script(bad_line(events.len() as u32 + FIRST_EVENT)));
        };
        events.push(event)?;
        rest = more;
    }
    Ok(EventList::new(events))
}

/// The event of the first line, and the text behind that line.
fn next_event(text: &[u8], regions: u8) -> Option<(Event, &[u8])>
    ensures found { IfSome result (λ next. HasEvents regions text.now (next.0 ∷ []) next.1.now) }
    ensures shorter { IfSome result (λ next. length next.1.now < length text.now) }
    ensures none { IfNone result (LacksWanted (IsEventLine regions) text.now) }
{
    let (line, more) = cut_at(text, b'\n')?;
    let event = read_event(line, regions)?;
    Some((event, more))
}

/// The number of the first line behind the header.
const FIRST_EVENT: u32 = 5;
