//! Lines that ask for events.
ghost use Rattle.std.specs.Prelude.{◌≡◌, ◌↔◌, ℕ, ◌<◌, ◌^◌, IsTrue, IfSome, Some};
ghost use Rattle.std.specs.Fmt.{decimal};
ghost use Rattle.world_script.specs.declared.event.Statement.{Statement};
ghost use Rattle.world_script.specs.declared.event.Event.{Event};
ghost use Rattle.world_script.specs.Script.{IsLineOf, IsWithin};

use crate::event::Event;
use crate::reading::numbers::{number_after, read_number};
use crate::reading::pieces::{after_word, cut_at};
use crate::reading::statement::read_statement;
use geo_base::limits::{PACKETS_PER_LINE, SESSIONS_PER_REGION};

/// The event that the line asks for, in range for this number of regions.
pub fn read_event(line: &[u8], regions: u8) -> Option<Event>
    ensures found { IfSome result (λ event. IsLineOf event line.now × IsWithin regions event) }
    ensures only { (event : Event) → IsLineOf event line.now → IsWithin regions event → result ≡ Some event }
{
    if let Some(region) = number_after(line, b"seal ", regions) {
        return Some(Event::Seal { region });
    }
    if let Some(region) = number_after(line, b"publish ", regions) {
        return Some(Event::Publish { region });
    }
    if let Some(region) = number_after(line, b"show ", regions) {
        return Some(Event::Show { region });
    }
    if let Some((first, last)) = read_deliver(line) {
        return Some(Event::Deliver { first, last });
    }
    read_sql(line, regions)
}

/// The first and the last number of the packets that the line delivers.
fn read_deliver(line: &[u8]) -> Option<(u32, u32)>
    ensures found { IfSome result (λ p. IsLineOf (Event.Deliver p.0 p.1) line.now × IsWithin 0 (Event.Deliver p.0 p.1)) }
    ensures only { (first last : ℕ) → IsLineOf (Event.Deliver first last) line.now → IsWithin 0 (Event.Deliver first last) →
        result ≡ Some (first, last) }
{
    let numbers = after_word(line, b"deliver ")?;
    if let Some((first, last)) = cut_at(numbers, b' ') {
        let first = read_packet(first)?;
        let last = read_packet(last)?;
        if are_packets(first, last) {
            Some((first, last))
        } else {
            None
        }
    } else {
        let packet = read_packet(numbers)?;
        Some((packet, packet))
    }
}

/// One line may deliver the packets of these numbers.
fn are_packets(first: u32, last: u32) -> bool
    ensures { IsTrue result ↔ IsWithin 0 (Event.Deliver first last) }
{
    first <= last && last - first < PACKETS_PER_LINE
}

/// The number of a packet that the bytes spell.
fn read_packet(bytes: &[u8]) -> Option<u32>
    ensures found { IfSome result (λ n. (bytes.now ≡ decimal n) × (n < 2 ^ 32)) }
    ensures only { (n : ℕ) → n < 2 ^ 32 → bytes.now ≡ decimal n → result ≡ Some n }
{
    let number = read_number(bytes, PACKETS)?;
    Some(number as u32)
}

/// The statement that the line runs in a session.
fn read_sql(line: &[u8], regions: u8) -> Option<Event>
    ensures found { IfSome result (λ event. IsLineOf event line.now × IsWithin regions event) }
    ensures only { (region session : ℕ) (statement : Statement) → IsLineOf (Event.Sql region session statement) line.now →
        IsWithin regions (Event.Sql region session statement) → result ≡ Some (Event.Sql region session statement) }
{
    let rest = after_word(line, b"sql ")?;
    let (region, rest) = cut_at(rest, b'.')?;
    let (session, text) = cut_at(rest, b' ')?;
    let region = number_after(region, b"", regions)?;
    let session = number_after(session, b"", SESSIONS_PER_REGION)?;
    let statement = read_statement(text)?;
    Some(Event::Sql {
        region,
        session,
        statement,
    })
}

/// The number of a packet is below this.
const PACKETS: u64 = 4_294_967_296;
