//! The words of event lines, behind the first one.
ghost use Rattle.std.specs.Prelude.{◌≡◌, Some, None, Ok, Err, MatchOption, MatchResult, codes, IsTrue, ◌↔◌};
ghost use Rattle.std.specs.Str.{bytes_eq};
ghost use Rattle.geo_script.specs.inner.EventLines as spec;

use crate::event::Sealing;
use crate::reading::words::{cut_at_space, is_word, three_words, two_words};

/// A session's place, and the statement behind the next space.
#[tactic(auto, unfolding(crate::specs::inner::EventLines::statement_parts))]
pub(crate) fn statement_parts(rest: &str) -> Option<(&str, &str)>
    ensures { MatchOption result
        (spec.statement_parts rest.now ≡ None)
        (λ p. spec.statement_parts rest.now ≡ Some (p.0.now, p.1.now)) }
{
    let (place, text) = cut_at_space(rest)?;
    if is_word(place) && !text.is_empty() {
        Some((place, text))
    } else {
        None
    }
}

/// The first packet and the last one, or one that is both.
#[tactic(auto, unfolding(crate::specs::inner::EventLines::packet_words))]
pub(crate) fn packet_words(rest: &str) -> Option<(&str, &str)>
    ensures { MatchOption result
        (spec.packet_words rest.now ≡ None)
        (λ p. spec.packet_words rest.now ≡ Some (p.0.now, p.1.now)) }
{
    if is_word(rest) {
        Some((rest, rest))
    } else {
        two_words(rest)
    }
}

/// What becomes of the open epoch, by the two words behind a region.
#[tactic(auto, unfolding(crate::specs::inner::EventLines::sealing_of))]
fn sealing_of(sealing: &str, fate: &str) -> Option<Sealing>
    ensures { result ≡ spec.sealing_of sealing.now fate.now }
{
    if sealing != "sealing" {
        None
    } else if fate == "kept" {
        Some(Sealing::Kept)
    } else if fate == "lost" {
        Some(Sealing::Lost)
    } else {
        None
    }
}

/// A region alone, or one and what becomes of its open epoch.
#[tactic(auto, unfolding(crate::specs::inner::EventLines::crash_words))]
pub(crate) fn crash_words(rest: &str) -> Option<(&str, Sealing)>
    ensures { MatchOption result
        (spec.crash_words rest.now ≡ None)
        (λ p. spec.crash_words rest.now ≡ Some (p.0.now, p.1)) }
{
    if is_word(rest) {
        return Some((rest, Sealing::No));
    }
    let (region, sealing, fate) = three_words(rest)?;
    let sealing = sealing_of(sealing, fate)?;
    Some((region, sealing))
}

/// A region and an epoch, with the word `after` between them.
#[tactic(auto, unfolding(crate::specs::inner::EventLines::after_words))]
pub(crate) fn after_words(rest: &str) -> Option<(&str, &str)>
    ensures { MatchOption result
        (spec.after_words rest.now ≡ None)
        (λ p. spec.after_words rest.now ≡ Some (p.0.now, p.1.now)) }
{
    let (region, after, epoch) = three_words(rest)?;
    if after == "after" {
        Some((region, epoch))
    } else {
        None
    }
}
