//! Lists in parentheses, with commas between their items.
ghost use Rattle.std.specs.Prelude.{◌≡◌, ◌<◌, Some, None, map, IfOk, MatchOption};
ghost use Rattle.std.specs.List.{slice_split};
ghost use Rattle.std.specs.Option.{option_map};
ghost use Rattle.schema_text.specs.inner.Marks.{is_comma};
ghost use Rattle.schema_text.specs.inner.Texts as spec;

use crate::mark::{Mark, is_close, is_comma};
use geo_base::NoMemory;
use std::alloc::Global;

/// What stands before the last mark, if that closes a parenthesis.
fn before_close(marks: &[Mark]) -> Option<&[Mark]>
    ensures { MatchOption result (spec.before_close marks.now ≡ None) (λ before. spec.before_close marks.now ≡ Some before.now) }
{
    let (last, before) = marks.split_last()?;
    if is_close(last) { Some(before) } else { None }
}

/// The parts between commas.
fn parts(alloc: Global, marks: &[Mark]) -> Result<Vec<&[Mark]>, NoMemory>
    ensures { IfOk result (λ parts. map (λ part. part.now) parts.items ≡ slice_split is_comma marks.now) }
{
    Ok(marks.split(|mark| is_comma(mark)).collect(alloc)?)
}

/// The items of a list in parentheses.
#[tactic(auto, unfolding(crate::specs::inner::Texts::listed))]
pub(crate) fn listed(alloc: Global, marks: &[Mark]) -> Result<Option<Vec<&[Mark]>>, NoMemory>
    ensures { IfOk result (λ found. option_map (λ items. map (λ item. item.now) items.items) found ≡ spec.listed marks.now) }
{
    let [Mark::Open, rest @ ..] = marks else {
        return Ok(None);
    };
    match before_close(rest) {
        Some(inner) => Ok(Some(parts(alloc, inner)?)),
        None => Ok(None),
    }
}
