//! The lines up to `begin`.
ghost use Rattle.std.specs.Prelude.{◌≡◌, ◌+◌, ◌≤◌, ◌<◌, ◌^◌, ◌∷◌, [], None, Ok, Err, length, IfOk, MatchResult, codes};
ghost use Rattle.geo_base.specs.declared.limits.TheConstants.{MAX_REGIONS};
ghost use Rattle.geo_script.specs.inner.Answers.{Answers, spoken, number_after};
ghost use Rattle.geo_script.specs.Spelling.{title};
ghost use Rattle.geo_script.specs.inner.Scripts as spec;

use crate::fault::{ScriptFault, ScriptKind, ScriptRefusal};
use crate::reading::event_line::number;
use crate::reading::lines::{Rest, next_spoken, text_of};
use crate::reading::words::{cut_at_space, is_word};
use crate::script::Form;
use geo_base::NoMemory;
use geo_base::limits::MAX_REGIONS;
use geo_schema::TableDef;
use std::alloc::Global;

/// The first line of a script of the form.
fn title(form: Form) -> &'static str
    ensures { result.now ≡ title form }
{
    match form {
        Form::Play => "geogauss play 1",
        Form::Run => "geogauss run 1",
    }
}

/// The line that names the form.
#[tactic(auto, unfolding(crate::specs::inner::Scripts::title_line))]
pub(crate) fn title_line(form: Form, line: &[u8]) -> Result<(), ScriptKind>
    ensures { MatchResult result
        (λ _. spec.title_line form line.now ≡ Ok tt)
        (λ kind. spec.title_line form line.now ≡ Err kind) }
{
    if text_of(line)? == title(form) {
        Ok(())
    } else {
        Err(ScriptKind::BadHeader)
    }
}

/// The word behind `regions` and a space.
#[tactic(auto, unfolding(crate::specs::inner::Scripts::regions_word))]
fn regions_word(line: &str) -> Result<&str, ScriptKind>
    ensures { MatchResult result
        (λ word. spec.regions_word line.now ≡ Ok word.now)
        (λ kind. spec.regions_word line.now ≡ Err kind) }
{
    let Some((word, rest)) = cut_at_space(line) else {
        return Err(ScriptKind::BadHeader);
    };
    if word == "regions" && is_word(rest) {
        Ok(rest)
    } else {
        Err(ScriptKind::BadHeader)
    }
}

/// The line that says how many regions there are.
#[tactic(auto, unfolding(crate::specs::inner::Scripts::regions_line))]
pub(crate) fn regions_line(line: &[u8]) -> Result<u8, ScriptKind>
    ensures regions { result ≡ spec.regions_line line.now }
    ensures some { IfOk result (λ regions. 1 ≤ regions) }
{
    let text = text_of(line)?;
    let word = regions_word(text)?;
    let regions = number(1, u32::from(MAX_REGIONS), word)?;
    Ok(regions as u8)
}
