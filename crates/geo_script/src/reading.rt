//! Reading the text of a script.
ghost use Rattle.std.specs.Prelude.{◌≡◌, ◌⊎◌, ◌≤◌, length, None, IfOk, IfErr, MatchResult};
ghost use Rattle.geo_base.specs.declared.limits.TheConstants.{SCRIPT_BYTES};
ghost use Rattle.geo_schema.specs.Schemas.{IsSchema, shown_only};
ghost use Rattle.geo_script.specs.declared.script.Script.{Script};
ghost use Rattle.geo_script.specs.inner.Answers.{Answers};
ghost use Rattle.geo_script.specs.declared.fault.ScriptFault.{ScriptFault};
ghost use Rattle.geo_script.specs.Faults.{IsFault, IsRefusal};
ghost use Rattle.geo_script.specs.Lines.{lines_of};
ghost use Rattle.geo_script.specs.inner.Scripts as spec;
ghost use Rattle.geo_script.specs.Spelling.{IsScriptText};

mod declared;
mod event_line;
mod event_words;
mod events;
mod head;
mod index;
mod lines;
mod table;
mod words;

use crate::fault::{ScriptKind, ScriptRefusal, bad};
use crate::script::{Form, Script};
use declared::read_tables;
use events::read_events;
use geo_base::NoMemory;
use geo_base::limits::SCRIPT_BYTES;
use geo_schema::{Schema, SchemaFault, TableDef};
use head::{regions_line, title_line};
use lines::{Rest, next_line};
use std::alloc::Global;

/// The script that the bytes spell. A text that is none is refused at its first bad line, or as too long.
/// Takes one pass over the bytes; each line that declares a table or an index copies the tables above it, of
/// which there are at most 64.
pub fn read_script(alloc: Global, bytes: &[u8], form: Form) -> Result<Script, ScriptRefusal>
    ensures spelled { IfOk result (λ script. IsScriptText form bytes.now script) }
    ensures only { (script : Script) → IsScriptText form bytes.now script →
        MatchResult result (λ found. found ≡ script) (λ e. e ≡ ScriptRefusal.NoMemory) }
    ensures fault { IfErr result (λ e. IsRefusal form bytes.now e) }
    ensures only_faults { (fault : ScriptFault) → IsFault form bytes.now fault →
        MatchResult result (λ _. ⊥) (λ e. (e ≡ ScriptRefusal.NoMemory) ⊎ (e ≡ ScriptRefusal.Script fault)) }
{
    read_text(alloc, form, bytes)
}

/// The script of a text, which has at most 16,777,216 bytes.
#[tactic(auto, unfolding(crate::specs::inner::Scripts::script_of))]
fn read_text(alloc: Global, form: Form, bytes: &[u8]) -> Result<Script, ScriptRefusal>
    ensures { Answers (λ script. script) result (spec.script_of form bytes.now) }
{
    if bytes.len() <= SCRIPT_BYTES {
        read_lines(alloc, form, bytes)
    } else {
        Err(bad(0, ScriptKind::TooLong))
    }
}

/// The script of all lines.
#[tactic(auto, unfolding(crate::specs::inner::Scripts::script_of_lines))]
fn read_lines(alloc: Global, form: Form, bytes: &[u8]) -> Result<Script, ScriptRefusal>
    requires { length bytes.now ≤ SCRIPT_BYTES }
    ensures { Answers (λ script. script) result (spec.script_of_lines form (lines_of bytes.now)) }
{
    let Some((first, rest)) = next_line(bytes) else {
        return Err(bad(1, ScriptKind::BadHeader));
    };
    if let Err(kind) = title_line(form, first) {
        return Err(bad(1, kind));
    }
    let Some((second, rest)) = next_line(rest) else {
        return Err(bad(2, ScriptKind::BadHeader));
    };
    match regions_line(second) {
        Ok(regions) => read_body(alloc, form, regions, rest),
        Err(kind) => Err(bad(2, kind)),
    }
}

/// The script of the lines behind the first two, for this number of regions.
#[tactic(auto, using(crate::proofs::SchemaTables::no_tables_yet), unfolding(crate::specs::inner::Scripts::body_of))]
fn read_body(alloc: Global, form: Form, regions: u8, bytes: &[u8]) -> Result<Script, ScriptRefusal>
    requires regions { 1 ≤ regions }
    requires short { length bytes.now ≤ SCRIPT_BYTES }
    ensures { Answers (λ script. script) result (spec.body_of form regions (lines_of bytes.now)) }
{
    let rest = Rest { bytes, number: 3 };
    let mut tables = Vec::new(alloc);
    let rest = read_tables(alloc, rest, &mut tables)?;
    let events = read_events(alloc, form, regions, rest)?;
    Ok(Script {
        regions,
        schema: schema_of(alloc, tables)?,
        events,
    })
}

/// The schema of tables that are one.
#[tactic(auto, using(crate::proofs::SchemaTables::schema_or_fault))]
fn schema_of(alloc: Global, tables: Vec<TableDef>) -> Result<Schema, NoMemory>
    requires { IsSchema (shown_only tables.items) }
    ensures { IfOk result (λ schema. schema ≡ shown_only tables.items) }
{
    match Schema::new(alloc, tables) {
        Ok(schema) => Ok(schema),
        Err(SchemaFault::NoMemory) => Err(NoMemory),
        Err(_) => unreachable!(),
    }
}
