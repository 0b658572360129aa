//! The lines that declare tables and indexes.
ghost use Rattle.std.specs.Prelude.{◌≡◌, ◌+◌, ◌<◌, ◌^◌, [], None, Ok, Err, length, codes, IfOk, MatchResult};
ghost use Rattle.std.specs.Str.{bytes_eq};
ghost use Rattle.geo_schema.specs.Schemas.{IsSchema, shown_only};
ghost use Rattle.geo_script.specs.inner.Answers.{Answers, spoken, number_after};
ghost use Rattle.geo_script.specs.inner.Scripts.{head_of};
ghost use Rattle.geo_script.specs.inner.TableLines as spec;

use crate::fault::{ScriptKind, ScriptRefusal, bad};
use crate::reading::index::declare_index;
use crate::reading::lines::{Rest, next_spoken, text_of};
use crate::reading::table::declare_table;
use crate::reading::words::cut_at_space;
use geo_base::NoMemory;
use geo_schema::TableDef;
use std::alloc::Global;

/// What is wrong with a line of one word.
fn alone(word: &str) -> ScriptKind
    ensures { spec.alone word.now ≡ Err result }
{
    if word == "table" {
        ScriptKind::BadTable
    } else if word == "index" {
        ScriptKind::BadIndex
    } else {
        ScriptKind::BadLine
    }
}

/// Adds what the text declares to the tables. Of tables that are refused nothing is known.
#[tactic(auto, unfolding(crate::specs::inner::TableLines::declared_by))]
fn declare(
    alloc: Global,
    tables: &mut Vec<TableDef>,
    text: &str,
) -> Result<Result<(), ScriptKind>, NoMemory>
    requires text { length text.now < 2 ^ 32 }
    requires schema { IsSchema (shown_only tables.old.items) }
    ensures { IfOk result (λ found. MatchResult found
        (λ _. spec.declared_by tables.old.items text.now ≡ Ok tables.new.items)
        (λ fault. spec.declared_by tables.old.items text.now ≡ Err fault)) }
{
    let Some((word, rest)) = cut_at_space(text) else {
        return Ok(Err(alone(text)));
    };
    if word == "table" {
        declare_table(alloc, tables, rest)
    } else if word == "index" {
        declare_index(alloc, tables, rest)
    } else {
        Ok(Err(ScriptKind::BadLine))
    }
}

/// Adds what the line declares to the tables. Of tables that are refused nothing is known.
#[tactic(auto, unfolding(crate::specs::inner::TableLines::table_line))]
fn declare_line(
    alloc: Global,
    tables: &mut Vec<TableDef>,
    line: &[u8],
) -> Result<Result<(), ScriptKind>, NoMemory>
    requires line { length line.now < 2 ^ 32 }
    requires schema { IsSchema (shown_only tables.old.items) }
    ensures { IfOk result (λ found. MatchResult found
        (λ _. spec.table_line tables.old.items line.now ≡ Ok tables.new.items)
        (λ fault. spec.table_line tables.old.items line.now ≡ Err fault)) }
{
    match text_of(line) {
        Ok(text) => declare(alloc, tables, text),
        Err(kind) => Ok(Err(kind)),
    }
}

/// The line ends the head.
fn is_begin(line: &[u8]) -> bool
    ensures { result ≡ bytes_eq line.now (codes "begin") }
{
    line == b"begin".as_slice()
}

/// Adds what all lines up to `begin` declare to the tables, and answers the rest behind that line. Of tables that
/// are refused nothing is known.
#[tactic(auto, using(crate::proofs::Declarations::line_leaves_schema))]
pub(crate) fn read_tables<'a>(
    alloc: Global,
    rest: Rest<'a>,
    tables: &mut Vec<TableDef>,
) -> Result<Rest<'a>, ScriptRefusal>
    requires room { rest.number + length rest.bytes.now < 2 ^ 32 }
    requires schema { IsSchema (shown_only tables.old.items) }
    ensures head { Answers (λ behind. (tables.new.items, spoken behind)) result (head_of (number_after rest.entry) tables.old.items (spoken rest.entry)) }
    ensures schema { IfOk result (λ _. IsSchema (shown_only tables.new.items)) }
    ensures room { IfOk result (λ behind. behind.number + length behind.bytes.now < 2 ^ 32) }
{
    let mut ahead = rest;
    loop {
        let next = match next_spoken(ahead) {
            Ok(next) => next,
            Err(after) => return Err(bad(after, ScriptKind::MissingBegin)),
        };
        if is_begin(next.line) {
            return Ok(next.rest);
        }
        if let Err(kind) = declare_line(alloc, tables, next.line)? {
            return Err(bad(next.number, kind));
        }
        ahead = next.rest;
    }
}
