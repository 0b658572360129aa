//! Lines that declare indexes.
ghost use Rattle.std.specs.Prelude.{◌≡◌, ◌≤◌, ◌<◌, ◌^◌, Ok, Err, length, codes, IfOk, IfSome, MatchResult, OnOk};
ghost use Rattle.geo_schema.specs.Schemas.{IsSchema, shown_only};
ghost use Rattle.schema_text.specs.inner.Texts.{index_of};
ghost use Rattle.geo_script.specs.Tables.{add_index};
ghost use Rattle.geo_script.specs.inner.TableLines as spec;

use crate::fault::ScriptKind;
use crate::reading::table::if_schema;
use crate::reading::words::cut_at_space;
use geo_base::{NoMemory, copy_items};
use geo_schema::{IndexDef, IndexList, TableDef};
use schema_text::read_index;
use std::alloc::Global;

/// The first word of the text, which isn't empty, and what stands behind the next space.
#[tactic(auto, unfolding(crate::specs::inner::TableLines::first_word))]
fn first_word(text: &str) -> Result<(&str, &str), ScriptKind>
    ensures parts { MatchResult result
        (λ p. spec.first_word text.now ≡ Ok (p.0.now, p.1.now))
        (λ kind. spec.first_word text.now ≡ Err kind) }
    ensures within { IfOk result (λ p. (length p.0.now ≤ length text.now) × (length p.1.now ≤ length text.now)) }
{
    match cut_at_space(text) {
        Some((word, rest)) if !word.is_empty() => Ok((word, rest)),
        None if !text.is_empty() => Err(ScriptKind::BadIndex),
        _ => Err(ScriptKind::BadLine),
    }
}

/// An index's name, and what stands behind a space, `on` and a space.
#[tactic(auto, unfolding(crate::specs::inner::TableLines::index_parts))]
fn index_parts(text: &str) -> Result<(&str, &str), ScriptKind>
    ensures parts { MatchResult result
        (λ p. spec.index_parts text.now ≡ Ok (p.0.now, p.1.now))
        (λ kind. spec.index_parts text.now ≡ Err kind) }
    ensures within { IfOk result (λ p. (length p.0.now ≤ length text.now) × (length p.1.now ≤ length text.now)) }
{
    let (name, rest) = first_word(text)?;
    let (on, rest) = first_word(rest)?;
    if on == "on" {
        Ok((name, rest))
    } else {
        Err(ScriptKind::BadIndex)
    }
}

/// The index of this name on what the text lists, and the number of its table.
fn index_of(
    alloc: Global,
    tables: &[TableDef],
    name: &str,
    text: &str,
) -> Result<Option<(usize, IndexDef)>, NoMemory>
    requires name { length name.now < 2 ^ 32 }
    requires text { length text.now < 2 ^ 32 }
    requires schema { IsSchema (shown_only tables.now) }
    ensures index { IfOk result (λ found. found ≡ index_of tables.now name.now text.now) }
    ensures within { IfOk result (λ found. IfSome found (λ index. index.0 < length tables.now)) }
{
    read_index(alloc, tables, name, text)
}

/// Gives the table with this number an index more.
fn add_index(
    alloc: Global,
    tables: &mut Vec<TableDef>,
    at: usize,
    index: IndexDef,
) -> Result<(), NoMemory>
    requires { at < length tables.old.items }
    ensures { OnOk result (tables.new.items ≡ add_index tables.old.items at index) }
{
    let mut indexes = copy_items(alloc, tables[at].indexes.items())?;
    indexes.push(index)?;
    tables[at].indexes = IndexList::new(indexes);
    Ok(())
}

/// Adds the index that the text declares. Of tables that are refused nothing is known.
#[tactic(auto, unfolding(crate::specs::inner::TableLines::with_index))]
pub(crate) fn declare_index(
    alloc: Global,
    tables: &mut Vec<TableDef>,
    text: &str,
) -> Result<Result<(), ScriptKind>, NoMemory>
    requires text { length text.now < 2 ^ 32 }
    requires schema { IsSchema (shown_only tables.old.items) }
    ensures { IfOk result (λ found. MatchResult found
        (λ _. spec.with_index tables.old.items text.now ≡ Ok tables.new.items)
        (λ fault. spec.with_index tables.old.items text.now ≡ Err fault)) }
{
    let (word, list) = match index_parts(text) {
        Ok(parts) => parts,
        Err(kind) => return Ok(Err(kind)),
    };
    match index_of(alloc, tables.as_slice(), word, list)? {
        Some((at, index)) => {
            add_index(alloc, tables, at, index)?;
            if_schema(alloc, ScriptKind::BadIndex, tables.as_slice())
        }
        None => Ok(Err(ScriptKind::BadIndex)),
    }
}
