//! Texts that declare indexes.
ghost use Rattle.std.specs.Prelude.{◌≡◌, ◌≤◌, ◌<◌, ◌^◌, ℕ, Some, map, length, IfOk, IfSome};
ghost use Rattle.std.specs.Option.{option_map, option_and_then};
ghost use Rattle.geo_base.specs.declared.limits.TheConstants.{MAX_COLUMNS};
ghost use Rattle.geo_schema.specs.declared.index.IndexDef.{IndexDef};
ghost use Rattle.geo_schema.specs.Schemas.{IsSchema, shown_only, number_of};
ghost use Rattle.schema_text.specs.Spelling.{IsIndexText};
ghost use Rattle.schema_text.specs.Tables.{column_place};
ghost use Rattle.schema_text.specs.inner.Marks as marks_spec;
ghost use Rattle.schema_text.specs.inner.Texts as spec;

use crate::listed::listed;
use crate::mark::{Mark, marks_of};
use geo_base::limits::MAX_COLUMNS;
use geo_base::{Duplicate, NoMemory, Txt};
use geo_schema::{ColumnDef, IndexDef, PlaceList, TableDef};
use std::alloc::Global;

/// A name alone.
#[tactic(auto, unfolding(crate::specs::inner::Texts::name_of))]
fn name_of(alloc: Global, marks: &[Mark]) -> Result<Option<Txt>, NoMemory>
    ensures { IfOk result (λ found. found ≡ spec.name_of marks.now) }
{
    match marks {
        [Mark::Name(name)] => Ok(Some(name.copy(alloc)?)),
        _ => Ok(None),
    }
}

/// The name that stands alone in the text.
fn only_name(alloc: Global, text: &str) -> Result<Option<Txt>, NoMemory>
    requires { length text.now < 2 ^ 32 }
    ensures { IfOk result (λ found. found ≡ option_and_then spec.name_of (marks_spec.marks_of text.now)) }
{
    match marks_of(alloc, text)? {
        Some(marks) => name_of(alloc, marks.as_slice()),
        None => Ok(None),
    }
}

/// The name that the word is.
#[tactic(auto, unfolding(crate::specs::inner::Texts::index_name))]
fn index_name(alloc: Global, word: &str) -> Result<Option<Txt>, NoMemory>
    requires { length word.now < 2 ^ 32 }
    ensures { IfOk result (λ found. found ≡ spec.index_name word.now) }
{
    match only_name(alloc, word)? {
        Some(name) if name.text() == word => Ok(Some(name)),
        _ => Ok(None),
    }
}

/// The names, if each item is one.
fn each_name(alloc: Global, items: &[&[Mark]]) -> Result<Option<Vec<Txt>>, NoMemory>
    ensures { IfOk result (λ found. option_map (λ names. names.items) found ≡ spec.all_read spec.name_of (map (λ item. item.now) items.now)) }
{
    let mut names = Vec::new(alloc);
    for item in items {
        match name_of(alloc, item)? {
            Some(name) => names.push(name)?,
            None => return Ok(None),
        }
    }
    Ok(Some(names))
}

/// The names of a list in parentheses.
fn listed_names(alloc: Global, marks: &[Mark]) -> Result<Option<Vec<Txt>>, NoMemory>
    ensures { IfOk result (λ found. option_map (λ names. names.items) found ≡ option_and_then (spec.all_read spec.name_of) (spec.listed marks.now)) }
{
    match listed(alloc, marks)? {
        Some(items) => each_name(alloc, items.as_slice()),
        None => Ok(None),
    }
}

/// A table's name, and names in parentheses.
#[tactic(auto, unfolding(crate::specs::inner::Texts::named_list))]
fn named_list(alloc: Global, marks: &[Mark]) -> Result<Option<(Txt, Vec<Txt>)>, NoMemory>
    ensures { IfOk result (λ found. option_map (λ list. (list.0, list.1.items)) found ≡ spec.named_list marks.now) }
{
    let [Mark::Name(name), rest @ ..] = marks else {
        return Ok(None);
    };
    match listed_names(alloc, rest)? {
        Some(names) => Ok(Some((name.copy(alloc)?, names))),
        None => Ok(None),
    }
}

/// The same of a text.
fn declared_list(alloc: Global, text: &str) -> Result<Option<(Txt, Vec<Txt>)>, NoMemory>
    requires { length text.now < 2 ^ 32 }
    ensures { IfOk result (λ found. option_map (λ list. (list.0, list.1.items)) found ≡ option_and_then spec.named_list (marks_spec.marks_of text.now)) }
{
    match marks_of(alloc, text)? {
        Some(marks) => named_list(alloc, marks.as_slice()),
        None => Ok(None),
    }
}

/// The place of the column with the name.
fn column_place(columns: &[ColumnDef], name: &Txt) -> Option<usize>
    ensures place { result ≡ column_place columns.now name.now }
    ensures within { IfSome result (λ place. place < length columns.now) }
{
    columns.iter().position(|column| column.name == *name)
}

/// The places of the columns with the names, if there are such columns.
fn each_place(
    alloc: Global,
    columns: &[ColumnDef],
    names: &[Txt],
) -> Result<Option<Vec<u8>>, NoMemory>
    requires { length columns.now ≤ MAX_COLUMNS }
    ensures { IfOk result (λ found. option_map (λ places. places.items) found ≡ spec.all_read (column_place columns.now) names.now) }
{
    let mut places = Vec::new(alloc);
    for name in names {
        match column_place(columns, name) {
            Some(place) => places.push(place as u8)?,
            None => return Ok(None),
        }
    }
    Ok(Some(places))
}

/// The number of the table with the name.
fn number_of(tables: &[TableDef], name: &Txt) -> Option<usize>
    ensures number { result ≡ number_of tables.now name.now }
    ensures within { IfSome result (λ at. at < length tables.now) }
{
    tables.iter().position(|table| table.name == *name)
}

/// The index with the name, of the columns of a table with these names.
fn index_on(
    alloc: Global,
    table: &TableDef,
    name: Txt,
    names: &[Txt],
) -> Result<Option<IndexDef>, NoMemory>
    requires { length table.now.columns ≤ MAX_COLUMNS }
    ensures { IfOk result (λ found. found ≡ option_map (spec.index_with name) (spec.all_read (column_place table.now.columns) names.now)) }
{
    match each_place(alloc, table.columns.items(), names)? {
        Some(places) => {
            let columns = PlaceList::new(places);
            Ok(Some(IndexDef { name, columns }))
        }
        None => Ok(None),
    }
}

/// The index with the name on what a text lists, and the number of its table.
#[tactic(auto, unfolding(crate::specs::inner::Texts::index_at))]
fn index_at(
    alloc: Global,
    tables: &[TableDef],
    name: Txt,
    text: &str,
) -> Result<Option<(usize, IndexDef)>, NoMemory>
    requires text { length text.now < 2 ^ 32 }
    requires schema { IsSchema (shown_only tables.now) }
    ensures index { IfOk result (λ found. found ≡ spec.index_at tables.now name text.now) }
    ensures within { IfOk result (λ found. IfSome found (λ index. index.0 < length tables.now)) }
{
    let Some((table, names)) = declared_list(alloc, text)? else {
        return Ok(None);
    };
    let Some(at) = number_of(tables, &table) else {
        return Ok(None);
    };
    match index_on(alloc, &tables[at], name, names.as_slice())? {
        Some(index) => Ok(Some((at, index))),
        None => Ok(None),
    }
}

/// The index with the name that the word is, and the number of its table.
#[tactic(auto, unfolding(crate::specs::inner::Texts::index_of))]
fn index_of(
    alloc: Global,
    tables: &[TableDef],
    word: &str,
    text: &str,
) -> Result<Option<(usize, IndexDef)>, NoMemory>
    requires word { length word.now < 2 ^ 32 }
    requires text { length text.now < 2 ^ 32 }
    requires schema { IsSchema (shown_only tables.now) }
    ensures index { IfOk result (λ found. found ≡ spec.index_of tables.now word.now text.now) }
    ensures within { IfOk result (λ found. IfSome found (λ index. index.0 < length tables.now)) }
{
    match index_name(alloc, word)? {
        Some(name) => index_at(alloc, tables, name, text),
        None => Ok(None),
    }
}

/// The index of this name on what the text lists, a table's name and in parentheses those of its columns, and
/// the number of that table. The name is one token alone. The index is tested by its spelling alone. Takes one
/// pass over the text, and for each name one over the columns.
pub fn read_index(
    alloc: Global,
    tables: &[TableDef],
    name: &str,
    text: &str,
) -> Result<Option<(usize, IndexDef)>, NoMemory>
    requires name { length name.now < 2 ^ 32 }
    requires text { length text.now < 2 ^ 32 }
    requires schema { IsSchema (shown_only tables.now) }
    ensures declared { IfOk result (λ found. IfSome found (λ index. (index.1.name ≡ name.now) × IsIndexText tables.now text.now index.0 index.1)) }
    ensures only { (at : ℕ) (index : IndexDef) → index.name ≡ name.now → IsIndexText tables.now text.now at index → IfOk result (λ found. found ≡ Some (at, index)) }
    ensures within { IfOk result (λ found. IfSome found (λ index. index.0 < length tables.now)) }
{
    index_of(alloc, tables, name, text)
}
