//! Columns of tables.
ghost use Rattle.std.specs.Prelude.{◌≡◌, IfOk};
ghost use Rattle.schema_text.specs.inner.Texts as spec;

use crate::column::{Column, Typed};
use crate::mark::Mark;
use geo_base::limits::MAX_TEXT_BYTES;
use geo_base::{Duplicate, NoMemory, Txt};
use geo_schema::{ColumnDef, Kind};
use std::alloc::Global;

/// A column of the kind, with what may stand behind that: `NOT NULL`, then `KEY`.
#[tactic(auto, unfolding(crate::specs::inner::Texts::typed))]
fn typed(kind: Kind, marks: &[Mark]) -> Option<Typed>
    ensures { result ≡ spec.typed kind marks.now }
{
    let (not_null, is_key) = match marks {
        [] => (false, false),
        [Mark::Key] => (false, true),
        [Mark::Not, Mark::Null] => (true, false),
        [Mark::Not, Mark::Null, Mark::Key] => (true, true),
        _ => return None,
    };
    Some(Typed {
        kind,
        not_null,
        is_key,
    })
}

/// A text column of at most so many bytes, if it may take so many.
fn sized(max: i64, marks: &[Mark]) -> Option<Typed>
    ensures { result ≡ spec.sized max marks.now }
{
    if 0 <= max && max <= MAX_TEXT_BYTES as i64 {
        typed(Kind::Text { max: max as u16 }, marks)
    } else {
        None
    }
}

/// A text column, by what stands behind `TEXT`.
#[tactic(auto, unfolding(crate::specs::inner::Texts::text_column))]
fn text_column(marks: &[Mark]) -> Option<Typed>
    ensures { result ≡ spec.text_column marks.now }
{
    match marks {
        [Mark::Open, Mark::Number(max), Mark::Close, rest @ ..] => sized(*max, rest),
        _ => typed(
            Kind::Text {
                max: MAX_TEXT_BYTES as u16,
            },
            marks,
        ),
    }
}

/// A column, by what stands behind its name.
#[tactic(auto, unfolding(crate::specs::inner::Texts::typed_column))]
fn typed_column(marks: &[Mark]) -> Option<Typed>
    ensures { result ≡ spec.typed_column marks.now }
{
    match marks {
        [Mark::Int, rest @ ..] => typed(Kind::Int, rest),
        [Mark::Text, rest @ ..] => text_column(rest),
        [Mark::Bool, rest @ ..] => typed(Kind::Truth, rest),
        _ => None,
    }
}

fn named_column(alloc: Global, name: &Txt, typed: Typed) -> Result<Column, NoMemory>
    ensures { IfOk result (λ column. column ≡ spec.named_column name.now typed) }
{
    let def = ColumnDef {
        name: name.copy(alloc)?,
        kind: typed.kind,
        not_null: typed.not_null,
    };
    Ok(Column {
        def,
        is_key: typed.is_key,
    })
}

/// A column: its name, its type, and what may stand behind it.
#[tactic(auto, unfolding(crate::specs::inner::Texts::column_of))]
pub(crate) fn column_of(alloc: Global, marks: &[Mark]) -> Result<Option<Column>, NoMemory>
    ensures { IfOk result (λ found. found ≡ spec.column_of marks.now) }
{
    let [Mark::Name(name), rest @ ..] = marks else {
        return Ok(None);
    };
    match typed_column(rest) {
        Some(typed) => Ok(Some(named_column(alloc, name, typed)?)),
        None => Ok(None),
    }
}
