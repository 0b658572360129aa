//! Rows as texts, `TABLE KEY -> CELLS` a line, and the sources of them.
ghost use Rattle.std.specs.Prelude.{◌≡◌, IfOk, IsTrue};
ghost use Rattle.row_source.specs.Lists.{table_of};
ghost use Rattle.write_set.specs.Sets.{Rises};

use crate::cells::cells_of;
use geo_base::{Key, RowId, RowImage};
use geo_schema::Schema;
use row_source::{ListSource, RowImageAt};
use std::alloc::Global;
use std::test::Fail;

/// The row's name, of its table and the cells of its key.
pub fn row_named(alloc: Global, words: &str) -> Result<RowId, Fail> {
    let (table, key) = words.split_once(' ').ok_or("a row without a key")?;
    let table = table.parse()?;
    let key = Key::new(cells_of(alloc, key)?)?;
    Ok(RowId { table, key })
}

fn row_of(alloc: Global, line: &str) -> Result<RowImageAt, Fail> {
    let (name, cells) = line.split_once(" -> ").ok_or("a row without cells")?;
    let image = RowImage::new(cells_of(alloc, cells)?)?;
    let row = row_named(alloc, name)?;
    Ok(RowImageAt { row, image })
}

/// Whether each row is less than the next one.
fn are_rising(rows: &[RowImageAt]) -> bool
    ensures { IsTrue result → Rises (table_of rows.now) }
{
    match rows {
        [first, rest @ ..] => match rest {
            [second, ..] => first.row < second.row && are_rising(rest),
            [] => true,
        },
        [] => true,
    }
}

fn rows_of(alloc: Global, text: &str) -> Result<Vec<RowImageAt>, Fail>
    ensures { IfOk result (λ rows. Rises (table_of rows.items)) }
{
    let mut rows = Vec::new(alloc);
    for line in text.lines() {
        rows.push(row_of(alloc, line)?)?;
    }
    if are_rising(rows.as_slice()) {
        Ok(rows)
    } else {
        Err("rows that don't rise".into())
    }
}

/// The source of the rows, over those of a base if there is one.
pub fn source_of<'a>(
    alloc: Global,
    schema: &'a Schema,
    rows: &str,
    base: Option<&str>,
) -> Result<ListSource<'a>, Fail>
    ensures { IfOk result (λ source. source.tables ≡ schema.now) }
{
    let rows = rows_of(alloc, rows)?;
    match base {
        Some(base) => Ok(ListSource::over(schema, rows, rows_of(alloc, base)?)),
        None => Ok(ListSource::new(schema, rows)),
    }
}
