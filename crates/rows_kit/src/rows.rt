//! Rows as texts, `TABLE: CELLS` a line.
ghost use Rattle.std.specs.Prelude.{◌≡◌, IfOk, IsTrue};
ghost use Rattle.std.specs.List.{All};
ghost use Rattle.geo_schema.specs.Rows.{IsRow};
ghost use Rattle.geo_schema.specs.Schemas.{IsTableNo, table_at};
ghost use Rattle.row_source.specs.Lists.{entry_of, table_of};
ghost use Rattle.row_source.specs.Sources.{AreRowsOf, Fits};
ghost use Rattle.write_set.specs.Sets.{Rises};

use crate::cells::cells_of;
use geo_base::{Cell, Key, NoMemory, RowId, RowImage, TableNo};
use geo_schema::Schema;
use row_source::RowImageAt;
use std::alloc::Global;
use std::test::Fail;

/// The row of the line, whose name is made of its cells.
pub fn row_of(alloc: Global, schema: &Schema, line: &str) -> Result<RowImageAt, Fail> {
    let (table, cells) = line.split_once(": ").ok_or("a row without cells")?;
    let table = table.parse()?;
    let image = RowImage::new(cells_of(alloc, cells)?)?;
    if !schema.has_table(table) || schema.check_row(table, image.cells()).is_err() {
        return Err("a row of no table".into());
    }
    let key = schema.key_of(alloc, table, &image)?;
    let row = RowId { table, key };
    Ok(RowImageAt { row, image })
}

/// The rows of a text.
pub fn rows_of(alloc: Global, schema: &Schema, text: &str) -> Result<Vec<RowImageAt>, Fail> {
    let mut rows = Vec::new(alloc);
    for line in text.lines() {
        rows.push(row_of(alloc, schema, line)?)?;
    }
    Ok(rows)
}

/// Whether the cells are a row of a table that there is.
fn is_row(schema: &Schema, table: TableNo, cells: &[Cell]) -> bool
    ensures table { IsTrue result → IsTableNo schema.now table }
    ensures row { IsTrue result → IsRow (table_at schema.now table) cells.now }
{
    schema.has_table(table) && schema.check_row(table, cells).is_ok()
}

#[tactic(auto, using(crate::proofs::Fitting::same_key))]
fn is_same_key(key: &Key, other: &Key) -> bool
    ensures { IsTrue result → key.now ≡ other.now }
{
    key == other
}

/// Whether the row is one of its table, and its key that of its cells.
fn fits(alloc: Global, schema: &Schema, at: &RowImageAt) -> Result<bool, NoMemory>
    ensures { IfOk result (λ b. IsTrue b → Fits schema.now (entry_of at.now)) }
{
    let table = at.row.table;
    if !is_row(schema, table, at.image.cells()) {
        return Ok(false);
    }
    let key = schema.key_of(alloc, table, &at.image)?;
    Ok(is_same_key(&key, &at.row.key))
}

fn all_fit(alloc: Global, schema: &Schema, rows: &[RowImageAt]) -> Result<bool, NoMemory>
    ensures { IfOk result (λ b. IsTrue b → All (Fits schema.now) (table_of rows.now)) }
{
    for at in rows {
        if !fits(alloc, schema, at)? {
            return Ok(false);
        }
    }
    Ok(true)
}

/// Whether rows in rising order are rows of the schema's tables.
pub fn are_rows(alloc: Global, schema: &Schema, rows: &[RowImageAt]) -> Result<bool, NoMemory>
    requires { Rises (table_of rows.now) }
    ensures { IfOk result (λ b. IsTrue b → AreRowsOf schema.now (table_of rows.now)) }
{
    all_fit(alloc, schema, rows)
}
