//! The rows of the table of numbers, and the candidates that put them.
ghost use Rattle.std.specs.Prelude.{◌≡◌, ◌∷◌, [], IfOk};
ghost use Rattle.geo_schema.specs.Rows.{IsRow, key_cells};
ghost use Rattle.geo_world.specs.Tables.{kv_table, kv_tables, kv_cells};
ghost use Rattle.write_set.specs.declared.change.Change.TheVariants as change;

use geo_base::{Cell, Epoch, NoMemory, RowId, RowImage};
use geo_schema::Schema;
use std::alloc::Global;
use write_set::{Candidate, Change, WriteSet};

/// The cells of the row with this key and value.
pub fn image_of(alloc: Global, key: i64, value: i64) -> Result<RowImage, NoMemory>
    ensures { IfOk result (λ image. image ≡ kv_cells key value) }
{
    let mut cells = Vec::new(alloc);
    cells.push(Cell::Int(key))?;
    cells.push(Cell::Int(value))?;
    match RowImage::new(cells) {
        Ok(image) => Ok(image),
        Err(_) => unreachable!(),
    }
}

/// The name of a row of the table.
#[tactic(auto, using(crate::proofs::OneTable::kv_numbered, crate::proofs::OneTable::kv_at))]
pub fn row_of(alloc: Global, schema: &Schema, image: &RowImage) -> Result<RowId, NoMemory>
    requires table { schema.now ≡ kv_tables }
    requires fits { IsRow kv_table image.now }
    ensures { IfOk result (λ row. row ≡ record { table = 0; key = key_cells kv_table image.now }) }
{
    Ok(RowId {
        table: 0,
        key: schema.key_of(alloc, 0, image)?,
    })
}

/// The candidate that puts the row.
pub fn candidate_of(
    alloc: Global,
    start: Epoch,
    row: RowId,
    image: RowImage,
) -> Result<Candidate, NoMemory>
    ensures { IfOk result (λ c. c ≡ record { start = start; set = (row, change.Put image) ∷ [] }) }
{
    let set = WriteSet::one(alloc, row, Change::Put(image))?;
    Ok(Candidate { start, set })
}
