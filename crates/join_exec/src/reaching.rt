//! The rows of one table that an access reaches.
ghost use Rattle.std.specs.Prelude.{◌≡◌, ◌+◌, ◌≤◌, filter, length, map, IfOk};
ghost use Rattle.std.specs.Option.{option_copied};
ghost use Rattle.geo_base.specs.Order.{row_eq};
ghost use Rattle.geo_schema.specs.Schemas.{table_at};
ghost use Rattle.row_source.specs.Bounds.{reached};
ghost use Rattle.row_source.specs.Handing.{IsAccessTo, reaches, row_named};
ghost use Rattle.row_source.specs.Sources as sources;
ghost use Rattle.geo_schema.specs.Indexes.{HasIndex, index_at};
ghost use Rattle.row_source.specs.Sources.{images, is_by_index, is_by_key, of_table};

use geo_base::{Duplicate, Key, NoMemory, RowId, RowImage, TableNo};
use geo_schema::{Edge, KeyRange};
use row_source::{Access, RowSource, Steps, names_are_of_one_row};
use std::alloc::Global;
use std::sync::ledger::Ledger;

/// The image alone, where there is one.
fn listed<'a>(alloc: Global, image: Option<&'a RowImage>) -> Result<Vec<&'a RowImage>, NoMemory>
    ensures { IfOk result (λ found. map (λ image. image.now) found.items ≡ sources.listed (option_copied image.entry)) }
{
    let mut found = Vec::new(alloc);
    if let Some(image) = image {
        found.push(image)?;
    }
    Ok(found)
}

/// The one row with the name, where there is one.
fn rows_named<'a, R: RowSource, L: Ledger>(
    alloc: Global,
    source: &'a R,
    row: &RowId,
    steps: &mut Steps<L>,
) -> Result<Vec<&'a RowImage>, NoMemory>
    ensures rows { IfOk result (λ found. map (λ image. image.now) found.items ≡ images (filter (λ entry. row_eq row.now entry.0) (R.rows source.entry.now))) }
    ensures steps { steps.new ≤ steps.old + length (filter (λ entry. row_eq row.now entry.0) (R.rows source.entry.now)) }
{
    names_are_of_one_row();
    let image = source.get(row, steps);
    listed(alloc, image)
}

/// The row of the table with the key, where there is one.
fn point<'a, R: RowSource, L: Ledger>(
    alloc: Global,
    source: &'a R,
    table: TableNo,
    key: &Key,
    steps: &mut Steps<L>,
) -> Result<Vec<&'a RowImage>, NoMemory>
    ensures rows { IfOk result (λ found. map (λ image. image.now) found.items ≡ images (filter (λ entry. row_eq (row_named table key.now) entry.0) (R.rows source.entry.now))) }
    ensures steps { steps.new ≤ steps.old + length (filter (λ entry. row_eq (row_named table key.now) entry.0) (R.rows source.entry.now)) }
{
    let key = key.copy(alloc)?;
    rows_named(alloc, source, &RowId { table, key }, steps)
}

/// The rows of the table whose keys lie in the range.
#[tactic(auto, unfolding(row_source::specs::Sources::images_by_key))]
fn by_key<'a, R: RowSource, L: Ledger>(
    alloc: Global,
    source: &'a R,
    table: TableNo,
    range: &KeyRange,
    steps: &mut Steps<L>,
) -> Result<Vec<&'a RowImage>, NoMemory>
    ensures rows { IfOk result (λ found. map (λ image. image.now) found.items ≡ images (filter (is_by_key table range.now) (R.rows source.entry.now))) }
    ensures steps { steps.new ≤ steps.old + length (filter (is_by_key table range.now) (R.rows source.entry.now)) }
{
    source.key_range(alloc, table, range, steps)
}

/// The rows of the table whose cells in the index lie in the range.
#[tactic(auto, unfolding(row_source::specs::Sources::images_by_index))]
fn by_index<'a, R: RowSource, L: Ledger>(
    alloc: Global,
    source: &'a R,
    table: TableNo,
    place: u8,
    range: &KeyRange,
    steps: &mut Steps<L>,
) -> Result<Vec<&'a RowImage>, NoMemory>
    requires { HasIndex (R.tables source.now) table place }
    ensures rows { IfOk result (λ found. map (λ image. image.now) found.items ≡ images (filter (is_by_index (index_at (table_at (R.tables source.entry.now) table) place) table range.now) (R.rows source.entry.now))) }
    ensures steps { steps.new ≤ steps.old + length (filter (is_by_index (index_at (table_at (R.tables source.entry.now) table) place) table range.now) (R.rows source.entry.now)) }
{
    source.index_range(alloc, table, place, range, steps)
}

/// All rows of the table.
fn whole<'a, R: RowSource, L: Ledger>(
    alloc: Global,
    source: &'a R,
    table: TableNo,
    steps: &mut Steps<L>,
) -> Result<Vec<&'a RowImage>, NoMemory>
    ensures rows { IfOk result (λ found. map (λ image. image.now) found.items ≡ images (of_table table (R.rows source.entry.now))) }
    ensures steps { steps.new ≤ steps.old + length (of_table table (R.rows source.entry.now)) }
{
    let range = KeyRange {
        low: Edge::Open,
        high: Edge::Open,
    };
    by_key(alloc, source, table, &range, steps)
}

/// The rows of the table that the access reaches, in the order of their keys. A point takes a copy of its key.
pub(crate) fn reached_rows<'a, R: RowSource, L: Ledger>(
    alloc: Global,
    source: &'a R,
    table: TableNo,
    access: &Access,
    steps: &mut Steps<L>,
) -> Result<Vec<&'a RowImage>, NoMemory>
    requires { IsAccessTo (table_at (R.tables source.now) table) access.now }
    ensures rows { IfOk result (λ found. map (λ image. image.now) found.items ≡ images (filter (reaches (R.tables source.entry.now) table access.now) (R.rows source.entry.now))) }
    ensures steps { steps.new ≤ steps.old + reached (R.tables source.entry.now) table access.now (R.rows source.entry.now) }
{
    match access {
        Access::Point(key) => point(alloc, source, table, key, steps),
        Access::Range(range) => by_key(alloc, source, table, range, steps),
        Access::Index(place, range) => by_index(alloc, source, table, *place, range, steps),
        Access::Scan => whole(alloc, source, table, steps),
    }
}
