//! The rows of one table that an access reaches.
ghost use Rattle.std.specs.Prelude.{◌≡◌, ◌+◌, ◌≤◌, filter, length, map, IfOk};
ghost use Rattle.std.specs.Option.{option_copied};
ghost use Rattle.geo_base.specs.Order.{row_eq};
ghost use Rattle.geo_schema.specs.Schemas.{table_at};
ghost use Rattle.row_source.specs.Bounds.{reached};
ghost use Rattle.row_source.specs.Handing.{IsAccessTo, reaches};
ghost use Rattle.row_source.specs.Sources as sources;
ghost use Rattle.geo_schema.specs.Indexes.{HasIndex, index_at};
ghost use Rattle.row_source.specs.Sources.{images, is_by_index, is_by_key, of_table};
ghost use Rattle.sql_exec.specs.inner.Reaching.{rows_in};

use geo_base::{NoMemory, RowId, RowImage, TableNo};
use geo_schema::{Edge, KeyRange};
use row_source::{Access, RowSource, Steps, names_are_of_one_row};
use std::alloc::Global;
use std::slice;
use std::sync::ledger::Ledger;

/// Rows that an access reaches, in the order of their keys.
#[derive(Drop)]
pub(crate) enum Reached<'a> {
    /// The one row of a point, where there is one: it takes no list.
    Named(Option<&'a RowImage>),
    /// The rows of any other access.
    Listed(Vec<&'a RowImage>),
}

impl<'a> Reached<'a> {
    /// The rows.
    pub(crate) fn as_slice(&self) -> &[&'a RowImage]
        ensures { map (λ row. row.now) result.now ≡ rows_in self.entry.now }
    {
        match self {
            Reached::Named(Some(row)) => slice::from_ref(row),
            Reached::Named(None) => &[],
            Reached::Listed(rows) => rows.as_slice(),
        }
    }
}

/// The one row with the name, where there is one.
fn named<'a, R: RowSource, L: Ledger>(
    source: &'a R,
    row: &RowId,
    steps: &mut Steps<L>,
) -> Option<&'a RowImage>
    ensures row { sources.listed (option_copied result) ≡ images (filter (λ entry. row_eq row.now entry.0) (R.rows source.entry.now)) }
    ensures steps { steps.new ≤ steps.old + length (filter (λ entry. row_eq row.now entry.0) (R.rows source.entry.now)) }
{
    names_are_of_one_row();
    source.get(row, steps)
}

/// The rows of the table whose keys lie in the range.
#[tactic(auto, unfolding(row_source::specs::Sources::images_by_key))]
fn by_key<'a, R: RowSource, L: Ledger>(
    alloc: Global,
    source: &'a R,
    table: TableNo,
    range: &KeyRange,
    steps: &mut Steps<L>,
) -> Result<Vec<&'a RowImage>, NoMemory>
    ensures rows { IfOk result (λ found. map (λ image. image.now) found.items ≡ images (filter (is_by_key table range.now) (R.rows source.entry.now))) }
    ensures steps { steps.new ≤ steps.old + length (filter (is_by_key table range.now) (R.rows source.entry.now)) }
{
    source.key_range(alloc, table, range, steps)
}

/// The rows of the table whose cells in the index lie in the range.
#[tactic(auto, unfolding(row_source::specs::Sources::images_by_index))]
fn by_index<'a, R: RowSource, L: Ledger>(
    alloc: Global,
    source: &'a R,
    table: TableNo,
    place: u8,
    range: &KeyRange,
    steps: &mut Steps<L>,
) -> Result<Vec<&'a RowImage>, NoMemory>
    requires { HasIndex (R.tables source.now) table place }
    ensures rows { IfOk result (λ found. map (λ image. image.now) found.items ≡ images (filter (is_by_index (index_at (table_at (R.tables source.entry.now) table) place) table range.now) (R.rows source.entry.now))) }
    ensures steps { steps.new ≤ steps.old + length (filter (is_by_index (index_at (table_at (R.tables source.entry.now) table) place) table range.now) (R.rows source.entry.now)) }
{
    source.index_range(alloc, table, place, range, steps)
}

/// All rows of the table.
fn whole<'a, R: RowSource, L: Ledger>(
    alloc: Global,
    source: &'a R,
    table: TableNo,
    steps: &mut Steps<L>,
) -> Result<Vec<&'a RowImage>, NoMemory>
    ensures rows { IfOk result (λ found. map (λ image. image.now) found.items ≡ images (of_table table (R.rows source.entry.now))) }
    ensures steps { steps.new ≤ steps.old + length (of_table table (R.rows source.entry.now)) }
{
    let range = KeyRange {
        low: Edge::Open,
        high: Edge::Open,
    };
    by_key(alloc, source, table, &range, steps)
}

/// The rows of the table that the access reaches.
pub(crate) fn reached_rows<'a, R: RowSource, L: Ledger>(
    alloc: Global,
    source: &'a R,
    table: TableNo,
    access: Access,
    steps: &mut Steps<L>,
) -> Result<Reached<'a>, NoMemory>
    requires { IsAccessTo (table_at (R.tables source.now) table) access }
    ensures rows { IfOk result (λ found. rows_in found ≡ images (filter (reaches (R.tables source.entry.now) table access) (R.rows source.entry.now))) }
    ensures steps { steps.new ≤ steps.old + reached (R.tables source.entry.now) table access (R.rows source.entry.now) }
{
    match access {
        Access::Point(key) => Ok(Reached::Named(named(source, &RowId { table, key }, steps))),
        Access::Range(range) => {
            let rows = by_key(alloc, source, table, &range, steps)?;
            Ok(Reached::Listed(rows))
        }
        Access::Index(place, range) => {
            let rows = by_index(alloc, source, table, place, &range, steps)?;
            Ok(Reached::Listed(rows))
        }
        Access::Scan => {
            let rows = whole(alloc, source, table, steps)?;
            Ok(Reached::Listed(rows))
        }
    }
}
