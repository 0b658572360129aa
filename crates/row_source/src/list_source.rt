ghost use Rattle.std.specs.Prelude.{◌≡◌, filter, map, IfOk};
ghost use Rattle.std.specs.Option.{option_copied};
ghost use Rattle.geo_schema.specs.Indexes.{HasIndex, index_at, index_cells};
ghost use Rattle.geo_schema.specs.Ranges.{is_within};
ghost use Rattle.geo_schema.specs.Schemas.{table_at};
ghost use Rattle.row_source.specs.Lists.{table_of};
ghost use Rattle.row_source.specs.Sources.{images, images_by_key, is_by_index};
ghost use Rattle.write_set.specs.Overlay.{image_in};
ghost use Rattle.write_set.specs.Sets.{Rises};

use crate::source::RowSource;
use crate::steps::Steps;
use geo_base::{Cell, Duplicate, Many, NoMemory, RowId, RowImage, TableNo};
use geo_schema::{IndexDef, KeyRange, Schema, index_cells};
use std::alloc::Global;
use std::marker::Model;
use std::sync::ledger::Ledger;

/// A row with its image.
#[derive(Debug, Drop)]
pub struct RowImageAt {
    /// Its name.
    pub row: RowId,
    /// Its cells.
    pub image: RowImage,
}

/// The plain source: lists of rows. A row is found by halving, and a range by going through all rows; one of an index
/// copies the cells of each row of the table in the index.
#[derive(Drop)]
pub struct ListSource<'a> {
    schema: &'a Schema,
    rows: Vec<RowImageAt>,
    /// None where it is the rows themselves.
    base: Option<Many<RowImageAt>>,
}

impl<'a> Model for ListSource<'a> {
    ghost use Rattle.row_source.specs.Lists.{Listed, base_of, table_of};
    ghost use Rattle.write_set.specs.Sets.{Rises};

    ghost Value = { Listed };

    ghost view = { λ s. record { tables = s.schema.now; rows = table_of s.rows.items; base = base_of s.rows.items s.base } };

    ghost invariant = { λ s. Rises (table_of s.rows.items) × Rises (base_of s.rows.items s.base) };
}

impl<'a> ListSource<'a> {
    /// The source of these rows, which no transaction has changed.
    pub fn new(schema: &'a Schema, rows: Vec<RowImageAt>) -> ListSource<'a>
        requires { Rises (table_of rows.items) }
        ensures { result ≡ record { tables = schema.now; rows = table_of rows.items; base = table_of rows.items } }
    {
        ListSource {
            schema,
            rows,
            base: None,
        }
    }

    /// The source of these rows, which a transaction has made of those of the base.
    pub fn over(schema: &'a Schema, rows: Vec<RowImageAt>, base: Vec<RowImageAt>) -> ListSource<'a>
        requires rows { Rises (table_of rows.items) }
        requires base { Rises (table_of base.items) }
        ensures { result ≡ record { tables = schema.now; rows = table_of rows.items; base = table_of base.items } }
    {
        ListSource {
            schema,
            rows,
            base: Some(Many::new(base)),
        }
    }
}

/// The image of the row among those in rising order.
fn image_of<'a>(rows: &'a [RowImageAt], row: &RowId) -> Option<&'a RowImage>
    requires { Rises (table_of rows.now) }
    ensures { option_copied result ≡ image_in (table_of rows.entry.now) row.now }
{
    match rows.binary_search_by(|at| at.row.cmp(row)) {
        Ok(place) => Some(&rows[place].image),
        Err(_) => None,
    }
}

/// The images of the table's rows whose keys lie in the range.
#[tactic(auto, unfolding(crate::specs::Sources::images_by_key))]
fn images_by_key<'a>(
    alloc: Global,
    rows: &'a [RowImageAt],
    table: TableNo,
    range: &KeyRange,
) -> Result<Vec<&'a RowImage>, NoMemory>
    ensures { IfOk result (λ found. map (λ image. image.now) found.items ≡ images_by_key table range.now (table_of rows.entry.now)) }
{
    let mut found = Vec::new(alloc);
    for at in rows {
        if at.row.table == table && range.holds(at.row.key.cells()) {
            found.push(&at.image)?;
        }
    }
    Ok(found)
}

/// The images of the table's rows whose cells in the index lie in the range.
fn images_by_index<'a>(
    alloc: Global,
    rows: &'a [RowImageAt],
    table: TableNo,
    index: &IndexDef,
    range: &KeyRange,
) -> Result<Vec<&'a RowImage>, NoMemory>
    ensures { IfOk result (λ found. map (λ image. image.now) found.items ≡ images (filter (is_by_index index.now table range.now) (table_of rows.entry.now))) }
{
    let mut found = Vec::new(alloc);
    for at in rows {
        if at.row.table == table && lies_in(alloc, index, range, at.image.cells())? {
            found.push(&at.image)?;
        }
    }
    Ok(found)
}

/// Whether a row's cells in the index lie in the range.
fn lies_in(
    alloc: Global,
    index: &IndexDef,
    range: &KeyRange,
    cells: &[Cell],
) -> Result<bool, NoMemory>
    ensures { IfOk result (λ is. is ≡ is_within range.now (index_cells index.now cells.now)) }
{
    let key = index_cells(alloc, index, cells)?;
    Ok(range.holds(key.as_slice()))
}

impl<'s> RowSource for ListSource<'s> {
    ghost tables = { λ s. s.tables };

    ghost rows = { λ s. s.rows };

    ghost base = { λ s. s.base };

    fn get<'a, L: Ledger>(&'a self, row: &RowId, steps: &mut Steps<L>) -> Option<&'a RowImage> {
        let found = image_of(self.rows.as_slice(), row);
        steps.rise(usize::from(found.is_some()));
        found
    }

    fn base_has(&self, row: &RowId) -> bool {
        match &self.base {
            Some(base) => image_of(base.items(), row).is_some(),
            None => image_of(self.rows.as_slice(), row).is_some(),
        }
    }

    fn key_range<'a, L: Ledger>(
        &'a self,
        alloc: Global,
        table: TableNo,
        range: &KeyRange,
        steps: &mut Steps<L>,
    ) -> Result<Vec<&'a RowImage>, NoMemory> {
        let found = images_by_key(alloc, self.rows.as_slice(), table, range)?;
        steps.rise(found.len());
        Ok(found)
    }

    #[tactic(auto, unfolding(crate::specs::Sources::images_by_index))]
    fn index_range<'a, L: Ledger>(
        &'a self,
        alloc: Global,
        table: TableNo,
        index: u8,
        range: &KeyRange,
        steps: &mut Steps<L>,
    ) -> Result<Vec<&'a RowImage>, NoMemory> {
        let index = index_of(self.schema, table, index);
        let found = images_by_index(alloc, self.rows.as_slice(), table, index, range)?;
        steps.rise(found.len());
        Ok(found)
    }
}

/// The index of the table at the place.
fn index_of(schema: &Schema, table: TableNo, place: u8) -> &IndexDef
    requires { HasIndex schema.now table place }
    ensures { result.now ≡ index_at (table_at schema.entry.now table) place }
{
    &schema.table(table).unwrap().indexes.items()[usize::from(place)]
}
