ghost use Rattle.std.specs.Prelude.{◌≡◌, ◌+◌, length, map, IfOk, OnErr};
ghost use Rattle.std.specs.Option.{is_some, option_copied};
ghost use Rattle.geo_schema.specs.Schemas.{Tables};
ghost use Rattle.geo_schema.specs.Indexes.{HasIndex};
ghost use Rattle.row_source.specs.Sources.{images_by_index, images_by_key, listed};
ghost use Rattle.write_set.specs.Overlay.{Table, image_in};
ghost use Rattle.write_set.specs.Sets.{Rises};

use crate::steps::Steps;
use geo_base::{NoMemory, RowId, RowImage, TableNo};
use geo_schema::KeyRange;
use std::alloc::Global;
use std::sync::ledger::Ledger;

/// Rows of the tables of a schema, with the changes that the reading transaction has made.
///
/// Each call that hands out rows raises the counter by exactly as many.
pub trait RowSource {
    /// The tables of the schema that the source was made with.
    ghost tables: { Self → Tables };

    /// The rows with their images, in rising order of rows.
    ghost rows: { Self → Table };

    /// The rows as they are without the transaction's own changes, in rising order.
    ghost base: { Self → Table };

    /// The image of the row, None where there is no such row.
    fn get<'a, L: Ledger>(&'a self, row: &RowId, steps: &mut Steps<L>) -> Option<&'a RowImage>
        ensures image { option_copied result ≡ image_in (rows self.entry.now) row.now }
        ensures steps { steps.new ≡ steps.old + length (listed (option_copied result)) }
        ensures rising { Rises (rows self.entry.now) };

    /// Whether the row is there without the transaction's own changes.
    fn base_has(&self, row: &RowId) -> bool
        ensures found { result ≡ is_some (image_in (base self.now) row.now) }
        ensures rising { Rises (base self.now) };

    /// The images of the table's rows whose keys lie in the range, in the order of their keys.
    fn key_range<'a, L: Ledger>(
        &'a self,
        alloc: Global,
        table: TableNo,
        range: &KeyRange,
        steps: &mut Steps<L>,
    ) -> Result<Vec<&'a RowImage>, NoMemory>
        ensures images { IfOk result (λ found. map (λ image. image.now) found.items ≡ images_by_key table range.now (rows self.entry.now)) }
        ensures steps { IfOk result (λ found. steps.new ≡ steps.old + length found.items) }
        ensures refused { OnErr result (steps.new ≡ steps.old) }
        ensures rising { Rises (rows self.entry.now) };

    /// The images of the table's rows whose cells in the index lie in the range, in the order of their keys.
    /// The index is named by its place in the table.
    fn index_range<'a, L: Ledger>(
        &'a self,
        alloc: Global,
        table: TableNo,
        index: u8,
        range: &KeyRange,
        steps: &mut Steps<L>,
    ) -> Result<Vec<&'a RowImage>, NoMemory>
        requires { HasIndex (tables self.now) table index }
        ensures images { IfOk result (λ found. map (λ image. image.now) found.items ≡ images_by_index (tables self.entry.now) table index range.now (rows self.entry.now)) }
        ensures steps { IfOk result (λ found. steps.new ≡ steps.old + length found.items) }
        ensures refused { OnErr result (steps.new ≡ steps.old) }
        ensures rising { Rises (rows self.entry.now) };
}
