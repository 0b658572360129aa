//! A transaction's view of its snapshot.
ghost use Rattle.std.specs.Prelude.{◌≡◌, map, IfOk};
ghost use Rattle.std.specs.Option.{option_copied};
ghost use Rattle.geo_schema.specs.Indexes.{HasIndex, index_at};
ghost use Rattle.geo_schema.specs.Schemas.{table_at};
ghost use Rattle.row_source.specs.Sources.{images_by_index, images_by_key};
ghost use Rattle.snap_view.specs.Snapshots.{HoldsIndexes, rows_of};
ghost use Rattle.snap_view.specs.Views.{seen_rows};
ghost use Rattle.snap_view.specs.inner.Laying.{all_within, leaving, writes_of};
ghost use Rattle.write_set.specs.Overlay.{image_in};
ghost use Rattle.write_set.specs.Sets.{Rises};

use crate::edges::{HighEdge, LowEdge};
use crate::laying::laid_over;
use crate::naming::rows_within;
use crate::own_writes::{images_left, left_by_index, writes_between};
use crate::snapshot::Snapshot;
use geo_base::{NoMemory, RowId, RowImage, TableNo};
use geo_schema::{Edge, IndexDef, KeyRange, Schema};
use row_source::{RowSource, Steps};
use std::alloc::Global;
use std::marker::Model;
use std::sync::ledger::Ledger;
use write_set::{Change, WriteSet};

/// The rows that a transaction sees: those of its snapshot, with its own writes laid over them.
///
/// A row is found by a look-up. A range of keys takes the rows in it, of the snapshot and of the own writes, and two
/// searches in each; a range of an index takes a look-up for each pair that the index has in it, and a comparison with
/// the range for each own write of the table, of which there are at most 1,024. Both take memory for the lists of what
/// they find, and copy no cells of rows.
#[derive(Drop)]
pub struct View<'a> {
    schema: &'a Schema,
    snapshot: &'a Snapshot,
    own: &'a WriteSet,
}

impl<'a> Model for View<'a> {
    ghost use Rattle.snap_view.specs.Snapshots.{rows_of};
    ghost use Rattle.snap_view.specs.Views.{Viewed};
    ghost use Rattle.snap_view.specs.inner.Viewing.{AreParts};

    ghost Value = { Viewed };

    ghost view = { λ v. record { tables = v.schema.now; base = rows_of v.snapshot.now; own = v.own.now } };

    ghost invariant = { λ v. AreParts v.schema.now v.snapshot.now v.own.now };
}

impl<'a> View<'a> {
    /// The view of the snapshot by a transaction that has done these writes. In each index of the schema, the snapshot's
    /// index has the pair of each version that its versions keep. Takes no memory.
    pub fn new(schema: &'a Schema, snapshot: &'a Snapshot, own: &'a WriteSet) -> View<'a>
        requires { HoldsIndexes schema.now snapshot.now }
        ensures { result ≡ record { tables = schema.now; base = rows_of snapshot.now; own = own.now } }
    {
        snapshot.is_snapshot();
        let _changes = own.changes();
        View {
            schema,
            snapshot,
            own,
        }
    }

    /// That its rows rise. Does nothing when it runs.
    fn rises(&self)
        ensures { Rises (seen_rows self.now) }
    {
        let _own = self.own;
    }

    /// The image of the row.
    fn image_of(&self, row: &RowId) -> Option<&RowImage>
        ensures { option_copied result ≡ image_in (seen_rows self.now) row.now }
    {
        match self.own.get(row) {
            Some(Change::Put(image)) => Some(image),
            Some(Change::Remove) => None,
            Some(Change::Touch) => self.snapshot.read(row),
            None => self.snapshot.read(row),
        }
    }

    /// The images of the table's rows whose keys lie in the range.
    fn by_key(
        &self,
        alloc: Global,
        table: TableNo,
        range: &KeyRange,
    ) -> Result<Vec<&RowImage>, NoMemory>
        ensures { IfOk result (λ found. map (λ image. image.now) found.items ≡ images_by_key table range.now (seen_rows self.entry.now)) }
    {
        let low = LowEdge {
            table,
            edge: &range.low,
        };
        let high = HighEdge {
            table,
            edge: &range.high,
        };
        let rows = self.snapshot.rows_between(&low, &high)?;
        let left = images_left(alloc, writes_between(self.own.changes(), &low, &high))?;
        laid_over(alloc, rows.as_slice(), left.as_slice())
    }

    /// What the own writes leave of the table's rows in the range of the index.
    fn left_in(
        &self,
        alloc: Global,
        table: TableNo,
        index: &IndexDef,
        range: &KeyRange,
    ) -> Result<Vec<(&RowId, Option<&RowImage>)>, NoMemory>
        ensures { IfOk result (λ left. map (λ p. (p.0.now, leaving (option_copied p.1))) left.items ≡ all_within index.now range.now (writes_of table self.now.own)) }
    {
        let edge = Edge::Open;
        let low = LowEdge { table, edge: &edge };
        let high = HighEdge { table, edge: &edge };
        let left = images_left(alloc, writes_between(self.own.changes(), &low, &high))?;
        left_by_index(alloc, index, range, left.as_slice())
    }

    /// The images of the table's rows whose cells in the index lie in the range.
    fn by_index(
        &self,
        alloc: Global,
        table: TableNo,
        index: u8,
        range: &KeyRange,
    ) -> Result<Vec<&RowImage>, NoMemory>
        requires { HasIndex self.now.tables table index }
        ensures { IfOk result (λ found. map (λ image. image.now) found.items ≡ images_by_index self.entry.now.tables table index range.now (seen_rows self.entry.now)) }
    {
        let names = self
            .snapshot
            .names_by_index(alloc, self.schema, table, index, range)?;
        let index = index_of(self.schema, table, index);
        let rows = rows_within(alloc, self.snapshot, index, range, names.as_slice())?;
        let left = self.left_in(alloc, table, index, range)?;
        laid_over(alloc, rows.as_slice(), left.as_slice())
    }
}

/// The index of the table at the place.
fn index_of(schema: &Schema, table: TableNo, place: u8) -> &IndexDef
    requires { HasIndex schema.now table place }
    ensures { result.now ≡ index_at (table_at schema.entry.now table) place }
{
    &schema.table(table).unwrap().indexes.items()[usize::from(place)]
}

impl<'s> RowSource for View<'s> {
    ghost use Rattle.snap_view.specs.Views.{seen_rows};

    ghost tables = { λ v. v.tables };

    ghost rows = { λ v. seen_rows v };

    ghost base = { λ v. v.base };

    fn get<'a, L: Ledger>(&'a self, row: &RowId, steps: &mut Steps<L>) -> Option<&'a RowImage> {
        self.rises();
        let found = self.image_of(row);
        steps.rise(usize::from(found.is_some()));
        found
    }

    fn base_has(&self, row: &RowId) -> bool {
        self.snapshot.read(row).is_some()
    }

    fn key_range<'a, L: Ledger>(
        &'a self,
        alloc: Global,
        table: TableNo,
        range: &KeyRange,
        steps: &mut Steps<L>,
    ) -> Result<Vec<&'a RowImage>, NoMemory> {
        self.rises();
        let found = self.by_key(alloc, table, range)?;
        steps.rise(found.len());
        Ok(found)
    }

    fn index_range<'a, L: Ledger>(
        &'a self,
        alloc: Global,
        table: TableNo,
        index: u8,
        range: &KeyRange,
        steps: &mut Steps<L>,
    ) -> Result<Vec<&'a RowImage>, NoMemory> {
        self.rises();
        let found = self.by_index(alloc, table, index, range)?;
        steps.rise(found.len());
        Ok(found)
    }
}
