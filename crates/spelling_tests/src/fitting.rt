//! Whether a batch that was built fits a schema, so that it may be spelled.
ghost use Rattle.std.specs.Prelude.{◌≡◌, ◌+◌, ◌<◌, ◌≤◌, IsTrue, length, slice_index};
ghost use Rattle.std.specs.List.{All};
ghost use Rattle.write_set.specs.Journal.{IsBatch, IsCandidate};
ghost use Rattle.geo_schema.specs.Schemas.{IsTableNo, table_at};
ghost use Rattle.set_codec.specs.Rules.{IsRegionOf, IsSealable};
ghost use Rattle.set_codec.specs.Fits.{AreTaken, FitsKey, FitsChange, FitsTable, FitsTables, FitsSchema};

use geo_base::limits::{
    LAST_EPOCH, MAX_AGE, MAX_BATCH_BYTES, MAX_CANDIDATES, MAX_REGIONS, MAX_SET_BYTES,
};
use geo_base::{Cell, Epoch, Key, RowId, equal_values_are_one};
use geo_schema::{Schema, TableDef, cell_fault};
use set_codec::{batch_size, size_is_length};
use std::alloc::Global;
use write_set::{Batch, Candidate, Change};

// Whether the cells are taken by the columns at the key's places from this one on.
fn are_taken(table: &TableDef, from: usize, cells: &[Cell]) -> bool
    requires { from + length cells.now ≡ length table.now.key }
    ensures { IsTrue result → AreTaken table.now (slice_index table.now.key) from cells.now }
{
    let [cell, rest @ ..] = cells else {
        return true;
    };
    let (key, columns) = (table.key.items(), table.columns.items());
    let place = key[from];
    (place as usize) < columns.len()
        && cell_fault(key, &columns[place as usize], place, cell).is_none()
        && are_taken(table, from + 1, rest)
}

fn fits_key(table: &TableDef, key: &Key) -> bool
    ensures { IsTrue result → FitsKey table.now key.now }
{
    let cells = key.cells();
    cells.len() == table.key.items().len() && are_taken(table, 0, cells)
}

// Whether what is put is a row of the table with the key.
fn fits_change(alloc: Global, schema: &Schema, row: &RowId, change: &Change) -> bool
    requires { IsTableNo schema.now row.now.table }
    ensures { IsTrue result → FitsChange (table_at schema.now row.now.table) row.now.key change.now }
{
    equal_values_are_one();
    match change {
        Change::Put(image) => {
            if schema.check_row(row.table, image.cells()).is_err() {
                return false;
            }
            match schema.key_of(alloc, row.table, image) {
                Ok(key) => key == row.key,
                Err(_) => false,
            }
        }
        Change::Remove | Change::Touch => true,
    }
}

fn fits_table(alloc: Global, schema: &Schema, row: &RowId, change: &Change) -> bool
    ensures { IsTrue result → FitsTable schema.now (row.now, change.now) }
{
    match schema.table(row.table) {
        Some(table) => fits_key(table, &row.key) && fits_change(alloc, schema, row, change),
        None => false,
    }
}

fn changes_fit(alloc: Global, schema: &Schema, changes: &[(RowId, Change)]) -> bool
    ensures { IsTrue result → All (FitsTable schema.now) changes.now }
{
    for change in changes {
        if !fits_table(alloc, schema, &change.0, &change.1) {
            return false;
        }
    }
    true
}

fn fits_tables(alloc: Global, schema: &Schema, candidate: &Candidate) -> bool
    ensures { IsTrue result → FitsTables schema.now candidate.now }
{
    size_is_length();
    let _tables = schema.count();
    if !changes_fit(alloc, schema, candidate.set.changes()) {
        return false;
    }
    candidate.set.size() <= MAX_SET_BYTES
}

fn is_lawful(epoch: Epoch, candidate: &Candidate) -> bool
    ensures { IsTrue result → IsCandidate epoch candidate.now }
{
    let changes = candidate.set.changes();
    let start = candidate.start;
    start < epoch && epoch - start <= MAX_AGE && !changes.is_empty()
}

fn candidates_fit(alloc: Global, schema: &Schema, candidates: &[Candidate]) -> bool
    ensures { IsTrue result → All (FitsTables schema.now) candidates.now }
{
    for candidate in candidates {
        if !fits_tables(alloc, schema, candidate) {
            return false;
        }
    }
    true
}

fn are_lawful(epoch: Epoch, candidates: &[Candidate]) -> bool
    ensures { IsTrue result → All (IsCandidate epoch) candidates.now }
{
    for candidate in candidates {
        if !is_lawful(epoch, candidate) {
            return false;
        }
    }
    true
}

// Whether the batch is one that its region may seal, its size apart.
fn may_be_sealed(batch: &Batch) -> bool
    ensures region { IsTrue result → IsRegionOf MAX_REGIONS batch.now.region }
    ensures sealable { IsTrue result → IsSealable batch.now.epoch }
    ensures lawful { IsTrue result → IsBatch batch.now.region batch.now.epoch batch.now }
{
    let items = batch.items.items();
    batch.region < MAX_REGIONS
        && batch.epoch > 0
        && batch.epoch < LAST_EPOCH
        && items.len() <= MAX_CANDIDATES as usize
        && are_lawful(batch.epoch, items)
}

/// Whether the batch fits the schema.
pub fn fits(alloc: Global, schema: &Schema, batch: &Batch) -> bool
    ensures { IsTrue result → FitsSchema schema.now batch.now }
{
    size_is_length();
    let _tables = schema.count();
    if !may_be_sealed(batch) || !candidates_fit(alloc, schema, batch.items.items()) {
        return false;
    }
    batch_size(batch) <= MAX_BATCH_BYTES
}
