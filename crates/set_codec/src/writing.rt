//! The spellings of changes, candidates and batches.
ghost use Rattle.std.specs.Prelude.{◌≡◌, ◌<◌, ◌≤◌, ◌++◌, length, OnOk, IfOk};
ghost use Rattle.geo_base.specs.declared.limits.TheConstants.{MAX_ROW_CELLS, MAX_SET_ROWS, MAX_CANDIDATES};
ghost use Rattle.row_codec.specs.Spelling.{cells_spelling, AreCells};
ghost use Rattle.geo_schema.specs.Schemas.{IsTableNo, table_at};
ghost use Rattle.set_codec.specs.declared.format.Format.TheVariants.{Ggb2};
ghost use Rattle.set_codec.specs.Fits.{FitsSchema, FitsTables, FitsTable, HasCells, HaveCells};
ghost use Rattle.set_codec.specs.Spelling.{kind_of, kind_byte, other_cells, cells_behind, number_spelling, change_spelling, changes_spelling, candidate_spelling, candidates_spelling, batch_spelling};
ghost use Rattle.std.specs.List.{All};

use crate::size::batch_size;
use crate::{format, kind};
use geo_base::{Cell, NoMemory, RowId};
use geo_schema::{Schema, TableDef, is_in};
use row_codec::{cell_bytes, key_bytes};
use std::alloc::Global;
use write_set::{Batch, Candidate, Change};

fn write_number(number: u32, out: &mut Vec<u8>) -> Result<(), NoMemory>
    ensures { OnOk result (out.new.items ≡ out.old.items ++ number_spelling number) }
{
    out.extend_from_slice(&number.to_be_bytes())?;
    Ok(())
}

/// The cells that don't stand at a place of the key.
fn write_others(key: &[u8], cells: &[Cell], out: &mut Vec<u8>) -> Result<(), NoMemory>
    requires { length cells.now ≤ MAX_ROW_CELLS }
    ensures ok { OnOk result (out.new.items ≡ out.old.items ++ cells_spelling (other_cells key.now 0 cells.now)) }
    ensures readable { OnOk result (AreCells (other_cells key.now 0 cells.now)) }
{
    for (place, cell) in cells.iter().enumerate() {
        if !is_in(key, place as u8) {
            cell_bytes(cell, out)?;
        }
    }
    Ok(())
}

#[tactic(auto, using(crate::specs::laws::Rows::table_is))]
fn table_of<'a>(schema: &'a Schema, row: &RowId) -> &'a TableDef
    requires { IsTableNo schema.now row.now.table }
    ensures { result.now ≡ table_at schema.entry.now row.now.table }
{
    schema.table(row.table).unwrap()
}

/// The byte of what is done to a row.
fn kind_byte(change: &Change) -> u8
    ensures { result ≡ kind_byte (kind_of change.now) }
{
    match change {
        Change::Put(_) => kind::PUT,
        Change::Remove => kind::REMOVE,
        Change::Touch => kind::TOUCH,
    }
}

#[tactic(auto, using(crate::proofs::Readable::put_cells), unfolding(crate::specs::Spelling::change_spelling))]
fn write_change(
    schema: &Schema,
    row: &RowId,
    change: &Change,
    out: &mut Vec<u8>,
) -> Result<(), NoMemory>
    requires { FitsTable schema.now (row.now, change.now) }
    ensures ok { OnOk result (out.new.items ≡ out.old.items ++ change_spelling schema.now (row.now, change.now)) }
    ensures readable { OnOk result (HasCells (row.now, change.now)) }
{
    out.extend_from_slice(&[row.table, kind_byte(change)])?;
    key_bytes(&row.key, out)?;
    match change {
        Change::Put(image) => write_others(table_of(schema, row).key.items(), image.cells(), out),
        Change::Remove | Change::Touch => Ok(()),
    }
}

fn write_changes(
    schema: &Schema,
    changes: &[(RowId, Change)],
    out: &mut Vec<u8>,
) -> Result<(), NoMemory>
    requires { All (FitsTable schema.now) changes.now }
    ensures ok { OnOk result (out.new.items ≡ out.old.items ++ changes_spelling schema.now changes.now) }
    ensures readable { OnOk result (All HasCells changes.now) }
{
    for (row, change) in changes {
        write_change(schema, row, change, out)?;
    }
    Ok(())
}

#[tactic(auto, unfolding(crate::specs::Spelling::candidate_spelling))]
fn write_candidate(
    schema: &Schema,
    candidate: &Candidate,
    out: &mut Vec<u8>,
) -> Result<(), NoMemory>
    requires { FitsTables schema.now candidate.now }
    ensures ok { OnOk result (out.new.items ≡ out.old.items ++ candidate_spelling schema.now candidate.now) }
    ensures readable { OnOk result (HaveCells candidate.now) }
{
    let changes = candidate.set.changes();
    write_number(candidate.start, out)?;
    write_number(changes.len() as u32, out)?;
    write_changes(schema, changes, out)
}

fn write_candidates(schema: &Schema, items: &[Candidate], out: &mut Vec<u8>) -> Result<(), NoMemory>
    requires { All (FitsTables schema.now) items.now }
    ensures ok { OnOk result (out.new.items ≡ out.old.items ++ candidates_spelling schema.now items.now) }
    ensures readable { OnOk result (All HaveCells items.now) }
{
    for item in items {
        write_candidate(schema, item, out)?;
    }
    Ok(())
}

/// The GGB2 spelling of a batch. Takes a step for each byte, and for each cell one for each key place.
#[tactic(auto, unfolding(crate::specs::Spelling::batch_spelling))]
pub fn batch_bytes(alloc: Global, schema: &Schema, batch: &Batch) -> Result<Vec<u8>, NoMemory>
    requires { FitsSchema schema.now batch.now }
    ensures ok { IfOk result (λ bytes. bytes.items ≡ batch_spelling Ggb2 schema.now batch.now) }
    ensures readable { IfOk result (λ _. All HaveCells batch.now.items) }
{
    let items = batch.items.items();
    let mut out = Vec::with_capacity(alloc, batch_size(batch) as usize)?;
    out.extend_from_slice(&format::GGB2)?;
    out.push(batch.region)?;
    write_number(batch.epoch, &mut out)?;
    write_number(items.len() as u32, &mut out)?;
    write_candidates(schema, items, &mut out)?;
    Ok(out)
}
