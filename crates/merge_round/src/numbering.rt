//! The numbers of an epoch's candidates and of their rows.
ghost use Rattle.std.specs.Prelude.{◌≡◌, ◌+◌, ◌*◌, ◌^◌, ◌<◌, ◌≤◌, [], All, IfOk, OnOk, length, map};
ghost use Rattle.std.specs.Map.{keys_of};
ghost use Rattle.geo_base.specs.declared.limits.TheConstants.{MAX_CANDIDATES, MAX_REGIONS, MAX_SET_ROWS};
ghost use Rattle.write_set.specs.Journal.{candidates_of, placed_from};
ghost use Rattle.merge_round.specs.declared.limits.TheConstants.{MAX_BATCH_ROWS, MAX_ROWS};
ghost use Rattle.merge_round.specs.Rounds.{rows_in};
ghost use Rattle.merge_round.specs.inner.Entries.{entry_of, GrowsBy, NumbersRows};

use geo_base::{Csn, Duplicate, Epoch, Many, NoMemory, RegionNo, RowId};
use indexmap::IndexSet;
use std::alloc::Global;
use write_set::{Batch, Change};

/// A candidate as its seats work on it.
#[derive(Drop)]
pub(crate) struct Entry {
    pub(crate) region: RegionNo,
    pub(crate) csn: Csn,
    pub(crate) start: Epoch,
    /// The numbers of its rows, changed or touched, in the rising order of the rows.
    pub(crate) rows: Many<u32>,
}

/// Candidates in their order, with the rows that they have, each once and in the order in which they first
/// appear.
#[derive(Drop)]
pub(crate) struct Numbering {
    pub(crate) rows: IndexSet<RowId>,
    pub(crate) entries: Vec<Entry>,
}

/// Numbers the candidates of the batches, by region and then commit number, and their rows.
pub(crate) fn number(alloc: Global, batches: &[Batch]) -> Result<Numbering, NoMemory>
    requires few { length batches.now ≤ MAX_REGIONS }
    requires lawful { All (λ b. length b.items ≤ MAX_CANDIDATES) batches.now }
    ensures rows { IfOk result (λ n. n.rows.keys ≡ rows_in (candidates_of batches.now)) }
    ensures entries { IfOk result (λ n. n.entries.items ≡ map (entry_of n.rows.keys) (candidates_of batches.now)) }
    ensures bounded { IfOk result (λ n. length n.rows.keys ≤ MAX_ROWS) }
{
    let mut numbering = Numbering {
        rows: IndexSet::new(alloc),
        entries: Vec::new(alloc),
    };
    for batch in batches {
        number_batch(alloc, &mut numbering, batch)?;
    }
    Ok(numbering)
}

/// Numbers the candidates of one batch behind those that are there.
fn number_batch(alloc: Global, numbering: &mut Numbering, batch: &Batch) -> Result<(), NoMemory>
    requires few { length batch.now.items ≤ MAX_CANDIDATES }
    requires room { length numbering.old.rows.keys + MAX_BATCH_ROWS < 2 ^ 32 }
    ensures grown { OnOk result (GrowsBy (placed_from batch.now.region 0 batch.now.items) numbering.old numbering.new) }
    ensures room { OnOk result (length numbering.new.rows.keys ≤ length numbering.old.rows.keys + MAX_BATCH_ROWS) }
{
    for (place, candidate) in batch.items.items().iter().enumerate() {
        let rows = number_rows(alloc, &mut numbering.rows, candidate.set.changes())?;
        numbering.entries.push(Entry {
            region: batch.region,
            csn: place as u32,
            start: candidate.start,
            rows: Many::new(rows),
        })?;
    }
    Ok(())
}

/// The numbers of the rows, of which those that are new get the next ones.
fn number_rows(
    alloc: Global,
    rows: &mut IndexSet<RowId>,
    changes: &[(RowId, Change)],
) -> Result<Vec<u32>, NoMemory>
    requires few { length changes.now ≤ MAX_SET_ROWS }
    requires room { length rows.old.keys + MAX_SET_ROWS < 2 ^ 32 }
    ensures numbered { IfOk result (λ numbers. NumbersRows (keys_of changes.now) rows.old.keys rows.new.keys numbers.items) }
    ensures room { OnOk result (length rows.new.keys ≤ length rows.old.keys + MAX_SET_ROWS) }
{
    let mut numbers = Vec::with_capacity(alloc, changes.len())?;
    for (row, _) in changes {
        let (number, _) = rows.insert_full(row.copy(alloc)?)?;
        numbers.push(number as u32)?;
    }
    Ok(numbers)
}
