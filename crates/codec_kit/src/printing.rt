//! What a batch says, as a text.
use geo_base::{NoMemory, RowId, print_row};
use std::alloc::Global;
use write_set::{Batch, Candidate, Change};

fn print_change(out: &mut String, row: &RowId, change: &Change) -> Result<(), NoMemory> {
    let table = row.table;
    write!(out, "; {table}")?;
    print_row(out, row.key.cells())?;
    match change {
        Change::Put(image) => {
            out.push_str(" -> ")?;
            print_row(out, image.cells())
        }
        Change::Remove => Ok(out.push_str(" removed")?),
        Change::Touch => Ok(out.push_str(" touched")?),
    }
}

fn print_candidate(out: &mut String, candidate: &Candidate) -> Result<(), NoMemory> {
    write!(out, "\nstart {}", candidate.start)?;
    for (row, change) in candidate.set.changes() {
        print_change(out, row, change)?;
    }
    Ok(())
}

fn print_batch(out: &mut String, batch: &Batch) -> Result<(), NoMemory> {
    write!(out, "region {} epoch {}", batch.region, batch.epoch)?;
    for candidate in batch.items.items() {
        print_candidate(out, candidate)?;
    }
    Ok(())
}

/// The batch, with a line for each candidate: its start, and each change behind `; `, as `0(7) -> (7, NULL)`
/// or `0(7) removed` or `0(7) touched`, where 0 is the table.
pub fn batch_text(alloc: Global, batch: &Batch) -> Result<String, NoMemory> {
    let mut out = String::new(alloc);
    print_batch(&mut out, batch)?;
    Ok(out)
}
