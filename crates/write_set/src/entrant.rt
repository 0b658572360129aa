//! The candidates of an epoch, each with its place in it.
ghost use Rattle.std.specs.Prelude.{◌≡◌, ◌++◌, ◌≤◌, length, map, All, IfOk, OnOk};
ghost use Rattle.write_set.specs.inner.Entrants.{placed};
ghost use Rattle.write_set.specs.Journal.{candidates_of, placed_from};

use crate::batch::Batch;
use crate::candidate::Candidate;
use geo_base::limits::MAX_CANDIDATES;
use geo_base::{Csn, NoMemory, RegionNo};
use std::alloc::Global;

/// A candidate with its region and its commit number.
#[derive(Clone, Copy, Debug)]
pub(crate) struct Entrant<'a> {
    pub(crate) region: RegionNo,
    pub(crate) csn: Csn,
    pub(crate) candidate: &'a Candidate,
}

/// The candidates of the batches, by region and then commit number.
pub(crate) fn entrants<'a>(
    alloc: Global,
    batches: &'a [Batch],
) -> Result<Vec<Entrant<'a>>, NoMemory>
    requires { All (λ b. length b.items ≤ MAX_CANDIDATES) batches.now }
    ensures { IfOk result (λ all. map placed all.items ≡ candidates_of batches.now) }
{
    let mut all = Vec::new(alloc);
    for batch in batches {
        enter(&mut all, batch)?;
    }
    Ok(all)
}

/// Adds the candidates of one batch.
fn enter<'a>(all: &mut Vec<Entrant<'a>>, batch: &'a Batch) -> Result<(), NoMemory>
    requires { length batch.now.items ≤ MAX_CANDIDATES }
    ensures { OnOk result (map placed all.new.items ≡ map placed all.old.items ++ placed_from batch.now.region 0 batch.now.items) }
{
    for (place, candidate) in batch.items.items().iter().enumerate() {
        all.push(Entrant {
            region: batch.region,
            csn: place as u32,
            candidate,
        })?;
    }
    Ok(())
}
