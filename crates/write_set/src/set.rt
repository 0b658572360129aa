ghost use Rattle.std.specs.Prelude.{◌≡◌, ◌≤◌, ◌*◌, [], ◌∷◌, ◌++◌, length, IfOk, OnOk};
ghost use Rattle.std.specs.List.{slice_get};
ghost use Rattle.std.specs.Option.{option_copied, option_map};
ghost use Rattle.geo_base.specs.declared.limits.TheConstants.{MAX_SET_ROWS};
ghost use Rattle.write_set.specs.declared.limits.TheConstants.{MAX_CHANGE_BYTES};
ghost use Rattle.write_set.specs.Net.{change_in};
ghost use Rattle.write_set.specs.Sets.{IsWriteSet};
ghost use Rattle.write_set.specs.Sizes.{set_size};

use crate::change::Change;
use crate::size::{change_size, changes_size};
use crate::table::value_of;
use geo_base::{Duplicate, NoMemory, RowId};
use std::alloc::Global;
use std::marker::Model;

/// What one transaction does to its rows: to at most 1,024, each once, in rising order. Contracts see the
/// list of the rows with what is done to each.
#[derive(Debug, Drop)]
pub struct WriteSet {
    pub(crate) changes: Vec<(RowId, Change)>,
    /// The bytes of their spellings.
    pub(crate) size: u64,
}

impl Model for WriteSet {
    ghost use Rattle.std.specs.Prelude.{List, ◌≡◌, ◌≤◌, ◌*◌};
    ghost use Rattle.geo_base.specs.declared.limits.TheConstants.{MAX_SET_ROWS};
    ghost use Rattle.geo_base.specs.declared.row_id.RowId.{RowId};
    ghost use Rattle.write_set.specs.declared.change.Change.{Change};
    ghost use Rattle.write_set.specs.declared.limits.TheConstants.{MAX_CHANGE_BYTES};
    ghost use Rattle.write_set.specs.Sets.{IsWriteSet};
    ghost use Rattle.write_set.specs.Sizes.{set_size};

    ghost Value = { List (RowId × Change) };

    ghost view = { λ s. s.changes.items };

    ghost invariant = { λ s. IsWriteSet s.changes.items × (s.size ≡ set_size s.changes.items) × (s.size ≤ MAX_CHANGE_BYTES * MAX_SET_ROWS) };
}

impl WriteSet {
    /// The set without rows.
    #[tactic(auto, using(crate::proofs::Rising::no_changes))]
    pub fn empty(alloc: Global) -> WriteSet
        ensures { result ≡ [] }
    {
        WriteSet {
            changes: Vec::new(alloc),
            size: 0,
        }
    }

    /// The set of this row alone: for a transaction whose one change is known to be left, as a put. Where
    /// the row may be one that the snapshot lacks, and is removed or touched, take [`WriteSet::with`].
    pub fn one(alloc: Global, row: RowId, change: Change) -> Result<WriteSet, NoMemory>
        ensures { IfOk result (λ set. set ≡ (row, change) ∷ []) }
    {
        let size = change_size(&row, &change);
        let mut changes = Vec::new(alloc);
        changes.push((row, change))?;
        Ok(WriteSet { changes, size })
    }

    /// The set of these changes, which are in rising order of rows. The cost is the number of their cells.
    pub fn from_changes(changes: Vec<(RowId, Change)>) -> WriteSet
        requires { IsWriteSet changes.items }
        ensures { result ≡ changes.items }
    {
        let size = changes_size(changes.as_slice());
        WriteSet { changes, size }
    }

    /// The rows with their changes, in rising order of rows.
    pub fn changes(&self) -> &[(RowId, Change)]
        ensures value { result.now ≡ self.now }
        ensures lawful { IsWriteSet self.now }
    {
        self.changes.as_slice()
    }

    /// What is done to the row, if anything is. The search is by halving.
    pub fn get(&self, row: &RowId) -> Option<&Change>
        ensures { option_copied result ≡ change_in self.now row.now }
    {
        value_of(self.changes.as_slice(), row)
    }

    /// The row at a place of the rising order, counted from 0, and what is done to it; None exactly past
    /// the last.
    pub fn at(&self, place: u32) -> Option<(&RowId, &Change)>
        ensures { option_map (λ p. (p.0.now, p.1.now)) result ≡ slice_get self.now place }
    {
        match self.changes.get(place as usize) {
            Some(found) => Some((&found.0, &found.1)),
            None => None,
        }
    }

    /// How many rows there are, touched ones included.
    pub fn count(&self) -> u32
        ensures value { result ≡ length self.now }
        ensures few { result ≤ MAX_SET_ROWS }
    {
        self.changes.len() as u32
    }

    /// The bytes of the spellings of the changes, at most 33,654,784.
    pub fn size(&self) -> u64
        ensures value { result ≡ set_size self.now }
        ensures few { result ≤ MAX_CHANGE_BYTES * MAX_SET_ROWS }
    {
        self.size
    }
}

/// Copies of the changes, behind those that are there.
pub(crate) fn copy_changes(
    copies: &mut Vec<(RowId, Change)>,
    alloc: Global,
    changes: &[(RowId, Change)],
) -> Result<(), NoMemory>
    ensures { OnOk result (copies.new.items ≡ copies.old.items ++ changes.now) }
{
    for (row, change) in changes {
        copies.push((row.copy(alloc)?, change.copy(alloc)?))?;
    }
    Ok(())
}

impl Duplicate for WriteSet {
    fn copy(&self, alloc: Global) -> Result<WriteSet, NoMemory> {
        let mut changes = Vec::with_capacity(alloc, self.changes.len())?;
        copy_changes(&mut changes, alloc, self.changes.as_slice())?;
        Ok(WriteSet {
            changes,
            size: self.size,
        })
    }
}
