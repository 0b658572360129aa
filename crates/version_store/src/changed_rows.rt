//! Which rows an epoch changed.
ghost use Rattle.std.specs.Prelude.{◌≡◌, map, filter, nat_lt, IfOk};
ghost use Rattle.write_set.specs.Sets.{alters};
ghost use Rattle.write_set.specs.inner.LastChanges.{rows_altered};

use geo_base::{Duplicate, Epoch, NoMemory, RowId};
use std::alloc::Global;
use std::marker::Model;
use std::sync::Arc;
use write_set::Change;

/// The rows that an epoch changed. Copies share them.
#[derive(Drop)]
pub(crate) struct ChangedRows {
    epoch: Epoch,
    rows: Arc<Vec<RowId>>,
}

impl Model for ChangedRows {
    ghost use Rattle.std.specs.Arc.{arc_value};
    ghost use Rattle.version_store.specs.inner.Noting.{Note};

    ghost Value = { Note };

    ghost view = { λ n. record { epoch = n.epoch; rows = (arc_value n.rows).items } };
}

impl ChangedRows {
    /// The rows that the changes put or remove, as those of the epoch.
    pub(crate) fn of_changes(
        alloc: Global,
        epoch: Epoch,
        changes: &[&(RowId, Change)],
    ) -> Result<ChangedRows, NoMemory>
        ensures { IfOk result (λ n. n ≡ record { epoch = epoch; rows = rows_altered (map (λ c. c.now) changes.now) }) }
    {
        let rows = Arc::new(alloc, rows_altered(alloc, changes)?)?;
        Ok(ChangedRows { epoch, rows })
    }

    /// The epoch.
    pub(crate) fn epoch(&self) -> Epoch
        ensures { result ≡ self.now.epoch }
    {
        self.epoch
    }

    /// The rows that it changed.
    pub(crate) fn rows(&self) -> &[RowId]
        ensures { result.now ≡ self.now.rows }
    {
        self.rows.as_slice()
    }
}

impl Duplicate for ChangedRows {
    fn copy(&self, _alloc: Global) -> Result<ChangedRows, NoMemory> {
        Ok(ChangedRows {
            epoch: self.epoch,
            rows: Arc::try_clone(&self.rows)?,
        })
    }
}

/// Copies of the rows that the changes put or remove.
fn rows_altered(alloc: Global, changes: &[&(RowId, Change)]) -> Result<Vec<RowId>, NoMemory>
    ensures { IfOk result (λ rows. rows.items ≡ rows_altered (map (λ c. c.now) changes.now)) }
{
    let mut rows = Vec::with_capacity(alloc, changes.len())?;
    for change in changes {
        if alters(&change.1) {
            rows.push(change.0.copy(alloc)?)?;
        }
    }
    Ok(rows)
}

/// Whether it puts or removes its row.
fn alters(change: &Change) -> bool
    ensures { result ≡ alters change.now }
{
    match change {
        Change::Put(_) | Change::Remove => true,
        Change::Touch => false,
    }
}

/// Leaves those of later epochs than the horizon. Takes no memory.
pub(crate) fn leave_later(notes: &mut Vec<ChangedRows>, horizon: Epoch)
    ensures { notes.new.items ≡ filter (λ n. nat_lt horizon n.epoch) notes.old.items }
{
    notes.retain(|note| horizon < note.epoch());
}
