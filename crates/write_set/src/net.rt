//! What is left of a transaction's changes.
ghost use Rattle.std.specs.Prelude.{◌≡◌, [], IfOk, IfErr, OnErr, OnOk};
ghost use Rattle.std.specs.Option.{is_some};
ghost use Rattle.write_set.specs.Net.{IsNet, TouchesKnown, HasTouchesOf, IsWithinLimits, HasNetCause};
ghost use Rattle.write_set.specs.Sets.{Rises};
ghost use Rattle.write_set.specs.inner.Nets.{left_in, left_with, left_with_all};

use crate::change::Change;
use crate::replacing::{extent_after, replace_all};
use crate::row_change::RowChange;
use crate::set::WriteSet;
use crate::set_fault::SetFault;
use crate::table::value_of;
use geo_base::limits::{MAX_SET_BYTES, MAX_SET_ROWS};
use geo_base::{Duplicate, NoMemory, RowId};
use std::alloc::Global;
use std::collections::BTreeMap;

/// What is left of each row that the changes name: a change, or none.
type LeftByRow = BTreeMap<RowId, Option<Change>>;

impl WriteSet {
    /// The net of this set and of the changes after it: [`WriteSet::apply`] on a copy of the set, at whose cost it comes.
    #[tactic(auto, using(crate::proofs::Nets::net_cause))]
    pub fn with(&self, alloc: Global, changes: Vec<RowChange>) -> Result<WriteSet, SetFault>
        requires { TouchesKnown self.now changes.items }
        ensures net { IfOk result (IsNet self.now changes.items) }
        ensures touches { IfOk result (HasTouchesOf self.now changes.items) }
        ensures within { IfOk result IsWithinLimits }
        ensures fault { IfErr result (HasNetCause self.now changes.items) }
    {
        let _changes = self.changes();
        let mut net = self.copy(alloc)?;
        net.apply(alloc, changes)?;
        Ok(net)
    }

    /// Makes the changes in this set, in their order, so that it becomes the net of both: a put or a removal takes the
    /// place of what the set has of the row, a removal of a row that the snapshot lacks leaves nothing of it, and a
    /// touch of a row that the set has leaves the set as it is. A row that is touched while the set lacks it has to be in
    /// the snapshot.
    ///
    /// [`SetFault::TooManyRows`] exactly where the net has more than 1,024 rows, and else
    /// [`SetFault::TooLarge`] exactly where its spelled changes have more than 1,048,576 bytes. After a fault the set is
    /// as it was. Nothing of the set is copied: for n changes and a set of m rows the cost is some n searches by halving
    /// in m and n rows, the cells of the changes and of what they replace, and, for a new row that isn't the last, a
    /// move of the entries behind it, of which there are fewer than 1,024.
    #[tactic(auto, using(crate::proofs::Lefts::replaced_is_net, crate::proofs::Nets::is_net, crate::proofs::Nets::net_touches, crate::proofs::Nets::net_cause))]
    pub fn apply(&mut self, alloc: Global, changes: Vec<RowChange>) -> Result<(), SetFault>
        requires { TouchesKnown self.old changes.items }
        ensures net { OnOk result (IsNet self.old changes.items self.new) }
        ensures touches { OnOk result (HasTouchesOf self.old changes.items self.new) }
        ensures within { OnOk result (IsWithinLimits self.new) }
        ensures fault { IfErr result (HasNetCause self.old changes.items) }
        ensures stays { OnErr result (self.new ≡ self.old) }
    {
        let left = left_of(alloc, self.changes.as_slice(), changes)?;
        let extent = extent_after(self.changes.as_slice(), self.size, left.as_slice());
        if extent.rows > MAX_SET_ROWS as usize {
            return Err(SetFault::TooManyRows);
        }
        if extent.bytes > u128::from(MAX_SET_BYTES) {
            return Err(SetFault::TooLarge);
        }
        self.changes.reserve(left.len())?;
        replace_all(&mut self.changes, left);
        self.size = extent.bytes as u64;
        Ok(())
    }
}

/// What the changes leave of the rows that they name, in rising order of rows.
fn left_of(
    alloc: Global,
    set: &[(RowId, Change)],
    changes: Vec<RowChange>,
) -> Result<Vec<(RowId, Option<Change>)>, NoMemory>
    requires { Rises set.now }
    ensures left { IfOk result (λ left. left.items ≡ left_with_all set.now [] changes.items) }
    ensures rising { IfOk result (λ left. Rises left.items) }
{
    let mut left = BTreeMap::new(alloc);
    for change in changes {
        note(set, &mut left, change)?;
    }
    in_order(alloc, left)
}

/// Notes what this change leaves of its row.
fn note(set: &[(RowId, Change)], left: &mut LeftByRow, change: RowChange) -> Result<(), NoMemory>
    requires { Rises set.now }
    ensures { OnOk result (left.new.entries ≡ left_with set.now change.row change.before change.change left.old.entries) }
{
    match change.change {
        Change::Remove if !change.before => {
            left.insert(change.row, None)?;
        }
        Change::Touch if is_left(set, left, &change.row) => {}
        made => {
            left.insert(change.row, Some(made))?;
        }
    }
    Ok(())
}

/// Whether anything is left of the row.
fn is_left(set: &[(RowId, Change)], left: &LeftByRow, row: &RowId) -> bool
    requires { Rises set.now }
    ensures { result ≡ is_some (left_in set.now left.now.entries row.now) }
{
    match left.get(row) {
        Some(held) => held.is_some(),
        None => value_of(set, row).is_some(),
    }
}

/// What is left, in rising order of rows.
fn in_order(alloc: Global, left: LeftByRow) -> Result<Vec<(RowId, Option<Change>)>, NoMemory>
    ensures left { IfOk result (λ v. v.items ≡ left.entries) }
    ensures rising { IfOk result (λ v. Rises v.items) }
{
    let left = left.into_iter().collect(alloc)?;
    Ok(left)
}
