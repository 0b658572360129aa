//! The changes of a statement in the transaction's net.
ghost use Rattle.std.specs.Prelude.{◌≡◌, ◌⊎◌, Ok, IfOk, IfErr, OnErr};
ghost use Rattle.row_source.specs.declared.fault.ExecFault.TheVariants as fault;
ghost use Rattle.sql_exec.specs.Changes.{CanBeApplied};
ghost use Rattle.sql_exec.specs.Effects.{IsDone, IsNetAfter, IsRefused};
ghost use Rattle.write_set.specs.Net.{TouchesKnown};

use row_source::ExecFault;
use std::alloc::Global;
use write_set::{RowChange, RowChangeList, SetFault, WriteSet};

/// Makes the changes in the net, in place.
fn make(own: &mut WriteSet, alloc: Global, changes: Vec<RowChange>) -> Result<(), ExecFault>
    requires { TouchesKnown own.old changes.items }
    ensures net { IfOk result (λ _. IsNetAfter own.old changes.items own.new) }
    ensures refused { IfErr result (λ e. (e ≡ fault.NoMemory) ⊎ IsRefused own.old (Ok changes.items) e) }
    ensures stays { OnErr result (own.new ≡ own.old) }
{
    match own.apply(alloc, changes) {
        Ok(()) => Ok(()),
        Err(SetFault::TooManyRows) => Err(ExecFault::TooManyRows),
        Err(SetFault::TooLarge) => Err(ExecFault::TooLarge),
        Err(SetFault::NoMemory) => Err(ExecFault::NoMemory),
    }
}

/// Makes the changes of a statement in the transaction's net `own`, in place, and answers how many rows it has changed,
/// also those whose image stays the same. What [`crate::insert`], [`crate::update`], [`crate::delete`] and
/// [`crate::lock`] answer may be made in the net that they were shown ([`crate::changes_can_be_applied`]). What the net then
/// touches or removes it had before, or a change says that the snapshot has the row.
///
/// [`ExecFault::TooManyRows`] or [`ExecFault::TooLarge`] is answered where the net after the changes breaks that limit, and
/// [`ExecFault::NoMemory`] where there is no memory for it; the net stays as it was then. The cost is that of
/// [`WriteSet::apply`]: some steps and a search by halving in the net for each change, and none for the rest of the net,
/// but that a row between others moves those behind it.
pub fn apply_changes(
    own: &mut WriteSet,
    alloc: Global,
    changes: RowChangeList,
) -> Result<u32, ExecFault>
    requires { CanBeApplied own.old changes }
    ensures done { IfOk result (λ changed. IsDone own.old (Ok changes) changed own.new) }
    ensures refused { IfErr result (λ e. (e ≡ fault.NoMemory) ⊎ IsRefused own.old (Ok changes) e) }
    ensures stays { OnErr result (own.new ≡ own.old) }
{
    let _few = own.count();
    let changes = changes.into_vec();
    let changed = changes.len();
    make(own, alloc, changes)?;
    Ok(changed as u32)
}
