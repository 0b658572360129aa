//! Statements that write or lock: what they answer, and what they change made in the transaction's net.
ghost use Rattle.std.specs.Prelude.{◌≡◌, [], length};
ghost use Rattle.row_source.specs.Sources.{AreRowsOf};
ghost use Rattle.sql_bind.specs.Sound.{IsSoundDelete, IsSoundInsert, IsSoundLock, IsSoundUpdate};
ghost use Rattle.write_set.specs.Overlay.{overlay};
ghost use Rattle.write_set.specs.Sets.{Rises};

use crate::counted::Counted;
use geo_schema::Schema;
use row_source::{ExecFault, Steps};
use sql_bind::{BoundDelete, BoundInsert, BoundSelect, BoundUpdate};
use sql_exec::{
    LineList, Locked, apply_changes, changes_can_be_applied, delete, insert, lock, update,
};
use std::alloc::Global;
use std::sync::ledger::Ledger;
use write_set::WriteSet;

/// How many rows an INSERT has changed, which the net has then.
pub fn do_insert(
    alloc: Global,
    query: &BoundInsert,
    source: &Counted,
    own: &mut WriteSet,
    schema: &Schema,
) -> Result<u32, ExecFault>
    requires { IsSoundInsert schema.now query.now }
{
    changes_can_be_applied();
    let _count = schema.count();
    let changes = insert(alloc, query, source, own, schema)?;
    apply_changes(own, alloc, changes)
}

/// How many rows an UPDATE has changed.
pub fn do_update<L: Ledger>(
    alloc: Global,
    query: &BoundUpdate,
    source: &Counted,
    own: &mut WriteSet,
    schema: &Schema,
    steps: &mut Steps<L>,
) -> Result<u32, ExecFault>
    requires query { IsSoundUpdate schema.now query.now }
    requires schema { source.now.list.tables ≡ schema.now }
    requires rows { AreRowsOf schema.now source.now.list.rows }
    requires laid { source.now.list.rows ≡ overlay source.now.list.base own.old }
{
    changes_can_be_applied();
    let changes = update(alloc, query, source, own, schema, steps)?;
    apply_changes(own, alloc, changes)
}

/// How many rows a DELETE has changed.
pub fn do_delete<L: Ledger>(
    alloc: Global,
    query: &BoundDelete,
    source: &Counted,
    own: &mut WriteSet,
    schema: &Schema,
    steps: &mut Steps<L>,
) -> Result<u32, ExecFault>
    requires query { IsSoundDelete schema.now query.now }
    requires schema { source.now.list.tables ≡ schema.now }
    requires rows { AreRowsOf schema.now source.now.list.rows }
    requires laid { source.now.list.rows ≡ overlay source.now.list.base own.old }
    requires base { Rises source.now.list.base }
{
    changes_can_be_applied();
    let _changes = own.changes();
    let changes = delete(alloc, query, source, own, schema, steps)?;
    apply_changes(own, alloc, changes)
}

/// The lines of a query that locks, whose touches the net has then.
pub fn do_lock<L: Ledger>(
    alloc: Global,
    query: &BoundSelect,
    source: &Counted,
    own: &mut WriteSet,
    schema: &Schema,
    steps: &mut Steps<L>,
) -> Result<LineList, ExecFault>
    requires query { IsSoundLock schema.now query.now }
    requires unordered { query.now.order ≡ [] }
    requires schema { source.now.list.tables ≡ schema.now }
    requires rows { AreRowsOf schema.now source.now.list.rows }
    requires laid { source.now.list.rows ≡ overlay source.now.list.base own.old }
    requires base { Rises source.now.list.base }
{
    changes_can_be_applied();
    let _changes = own.changes();
    let Locked { lines, touches } = lock(alloc, query, source, own, schema, steps)?;
    let _count = apply_changes(own, alloc, touches)?;
    Ok(lines)
}
