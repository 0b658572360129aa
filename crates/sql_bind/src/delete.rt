//! Bound DELETEs.
ghost use Rattle.geo_base.specs.Results.{Gives};
ghost use Rattle.sql_bind.specs.Deletes.{delete_of};

use crate::bound::{BoundDelete, ExprList};
use crate::conditions::filter_of;
use crate::fault::BindFault;
use crate::scope::{alone, table_named};
use geo_schema::Schema;
use sql_ast::DeleteStmt;
use std::alloc::Global;

/// A DELETE: the table and WHERE.
#[tactic(auto, unfolding(crate::specs::Deletes::delete_of))]
pub(crate) fn delete_of(
    alloc: Global,
    schema: &Schema,
    delete: &DeleteStmt,
) -> Result<BoundDelete, BindFault>
    ensures { Gives BindFault.NoMemory (λ b. b) result (delete_of schema.now delete.now) }
{
    let table = table_named(alloc, schema, &delete.table)?;
    let scope = alone(alloc, &delete.table, table)?;
    let tests = filter_of(alloc, schema, &scope, &delete.filter);
    drop(scope);
    let tests = ExprList::new(tests?);
    Ok(BoundDelete { table, tests })
}
