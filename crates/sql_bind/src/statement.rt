//! Statements.
ghost use Rattle.std.specs.Prelude.{◌≡◌, true, IfOk};
ghost use Rattle.geo_base.specs.Results.{Gives};
ghost use Rattle.sql_bind.specs.Sound.{IsSound};
ghost use Rattle.sql_bind.specs.Statements.{is_of_tables, bound_of};

use crate::bound::Bound;
use crate::delete::delete_of;
use crate::fault::BindFault;
use crate::insert::insert_of;
use crate::select::{lock_of, select_of};
use crate::update::update_of;
use geo_schema::Schema;
use sql_ast::Statement;
use std::alloc::Global;

/// The statement of tables, bound.
fn bound_of(alloc: Global, statement: &Statement, schema: &Schema) -> Result<Bound, BindFault>
    requires { is_of_tables statement.now ≡ true }
    ensures { Gives BindFault.NoMemory (λ b. b) result (bound_of schema.now statement.now) }
{
    match statement {
        Statement::Select(select) => Ok(Bound::Select(select_of(alloc, schema, select)?)),
        Statement::SelectForUpdate(select) => Ok(Bound::Lock(lock_of(alloc, schema, select)?)),
        Statement::Insert(insert) => Ok(Bound::Insert(insert_of(alloc, schema, insert)?)),
        Statement::Update(update) => Ok(Bound::Update(update_of(alloc, schema, update)?)),
        Statement::Delete(delete) => Ok(Bound::Delete(delete_of(alloc, schema, delete)?)),
        Statement::Explain(select) => Ok(Bound::Explain(select_of(alloc, schema, select)?)),
        Statement::Begin | Statement::BeginAsOf(_) | Statement::Commit | Statement::Rollback =>
            unreachable!(),
    }
}

/// The statement with its names and types resolved, or the first refusal in the order of binding. It has to
/// be one that reads or writes tables: the others have nothing to bind. The time is linear in the statement,
/// where the name of a table is compared with that of each table, that of a column with each column of its
/// tables, a column of GROUP BY, of the list of INSERT or of SET with those before it, of which there are at
/// most as many as columns, and a name of ORDER BY with that of each item. The stack goes as deep as its
/// expressions.
#[tactic(auto, using(crate::proofs::Sound::answer_sound))]
pub fn bind(alloc: Global, statement: &Statement, schema: &Schema) -> Result<Bound, BindFault>
    requires { is_of_tables statement.now ≡ true }
    ensures exact { Gives BindFault.NoMemory (λ b. b) result (bound_of schema.now statement.now) }
    ensures sound { IfOk result (λ b. IsSound schema.now b) }
{
    bound_of(alloc, statement, schema)
}
