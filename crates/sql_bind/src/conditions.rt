//! Conditions as lists of conjuncts.
ghost use Rattle.std.specs.Prelude.{◌≡◌, ◌++◌, OnOk};
ghost use Rattle.geo_base.specs.Results.{Gives};
ghost use Rattle.sql_bind.specs.Conditions as spec;

use crate::expressions::taken_by;
use crate::fault::BindFault;
use crate::scope::Scope;
use geo_base::NoMemory;
use geo_schema::Schema;
use sql_ast::Ast;
use sql_expr::{Expr, ValueType};
use std::alloc::Global;

/// Adds the conjuncts of an expression, from left to right.
#[tactic(auto, unfolding(crate::specs::Conditions::conjuncts))]
fn push_conjuncts(tests: &mut Vec<Expr>, expr: Expr) -> Result<(), NoMemory>
    ensures { OnOk result (tests.new.items ≡ tests.old.items ++ spec.conjuncts expr) }
{
    match expr {
        Expr::And(a, b) => {
            push_conjuncts(tests, a.into_inner())?;
            push_conjuncts(tests, b.into_inner())?;
            Ok(())
        }
        other => {
            tests.push(other)?;
            Ok(())
        }
    }
}

/// The conjuncts of a condition.
#[tactic(auto, unfolding(crate::specs::Conditions::condition_of))]
pub(crate) fn condition_of(
    alloc: Global,
    schema: &Schema,
    scope: &Scope,
    test: &Ast,
) -> Result<Vec<Expr>, BindFault>
    ensures { Gives BindFault.NoMemory (λ tests. tests.items) result (spec.condition_of schema.now scope.now test.now) }
{
    let whole = taken_by(alloc, ValueType::Truth, schema, scope, test)?;
    let mut tests = Vec::new(alloc);
    push_conjuncts(&mut tests, whole)?;
    Ok(tests)
}

/// The conjuncts of WHERE.
pub(crate) fn filter_of(
    alloc: Global,
    schema: &Schema,
    scope: &Scope,
    filter: &Option<Ast>,
) -> Result<Vec<Expr>, BindFault>
    ensures { Gives BindFault.NoMemory (λ tests. tests.items) result (spec.filter_of schema.now scope.now filter.now) }
{
    match filter {
        None => Ok(Vec::new(alloc)),
        Some(test) => condition_of(alloc, schema, scope, test),
    }
}
