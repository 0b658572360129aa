//! Values of expressions and conditions over rows, with the faults of statements.
ghost use Rattle.std.specs.Prelude.{◌++◌};
ghost use Rattle.geo_base.specs.Results.{Gives, Matches};
ghost use Rattle.row_source.specs.Matches.{in_statement, value};
ghost use Rattle.row_source.specs.declared.fault.ExecFault.TheVariants as fault;
ghost use Rattle.sql_expr.specs.Conditions.{kept};

use crate::fault::ExecFault;
use geo_base::Cell;
use sql_expr::{Expr, eval, keeps};
use std::alloc::Global;

/// The value of an expression over the cells of a left row and those of a right one, or its fault. There are no
/// right cells where there is one table. A text is copied only where it is the answer; the time is linear in
/// the expression.
pub fn value(alloc: Global, expr: &Expr, left: &[Cell], right: &[Cell]) -> Result<Cell, ExecFault>
    ensures { Gives fault.NoMemory (λ c. c) result (value (left.now ++ right.now) expr.now) }
{
    match eval(alloc, expr, left, right) {
        Ok(cell) => Ok(cell),
        Err(fault) => Err(ExecFault::from(fault)),
    }
}

/// Whether every test is true over the cells of a left row and those of a right one, or the fault of the first
/// test that is evaluated and has one. This takes no memory.
pub fn passes(tests: &[Expr], left: &[Cell], right: &[Cell]) -> Result<bool, ExecFault>
    ensures { Matches (λ b. b) result (in_statement (kept (left.now ++ right.now) tests.now)) }
{
    match keeps(tests, left, right) {
        Ok(passes) => Ok(passes),
        Err(fault) => Err(ExecFault::from(fault)),
    }
}
