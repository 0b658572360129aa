//! Conditions.
ghost use Rattle.std.specs.Prelude.{◌≡◌, ◌≢◌, ◌++◌, IfErr, Ok, Err};
ghost use Rattle.geo_base.specs.Results.{Matches};
ghost use Rattle.sql_expr.specs.declared.fault.EvalFault.TheVariants as fault;
ghost use Rattle.sql_expr.specs.Conditions.{kept};

use crate::evaluation::evaluate_test;
use crate::expr::Expr;
use crate::fault::EvalFault;
use crate::value::Value;
use geo_base::Cell;

/// Whether the row of a left table's cells and a right one's passes every test. It is dropped at the first
/// that isn't true, and later ones aren't evaluated. A fault of a test that is evaluated is the answer.
/// This takes no memory.
#[tactic(auto, using(crate::proofs::FirstFaults::other_fault))]
pub fn keeps(tests: &[Expr], left: &[Cell], right: &[Cell]) -> Result<bool, EvalFault>
    ensures exact { Matches (λ b. b) result (kept (left.now ++ right.now) tests.now) }
    ensures memory { IfErr result (λ e. e ≢ fault.NoMemory) }
{
    for test in tests {
        match evaluate_test(test, left, right)? {
            Value::Truth(true) => {}
            _ => return Ok(false),
        }
    }
    Ok(true)
}
