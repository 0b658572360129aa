//! The rows that conditions keep.
ghost use Rattle.std.specs.Prelude.{◌≡◌, map};
ghost use Rattle.geo_base.specs.Results.{Gives, Matches};
ghost use Rattle.row_source.specs.Matches.{in_statement};
ghost use Rattle.row_source.specs.declared.fault.ExecFault.TheVariants as fault;
ghost use Rattle.sql_exec.specs.inner.Plain.{kept_rows};
ghost use Rattle.sql_expr.specs.Conditions.{kept};

use geo_base::{Cell, RowImage};
use row_source::{ExecFault, passes};
use sql_expr::Expr;
use std::alloc::Global;

/// Whether every test is true over the row.
#[tactic(auto, using(crate::proofs::Alone::no_right))]
pub(crate) fn is_kept(tests: &[Expr], row: &[Cell]) -> Result<bool, ExecFault>
    ensures { Matches (λ b. b) result (in_statement (kept row.now tests.now)) }
{
    passes(tests, row, &[])
}

/// Those of the rows that every test keeps. One row is tested after another, and the first fault is the answer.
#[tactic(auto, using(crate::proofs::Kept::begins))]
pub(crate) fn kept_rows<'a>(
    alloc: Global,
    tests: &[Expr],
    rows: &[&'a RowImage],
) -> Result<Vec<&'a RowImage>, ExecFault>
    ensures { Gives fault.NoMemory (λ v. map (λ row. row.now) v.items) result (kept_rows tests.now (map (λ row. row.now) rows.entry.now)) }
{
    let mut kept = Vec::new(alloc);
    for row in rows {
        if is_kept(tests, row.cells())? {
            kept.push(*row)?;
        }
    }
    Ok(kept)
}
