//! Pairs that conditions keep, one after another.
ghost use Rattle.std.specs.Prelude.{◌≡◌, [], ◌∷◌, map, IfOk};
ghost use Rattle.std.specs.Option.{option_copied};
ghost use Rattle.geo_base.specs.Results.{Gives};
ghost use Rattle.join_exec.specs.inner.Kept.{kept_behind, pair_of, pairs_by};
ghost use Rattle.row_source.specs.Matches.{alone, paired, right_cells};
ghost use Rattle.row_source.specs.Sources.{listed};
ghost use Rattle.row_source.specs.declared.fault.ExecFault.TheVariants as fault;

use geo_base::{Cell, Duplicate, NoMemory, RowImage};
use row_source::{ExecFault, Pair, passes};
use sql_expr::Expr;
use std::alloc::Global;

/// The cells of the right row, where there is one.
fn right_cells<'a>(right: Option<&'a RowImage>) -> &'a [Cell]
    ensures { result.now ≡ right_cells (option_copied right.entry) }
{
    match right {
        Some(row) => row.cells(),
        None => &[],
    }
}

/// A copy of the row, where there is one.
fn copy_right(alloc: Global, right: Option<&RowImage>) -> Result<Option<RowImage>, NoMemory>
    ensures { IfOk result (λ row. row ≡ option_copied right.entry) }
{
    match right {
        Some(row) => Ok(Some(row.copy(alloc)?)),
        None => Ok(None),
    }
}

/// Copies of the rows.
fn pair_of(alloc: Global, left: &RowImage, right: Option<&RowImage>) -> Result<Pair, NoMemory>
    ensures { IfOk result (λ pair. pair ≡ pair_of left.now (option_copied right.entry)) }
{
    let right = copy_right(alloc, right)?;
    let left = left.copy(alloc)?;
    Ok(Pair { left, right })
}

/// Keeps the left row, beside a right one where there is one, if the tests do. Only then are the rows copied.
pub(crate) fn keep(
    alloc: Global,
    tests: &[Expr],
    left: &RowImage,
    right: Option<&RowImage>,
    kept: &mut Vec<Pair>,
) -> Result<(), ExecFault>
    ensures { Gives fault.NoMemory (λ _. kept.new.items) result (kept_behind tests.now kept.old.items (pair_of left.now (option_copied right.entry) ∷ [])) }
{
    if !passes(tests, left.cells(), right_cells(right))? {
        return Ok(());
    }
    kept.push(pair_of(alloc, left, right)?)?;
    Ok(())
}

/// Keeps those of the rows that the tests do, each alone.
pub(crate) fn keep_alone(
    alloc: Global,
    tests: &[Expr],
    rows: &[&RowImage],
    kept: &mut Vec<Pair>,
) -> Result<(), ExecFault>
    ensures { Gives fault.NoMemory (λ _. kept.new.items) result (kept_behind tests.now kept.old.items (map alone (map (λ row. row.now) rows.now))) }
{
    for row in rows {
        keep(alloc, tests, row, None, kept)?;
    }
    Ok(())
}

/// Keeps the left row beside those of the right ones with which the tests do.
pub(crate) fn keep_beside(
    alloc: Global,
    tests: &[Expr],
    left: &RowImage,
    rights: &[&RowImage],
    kept: &mut Vec<Pair>,
) -> Result<(), ExecFault>
    ensures { Gives fault.NoMemory (λ _. kept.new.items) result (kept_behind tests.now kept.old.items (map (paired left.now) (map (λ row. row.now) rights.now))) }
{
    for right in rights {
        keep(alloc, tests, left, Some(right), kept)?;
    }
    Ok(())
}

/// Keeps the left row beside the right one that was found, if there is one and the tests do.
#[tactic(auto, using(crate::proofs::Kept::nothing))]
pub(crate) fn keep_found(
    alloc: Global,
    tests: &[Expr],
    left: &RowImage,
    found: Option<&RowImage>,
    kept: &mut Vec<Pair>,
) -> Result<(), ExecFault>
    ensures { Gives fault.NoMemory (λ _. kept.new.items) result (kept_behind tests.now kept.old.items (map (paired left.now) (listed (option_copied found.entry)))) }
{
    match found {
        Some(right) => keep(alloc, tests, left, Some(right), kept),
        None => Ok(()),
    }
}

/// Keeps those pairs of a left and a right row that the tests do.
pub(crate) fn keep_product(
    alloc: Global,
    tests: &[Expr],
    lefts: &[&RowImage],
    rights: &[&RowImage],
    kept: &mut Vec<Pair>,
) -> Result<(), ExecFault>
    ensures { Gives fault.NoMemory (λ _. kept.new.items) result (kept_behind tests.now kept.old.items (pairs_by (λ _. map (λ row. row.now) rights.now) (map (λ row. row.now) lefts.now))) }
{
    for left in lefts {
        keep_beside(alloc, tests, left, rights, kept)?;
    }
    Ok(())
}
