//! What a query answers of the one row that a point reaches. It takes no memory beside its lines.
ghost use Rattle.std.specs.Prelude.{◌≡◌, ◌+◌, ◌≤◌, true, [], ◌∷◌, filter, length};
ghost use Rattle.std.specs.List.{All};
ghost use Rattle.std.specs.Option.{option_copied};
ghost use Rattle.geo_base.specs.Order.{row_eq};
ghost use Rattle.geo_base.specs.Results.{Gives};
ghost use Rattle.geo_base.specs.declared.limits.TheConstants.{MAX_LINE_CELLS};
ghost use Rattle.row_source.specs.Sources.{images, listed};
ghost use Rattle.row_source.specs.declared.fault.ExecFault.TheVariants as fault;
ghost use Rattle.sql_bind.specs.Sound.{is_plain};
ghost use Rattle.sql_exec.specs.inner.Plain.{plain_answer};

use crate::keeping::is_kept;
use crate::lines::{LineList, limited_lines};
use geo_base::{RowId, RowImage};
use row_source::{ExecFault, RowSource, Steps, names_are_of_one_row};
use sql_bind::BoundSelect;
use std::alloc::Global;
use std::sync::ledger::Ledger;

/// The line of the row, where the tests keep it, and else none.
#[tactic(auto, using(crate::proofs::Pointed::kept_one, crate::proofs::Pointed::dropped_one, crate::proofs::Pointed::fault_of_one))]
fn answer_of_one(alloc: Global, query: &BoundSelect, row: &RowImage) -> Result<LineList, ExecFault>
    requires some { 1 ≤ length query.now.items }
    requires few { length query.now.items ≤ MAX_LINE_CELLS }
    requires plain { All (λ i. is_plain i ≡ true) query.now.items }
    ensures { Gives fault.NoMemory (λ l. l) result (plain_answer query.now.items query.now.limit query.now.tests (row.now ∷ [])) }
{
    if is_kept(query.tests.items(), row.cells())? {
        limited_lines(alloc, query.items.items(), query.limit, &[row])
    } else {
        limited_lines(alloc, query.items.items(), query.limit, &[])
    }
}

/// The line of the row, if there is one.
#[tactic(auto, using(crate::proofs::Pointed::no_row))]
fn answer_of_found(
    alloc: Global,
    query: &BoundSelect,
    found: Option<&RowImage>,
) -> Result<LineList, ExecFault>
    requires some { 1 ≤ length query.now.items }
    requires few { length query.now.items ≤ MAX_LINE_CELLS }
    requires plain { All (λ i. is_plain i ≡ true) query.now.items }
    ensures { Gives fault.NoMemory (λ l. l) result (plain_answer query.now.items query.now.limit query.now.tests (listed (option_copied found.entry))) }
{
    match found {
        Some(row) => answer_of_one(alloc, query, row),
        None => limited_lines(alloc, query.items.items(), query.limit, &[]),
    }
}

/// What a query answers of the row with the name.
pub(crate) fn answer_of_named<R: RowSource, L: Ledger>(
    alloc: Global,
    query: &BoundSelect,
    source: &R,
    row: &RowId,
    steps: &mut Steps<L>,
) -> Result<LineList, ExecFault>
    requires some { 1 ≤ length query.now.items }
    requires few { length query.now.items ≤ MAX_LINE_CELLS }
    requires plain { All (λ i. is_plain i ≡ true) query.now.items }
    ensures answer { Gives fault.NoMemory (λ l. l) result (plain_answer query.now.items query.now.limit query.now.tests (images (filter (λ entry. row_eq row.now entry.0) (R.rows source.now)))) }
    ensures steps { steps.new ≤ steps.old + length (filter (λ entry. row_eq row.now entry.0) (R.rows source.now)) }
{
    names_are_of_one_row();
    let found = source.get(row, steps);
    answer_of_found(alloc, query, found)
}
