//! Pairs of rows with equal cells, by a hash table of the right ones.
ghost use Rattle.std.specs.Prelude.{◌≡◌, ◌++◌, [], ◌∷◌, map, if◌then◌else◌, IfOk, OnOk};
ghost use Rattle.geo_base.specs.Order.{cell_eq};
ghost use Rattle.geo_base.specs.Results.{Gives};
ghost use Rattle.geo_base.specs.declared.cell.Cell.{Cell};
ghost use Rattle.geo_base.specs.declared.cell.Cell.TheVariants as cell;
ghost use Rattle.join_exec.specs.inner.Kept.{kept_behind, pairs_by};
ghost use Rattle.join_exec.specs.inner.Linked.{linked, rows_at};
ghost use Rattle.row_source.specs.Handing as handing;
ghost use Rattle.row_source.specs.declared.fault.ExecFault.TheVariants as fault;

use crate::keeping::keep_beside;
use geo_base::{Cell, NoMemory, RowImage};
use row_source::{ExecFault, Pair};
use sql_expr::Expr;
use std::alloc::Global;
use std::collections::HashMap;

/// Right rows by their cell in the column of a link, those of one cell in the order of their keys.
type Links<'a> = HashMap<&'a Cell, Vec<&'a RowImage>>;

/// The cell in a column, and what stands for NULL behind the last one.
fn cell_at<'a>(cells: &'a [Cell], column: u16, null: &'a Cell) -> &'a Cell
    requires { null.now ≡ cell.Null }
    ensures { result.now ≡ handing.cell_at cells.now column }
{
    match cells.get(usize::from(column)) {
        Some(cell) => cell,
        None => null,
    }
}

/// Adds the row behind those with the same cell.
fn add_at<'a>(
    alloc: Global,
    links: &mut Links<'a>,
    cell: &'a Cell,
    row: &'a RowImage,
) -> Result<(), NoMemory>
    ensures { OnOk result ((c : Cell) → rows_at (λ k. k.now) (λ v. map (λ r. r.now) v.items) links.new.entries c ≡ rows_at (λ k. k.now) (λ v. map (λ r. r.now) v.items) links.old.entries c ++ (if cell_eq c cell.now then row.now ∷ [] else [])) }
{
    if let Some(rows) = links.get_mut(&cell) {
        rows.push(row)?;
        return Ok(());
    }
    let mut rows = Vec::new(alloc);
    rows.push(row)?;
    links.insert(cell, rows)?;
    Ok(())
}

/// Adds the row, unless its cell in the column is NULL, which is equal to nothing.
fn add_row<'a>(
    alloc: Global,
    links: &mut Links<'a>,
    row: &'a RowImage,
    column: u16,
) -> Result<(), NoMemory>
    ensures { OnOk result ((c : Cell) → rows_at (λ k. k.now) (λ v. map (λ r. r.now) v.items) links.new.entries c ≡ rows_at (λ k. k.now) (λ v. map (λ r. r.now) v.items) links.old.entries c ++ linked column c (row.now ∷ [])) }
{
    match row.cells().get(usize::from(column)) {
        Some(cell) if !cell.is_null() => add_at(alloc, links, cell, row),
        _ => Ok(()),
    }
}

/// The right rows by their cell in the column.
fn links_of<'a>(alloc: Global, rows: &[&'a RowImage], column: u16) -> Result<Links<'a>, NoMemory>
    ensures { IfOk result (λ links. (c : Cell) → rows_at (λ k. k.now) (λ v. map (λ r. r.now) v.items) links.entries c ≡ linked column c (map (λ r. r.now) rows.entry.now)) }
{
    let mut links = HashMap::new(alloc);
    for row in rows {
        add_row(alloc, &mut links, row, column)?;
    }
    Ok(links)
}

/// The right rows with the cell.
fn rows_with<'a>(links: &'a Links<'a>, cell: &'a Cell) -> &'a [&'a RowImage]
    ensures { map (λ r. r.now) result.now ≡ rows_at (λ k. k.now) (λ v. map (λ r. r.now) v.items) links.entry.now.entries cell.now }
{
    match links.get(&cell) {
        Some(rows) => rows.as_slice(),
        None => &[],
    }
}

/// Keeps each left row beside those right ones that have its cell in the column and with which the tests do.
fn keep_linked<'a>(
    alloc: Global,
    tests: &[Expr],
    lefts: &[&RowImage],
    column: u16,
    links: &Links<'a>,
    null: &Cell,
    kept: &mut Vec<Pair>,
) -> Result<(), ExecFault>
    requires { null.now ≡ cell.Null }
    ensures { Gives fault.NoMemory (λ _. kept.new.items) result (kept_behind tests.now kept.old.items (pairs_by (λ left. rows_at (λ k. k.now) (λ v. map (λ r. r.now) v.items) links.now.entries (handing.cell_at left column)) (map (λ row. row.now) lefts.now))) }
{
    for left in lefts {
        let rights = rows_with(&*links, cell_at(left.cells(), column, null));
        keep_beside(alloc, tests, left, rights, kept)?;
    }
    Ok(())
}

/// Keeps each left row beside those right ones whose cell is equal to its own and with which the tests do: in the order of left and
/// then right rows, whatever the order of the hash table. It takes a step for each left and each right row and for each pair with
/// equal cells.
pub(crate) fn keep_by_link(
    alloc: Global,
    tests: &[Expr],
    lefts: &[&RowImage],
    left_column: u16,
    rights: &[&RowImage],
    right_column: u16,
    kept: &mut Vec<Pair>,
) -> Result<(), ExecFault>
    ensures { Gives fault.NoMemory (λ _. kept.new.items) result (kept_behind tests.now kept.old.items (pairs_by (λ left. linked right_column (handing.cell_at left left_column) (map (λ row. row.now) rights.now)) (map (λ row. row.now) lefts.now))) }
{
    let null = Cell::Null;
    let links = links_of(alloc, rights, right_column)?;
    keep_linked(alloc, tests, lefts, left_column, &links, &null, kept)
}
