//! Ranges of keys and of indexes, by the tests of their columns.
ghost use Rattle.std.specs.Prelude.{◌≡◌, ◌++◌, ◌∷◌, [], length, IfOk};
ghost use Rattle.std.specs.Option.{option_copied, option_map};
ghost use Rattle.geo_base.specs.declared.cell.Cell.TheVariants as cells;
ghost use Rattle.sql_plan.specs.Plans as plans;
ghost use Rattle.sql_plan.specs.inner.Borrowed.{said_by, seen, usable};

use crate::tests::{ColumnTest, TableTests, TestKind, first_test};
use geo_base::{Cell, Duplicate, Many, NoMemory};
use geo_schema::{CellList, Edge, KeyRange};
use sql_expr::Test;
use std::alloc::Global;

/// The cell that the column is equal to, by its first equality.
pub(crate) fn equal_cell<'a>(tests: &TableTests<'a>, column: u8) -> Option<&'a Cell>
    ensures { option_copied result ≡ plans.equal_cell (usable tests.entry.now) column }
{
    match first_test(TestKind::Equality, tests, column) {
        Some(test) => Some(test.literal),
        None => None,
    }
}

/// How many of the leading columns have an equality.
#[tactic(auto, using(crate::proofs::Chosen::one_counted, crate::proofs::Chosen::not_counted, crate::proofs::Chosen::all_counted))]
pub(crate) fn fixed_count(tests: &TableTests, columns: &[u8]) -> usize
    ensures { result ≡ length (plans.fixed_cells (usable tests.entry.now) columns.now) }
{
    let mut count = 0;
    for column in columns {
        match equal_cell(tests, *column) {
            Some(_) => count += 1,
            None => return count,
        }
    }
    count
}

/// Copies of the cells that the leading columns are equal to, up to the first without an equality.
#[tactic(auto, using(crate::proofs::Chosen::one_fixed, crate::proofs::Chosen::not_fixed, crate::proofs::Chosen::all_fixed))]
pub(crate) fn fixed_cells(
    alloc: Global,
    tests: &TableTests,
    columns: &[u8],
) -> Result<Vec<Cell>, NoMemory>
    ensures { IfOk result (λ fixed. fixed.items ≡ plans.fixed_cells (usable tests.entry.now) columns.now) }
{
    let mut fixed = Vec::new(alloc);
    for column in columns {
        match equal_cell(tests, *column) {
            Some(cell) => fixed.push(cell.copy(alloc)?)?,
            None => return Ok(fixed),
        }
    }
    Ok(fixed)
}

/// The first test of the kind that the first column after the fixed ones has.
fn next_test<'a>(
    kind: TestKind,
    tests: &TableTests<'a>,
    columns: &[u8],
    fixed: usize,
) -> Option<ColumnTest<'a>>
    requires { fixed ≡ length (plans.fixed_cells (usable tests.now) columns.now) }
    ensures { option_map seen result ≡ plans.next_test (said_by kind) (usable tests.entry.now) columns.now }
{
    match columns.get(fixed) {
        Some(column) => first_test(kind, tests, *column),
        None => None,
    }
}

/// An edge by the fixed cells alone; where there is none, it is open.
fn fixed_edge(fixed: Vec<Cell>) -> Edge
    ensures { result ≡ plans.fixed_edge fixed.items }
{
    if fixed.is_empty() {
        Edge::Open
    } else {
        Edge::Incl(Many::new(fixed))
    }
}

/// The cells and a copy of one behind them.
fn with_cell(alloc: Global, cells: Vec<Cell>, last: &Cell) -> Result<CellList, NoMemory>
    ensures { IfOk result (λ all. all ≡ cells.items ++ last.now ∷ []) }
{
    let mut cells = cells;
    cells.push(last.copy(alloc)?)?;
    Ok(Many::new(cells))
}

/// An edge by the fixed cells and a test of the column after them.
fn tested_edge(alloc: Global, fixed: Vec<Cell>, test: &ColumnTest) -> Result<Edge, NoMemory>
    ensures { IfOk result (λ edge. edge ≡ plans.edge_of fixed.items (Some (seen test.entry.now))) }
{
    let cells = with_cell(alloc, fixed, test.literal)?;
    match test.test {
        Test::Less | Test::More => Ok(Edge::Excl(cells)),
        _ => Ok(Edge::Incl(cells)),
    }
}

/// An edge by the fixed cells, and by a test of the column after them where there is one.
fn edge_of(alloc: Global, fixed: Vec<Cell>, test: Option<ColumnTest>) -> Result<Edge, NoMemory>
    ensures { IfOk result (λ edge. edge ≡ plans.edge_of fixed.items (option_map seen test.entry)) }
{
    match test {
        Some(test) => tested_edge(alloc, fixed, &test),
        None => Ok(fixed_edge(fixed)),
    }
}

/// The low edge of an index's range, which leaves NULL out where there is an upper test and no lower one.
fn index_low(
    alloc: Global,
    fixed: Vec<Cell>,
    lower: Option<ColumnTest>,
    upper: Option<ColumnTest>,
) -> Result<Edge, NoMemory>
    ensures { IfOk result (λ edge. edge ≡ plans.index_low fixed.items (option_map seen lower.entry) (option_map seen upper.entry)) }
{
    if lower.is_none() && upper.is_some() {
        let null = Cell::Null;
        return Ok(Edge::Excl(with_cell(alloc, fixed, &null)?));
    }
    edge_of(alloc, fixed, lower)
}

/// The range of a key: its leading columns are fixed, and the first after them has its first lower and its first
/// upper test.
pub(crate) fn key_range_of(
    alloc: Global,
    tests: &TableTests,
    columns: &[u8],
) -> Result<KeyRange, NoMemory>
    ensures { IfOk result (λ range. range ≡ plans.key_range_of (usable tests.entry.now) columns.now) }
{
    let fixed = fixed_count(tests, columns);
    let lower = next_test(TestKind::Lower, tests, columns, fixed);
    let upper = next_test(TestKind::Upper, tests, columns, fixed);
    let low = edge_of(alloc, fixed_cells(alloc, tests, columns)?, lower)?;
    let high = edge_of(alloc, fixed_cells(alloc, tests, columns)?, upper)?;
    Ok(KeyRange { low, high })
}

/// The range of an index, made as that of a key but for NULL.
pub(crate) fn index_range_of(
    alloc: Global,
    tests: &TableTests,
    columns: &[u8],
) -> Result<KeyRange, NoMemory>
    ensures { IfOk result (λ range. range ≡ plans.index_range_of (usable tests.entry.now) columns.now) }
{
    let fixed = fixed_count(tests, columns);
    let lower = next_test(TestKind::Lower, tests, columns, fixed);
    let upper = next_test(TestKind::Upper, tests, columns, fixed);
    let low = index_low(alloc, fixed_cells(alloc, tests, columns)?, lower, upper)?;
    let high = edge_of(alloc, fixed_cells(alloc, tests, columns)?, upper)?;
    Ok(KeyRange { low, high })
}
