//! How the rows of one table are reached.
ghost use Rattle.std.specs.Prelude.{◌≡◌, ◌<◌, ◌||◌, None, false, length, position, IfOk, IfSome};
ghost use Rattle.std.specs.List.{All};
ghost use Rattle.std.specs.Option.{is_some};
ghost use Rattle.geo_base.specs.Cells.{is_null, key_fault};
ghost use Rattle.geo_schema.specs.Tables.{IsTable};
ghost use Rattle.row_source.specs.declared.plan.Access.TheVariants as access;
ghost use Rattle.sql_plan.specs.Plans as plans;
ghost use Rattle.sql_plan.specs.inner.Borrowed.{said_by, usable};

use crate::ranges::{equal_cell, fixed_cells, fixed_count, index_range_of, key_range_of};
use crate::tables::index_at;
use crate::tests::{TableTests, TestKind, first_test};
use geo_base::{Key, NoMemory};
use geo_schema::{IndexDef, TableDef};
use row_source::Access;
use std::alloc::Global;

/// Whether the column has an equality.
fn is_fixed(tests: &TableTests, column: u8) -> bool
    ensures { result ≡ plans.is_fixed (usable tests.entry.now) column }
{
    equal_cell(tests, column).is_some()
}

/// Whether the column has a test of the kind.
#[tactic(auto, using(crate::proofs::Collected::some_seen))]
fn has_test(kind: TestKind, tests: &TableTests, column: u8) -> bool
    ensures { result ≡ is_some (plans.first_test (said_by kind) (usable tests.entry.now) column) }
{
    first_test(kind, tests, column).is_some()
}

/// Whether the column has a lower or an upper test.
fn is_bounded(tests: &TableTests, column: u8) -> bool
    ensures { result ≡ plans.is_bounded (usable tests.entry.now) column }
{
    has_test(TestKind::Lower, tests, column) || has_test(TestKind::Upper, tests, column)
}

/// Whether the column has a test.
fn is_tested(tests: &TableTests, column: u8) -> bool
    ensures { result ≡ (plans.is_fixed (usable tests.entry.now) column || plans.is_bounded (usable tests.entry.now) column) }
{
    is_fixed(tests, column) || is_bounded(tests, column)
}

/// Whether the first of the columns has an equality.
fn begins_fixed(tests: &TableTests, columns: &[u8]) -> bool
    ensures { result ≡ plans.first_is (plans.is_fixed (usable tests.entry.now)) columns.now }
{
    match columns.first() {
        Some(column) => is_fixed(tests, *column),
        None => false,
    }
}

/// Whether the first of the columns has a lower or an upper test.
fn begins_bounded(tests: &TableTests, columns: &[u8]) -> bool
    ensures { result ≡ plans.first_is (plans.is_bounded (usable tests.entry.now)) columns.now }
{
    match columns.first() {
        Some(column) => is_bounded(tests, *column),
        None => false,
    }
}

/// Whether the first of the columns has a test.
fn begins_tested(tests: &TableTests, columns: &[u8]) -> bool
    ensures { result ≡ plans.first_is (λ column. plans.is_fixed (usable tests.entry.now) column || plans.is_bounded (usable tests.entry.now) column) columns.now }
{
    match columns.first() {
        Some(column) => is_tested(tests, *column),
        None => false,
    }
}

/// The place of the first index whose first column has an equality.
fn fixed_index(indexes: &[IndexDef], tests: &TableTests) -> Option<usize>
    ensures place { result ≡ position (λ index. plans.first_is (plans.is_fixed (usable tests.entry.now)) index.columns) indexes.now }
    ensures within { IfSome result (λ place. place < length indexes.now) }
{
    indexes
        .iter()
        .position(|index| begins_fixed(tests, index.columns.items()))
}

/// The place of the first index whose first column has a lower or an upper test.
fn bounded_index(indexes: &[IndexDef], tests: &TableTests) -> Option<usize>
    ensures place { result ≡ position (λ index. plans.first_is (plans.is_bounded (usable tests.entry.now)) index.columns) indexes.now }
    ensures within { IfSome result (λ place. place < length indexes.now) }
{
    indexes
        .iter()
        .position(|index| begins_bounded(tests, index.columns.items()))
}

/// The place of the index that is chosen.
fn index_choice(table: &TableDef, tests: &TableTests) -> Option<usize>
    ensures place { result ≡ plans.index_choice table.now (usable tests.entry.now) }
    ensures within { IfSome result (λ place. place < length table.now.indexes) }
{
    let indexes = table.indexes.items();
    match fixed_index(indexes, tests) {
        Some(place) => Some(place),
        None => bounded_index(indexes, tests),
    }
}

/// An index where one is chosen, and else all rows.
fn index_access(alloc: Global, table: &TableDef, tests: &TableTests) -> Result<Access, NoMemory>
    requires { length table.now.indexes < 256 }
    ensures { IfOk result (λ way. way ≡ plans.index_access table.now (usable tests.entry.now) (plans.index_choice table.now (usable tests.entry.now))) }
{
    match index_choice(table, tests) {
        Some(place) => {
            let index = index_at(table, place);
            let range = index_range_of(alloc, tests, index.columns.items())?;
            Ok(Access::Index(place as u8, range))
        }
        None => Ok(Access::Scan),
    }
}

/// The point of the cells that the columns of the key are equal to, each of which has an equality.
fn point(alloc: Global, tests: &TableTests, key: &[u8]) -> Result<Access, NoMemory>
    requires { key_fault (plans.fixed_cells (usable tests.now) key.now) ≡ None }
    ensures { IfOk result (λ way. way ≡ access.Point (plans.fixed_cells (usable tests.entry.now) key.now)) }
{
    match Key::new(fixed_cells(alloc, tests, key)?) {
        Ok(key) => Ok(Access::Point(key)),
        Err(_) => unreachable!(),
    }
}

/// The access to a table by its tests: the first that applies.
#[tactic(auto, unfolding(crate::specs::Plans::access_of))]
pub(crate) fn access_of(
    alloc: Global,
    table: &TableDef,
    tests: &TableTests,
) -> Result<Access, NoMemory>
    requires rules { IsTable table.now }
    requires whole { All (λ t. is_null t.literal ≡ false) (usable tests.now) }
    ensures { IfOk result (λ way. way ≡ plans.access_of table.now (usable tests.entry.now)) }
{
    let key = table.key.items();
    if fixed_count(tests, key) == key.len() {
        return point(alloc, tests, key);
    }
    if begins_tested(tests, key) {
        return Ok(Access::Range(key_range_of(alloc, tests, key)?));
    }
    index_access(alloc, table, tests)
}
