//! Which tests of a statement a plan may use.
ghost use Rattle.std.specs.Prelude.{◌≡◌, ◌<◌, false, length, position, IfSome};
ghost use Rattle.std.specs.List.{All, filter_map};
ghost use Rattle.std.specs.Option.{option_map};
ghost use Rattle.geo_base.specs.Cells.{is_null};
ghost use Rattle.sql_expr.specs.declared.expr.Expr.{out-Expr};
ghost use Rattle.sql_plan.specs.Plans.{first_test};
ghost use Rattle.sql_plan.specs.Tests as meant;
ghost use Rattle.sql_plan.specs.Tests.{tests_of};
ghost use Rattle.sql_plan.specs.inner.Borrowed.{said_by, seen, such, test_of, usable};

use geo_base::Cell;
use sql_expr::{Expr, Test};

/// A column that is compared with a literal.
#[derive(Clone, Copy)]
pub(crate) struct ColumnTest<'a> {
    /// Its place.
    pub column: u16,
    pub test: Test,
    pub literal: &'a Cell,
}

/// The usable tests of one table.
#[derive(Clone, Copy)]
pub(crate) struct TableTests<'a> {
    /// Those of these that test a column of the table are the usable ones.
    safe: &'a [Expr],
    /// The place of the table's first column.
    first: usize,
    /// How many columns it has.
    count: usize,
}

/// What a test says of its column.
#[derive(Clone, Copy)]
pub(crate) enum TestKind {
    /// It is equal to the literal.
    Equality,
    /// It is above the literal, or equal to it.
    Lower,
    /// It is below the literal, or equal to it.
    Upper,
}

/// Whether the expression has arithmetic or a minus sign. The stack goes as deep as it.
#[tactic(auto, unfolding(crate::specs::Tests::calculates))]
fn calculates(expr: &Expr) -> bool
    ensures { result ≡ meant.calculates expr.now }
{
    match expr {
        Expr::Lit(_) => false,
        Expr::Col(_) => false,
        Expr::Neg(_) => true,
        Expr::Not(a) => calculates(a.get()),
        Expr::Arith(_, _, _) => true,
        Expr::Cmp(_, a, b) => calculates(a.get()) || calculates(b.get()),
        Expr::And(a, b) => calculates(a.get()) || calculates(b.get()),
        Expr::Or(a, b) => calculates(a.get()) || calculates(b.get()),
        Expr::IsNull(a, _) => calculates(a.get()),
    }
}

/// The place of the first test that calculates.
fn first_calculating(tests: &[Expr]) -> Option<usize>
    ensures place { result ≡ position meant.calculates tests.now }
    ensures within { IfSome result (λ place. place < length tests.now) }
{
    tests.iter().position(|test| calculates(test))
}

/// The tests before the first that calculates.
#[tactic(auto, using(crate::proofs::Collected::safe_before, crate::proofs::Collected::safe_all))]
pub(crate) fn safe_tests(tests: &[Expr]) -> &[Expr]
    ensures { result.now ≡ meant.safe_tests tests.entry.now }
{
    match first_calculating(tests) {
        Some(place) => &tests[..place],
        None => tests,
    }
}

/// The test of the two sides turned round.
fn turned(test: Test) -> Test
    ensures { result ≡ meant.turned test }
{
    match test {
        Test::Equal => Test::Equal,
        Test::Differ => Test::Differ,
        Test::Less => Test::More,
        Test::LessEqual => Test::MoreEqual,
        Test::More => Test::Less,
        Test::MoreEqual => Test::LessEqual,
    }
}

/// A test of a column, if it is of use.
fn column_test<'a>(test: Test, column: u16, literal: &'a Cell) -> Option<ColumnTest<'a>>
    ensures { option_map seen result ≡ meant.column_test test column literal.entry.now }
{
    if matches!(test, Test::Differ) || literal.is_null() {
        return None;
    }
    Some(ColumnTest {
        column,
        test,
        literal,
    })
}

/// The usable test that the comparison of two sides is.
fn compared_column<'a>(test: Test, a: &'a Expr, b: &'a Expr) -> Option<ColumnTest<'a>>
    ensures { option_map seen result ≡ meant.compared_column test (out-Expr a.entry.now) (out-Expr b.entry.now) }
{
    match (a, b) {
        (Expr::Col(column), Expr::Lit(literal)) => column_test(test, *column, literal),
        (Expr::Lit(literal), Expr::Col(column)) => column_test(turned(test), *column, literal),
        _ => None,
    }
}

/// The usable test that an expression is.
fn column_test_in<'a>(expr: &'a Expr) -> Option<ColumnTest<'a>>
    ensures { option_map seen result ≡ meant.column_test_in (out-Expr expr.entry.now) }
{
    match expr {
        Expr::Cmp(test, a, b) => compared_column(*test, a.get(), b.get()),
        _ => None,
    }
}

/// The usable test that an expression is, where its column is one of so many from a first one on; the column is
/// counted from there.
fn test_of<'a>(expr: &'a Expr, first: usize, count: usize) -> Option<ColumnTest<'a>>
    ensures { option_map seen result ≡ test_of first count expr.entry.now }
{
    let test = column_test_in(expr)?;
    let column = usize::from(test.column);
    if column < first || count <= column - first {
        return None;
    }
    Some(ColumnTest {
        column: (column - first) as u16,
        test: test.test,
        literal: test.literal,
    })
}

/// The usable tests of the table whose columns are so many from a first one on. They are read where they stand each
/// time that one is looked for, so that they take no memory.
pub(crate) fn table_tests<'a>(tests: &'a [Expr], first: usize, count: usize) -> TableTests<'a>
    ensures tests { usable result ≡ tests_of first count (meant.column_tests tests.entry.now) }
    ensures whole { All (λ t. is_null t.literal ≡ false) (usable result) }
{
    TableTests {
        safe: safe_tests(tests),
        first,
        count,
    }
}

/// Whether a test says such a thing.
fn is_of(kind: TestKind, test: Test) -> bool
    ensures { result ≡ said_by kind test }
{
    match kind {
        TestKind::Equality => matches!(test, Test::Equal),
        TestKind::Lower => matches!(test, Test::More) || matches!(test, Test::MoreEqual),
        TestKind::Upper => matches!(test, Test::Less) || matches!(test, Test::LessEqual),
    }
}

/// The usable test of the table that an expression is, where it is one of the column and of the kind.
fn such_test<'a>(
    kind: TestKind,
    expr: &'a Expr,
    first: usize,
    count: usize,
    column: u16,
) -> Option<ColumnTest<'a>>
    ensures { option_map seen result ≡ such (said_by kind) column (test_of first count expr.entry.now) }
{
    let test = test_of(expr, first, count)?;
    if test.column == column && is_of(kind, test.test) {
        Some(test)
    } else {
        None
    }
}

/// The first of the usable tests of the table that is one of the column and of the kind.
#[tactic(auto, using(crate::proofs::Collected::not_first, crate::proofs::Collected::none_first))]
fn find_test<'a>(
    kind: TestKind,
    safe: &'a [Expr],
    first: usize,
    count: usize,
    column: u16,
) -> Option<ColumnTest<'a>>
    ensures { option_map seen result ≡ first_test (said_by kind) (filter_map (test_of first count) safe.entry.now) column }
{
    for test in safe {
        if let Some(test) = such_test(kind, test, first, count, column) {
            return Some(test);
        }
    }
    None
}

/// The first test of the column that is of the kind.
pub(crate) fn first_test<'a>(
    kind: TestKind,
    tests: &TableTests<'a>,
    column: u8,
) -> Option<ColumnTest<'a>>
    ensures { option_map seen result ≡ first_test (said_by kind) (usable tests.entry.now) column }
{
    find_test(
        kind,
        tests.safe,
        tests.first,
        tests.count,
        u16::from(column),
    )
}
