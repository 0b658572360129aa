//! Which columns of two tables the tests of a statement link.
ghost use Rattle.std.specs.Prelude.{◌≡◌, ◌<◌, ◌+◌, map, IfOk};
ghost use Rattle.std.specs.List.{filter_map};
ghost use Rattle.std.specs.Option.{option_map};
ghost use Rattle.sql_expr.specs.declared.expr.Expr.{out-Expr};
ghost use Rattle.sql_plan.specs.Tests as meant;
ghost use Rattle.sql_plan.specs.inner.Borrowed.{seen_link};

use crate::collecting::push_some;
use crate::tests::safe_tests;
use geo_base::NoMemory;
use sql_expr::{Expr, Test};
use std::alloc::Global;

/// Two columns that are equal, each by its place in its table.
#[derive(Clone, Copy)]
pub(crate) struct Link {
    pub left: u16,
    pub right: u16,
}

/// The link that two columns make, if one is of the left table and one of the right table, which have so many.
fn link_of(lefts: usize, rights: usize, a: u16, b: u16) -> Option<Link>
    requires { lefts + rights < 65536 }
    ensures { option_map seen_link result ≡ meant.link_of lefts rights a b }
{
    let (x, y) = (usize::from(a), usize::from(b));
    if x < lefts && lefts <= y && y < lefts + rights {
        return Some(Link {
            left: a,
            right: (y - lefts) as u16,
        });
    }
    if y < lefts && lefts <= x && x < lefts + rights {
        return Some(Link {
            left: b,
            right: (x - lefts) as u16,
        });
    }
    None
}

/// The link that the comparison of two sides is.
fn compared_columns(lefts: usize, rights: usize, test: Test, a: &Expr, b: &Expr) -> Option<Link>
    requires { lefts + rights < 65536 }
    ensures { option_map seen_link result ≡ meant.compared_columns lefts rights test (out-Expr a.now) (out-Expr b.now) }
{
    match (test, a, b) {
        (Test::Equal, Expr::Col(a), Expr::Col(b)) => link_of(lefts, rights, *a, *b),
        _ => None,
    }
}

/// The link that an expression is.
fn link_in(lefts: usize, rights: usize, expr: &Expr) -> Option<Link>
    requires { lefts + rights < 65536 }
    ensures { option_map seen_link result ≡ meant.link_in lefts rights (out-Expr expr.now) }
{
    match expr {
        Expr::Cmp(test, a, b) => compared_columns(lefts, rights, *test, a.get(), b.get()),
        _ => None,
    }
}

/// The links that the expressions are.
#[tactic(auto, using(crate::proofs::Collected::one_more))]
fn links_in(
    alloc: Global,
    safe: &[Expr],
    lefts: usize,
    rights: usize,
) -> Result<Vec<Link>, NoMemory>
    requires { lefts + rights < 65536 }
    ensures { IfOk result (λ found. map seen_link found.items ≡ filter_map (λ e. meant.link_in lefts rights (out-Expr e)) safe.now) }
{
    let mut found = Vec::new(alloc);
    for test in safe {
        push_some(&mut found, link_in(lefts, rights, test))?;
    }
    Ok(found)
}

/// The usable links of two tables, which have so many columns, in their order.
#[tactic(auto, unfolding(crate::specs::Tests::links_of))]
pub(crate) fn links_of(
    alloc: Global,
    tests: &[Expr],
    lefts: usize,
    rights: usize,
) -> Result<Vec<Link>, NoMemory>
    requires { lefts + rights < 65536 }
    ensures { IfOk result (λ found. map seen_link found.items ≡ meant.links_of lefts rights tests.now) }
{
    Ok(links_in(alloc, safe_tests(tests), lefts, rights)?)
}
