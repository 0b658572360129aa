//! Expressions as trees.
ghost use Rattle.std.specs.Prelude.{◌≡◌, IfOk};

use geo_base::{Cell, Duplicate, NoMemory};
use sqlite_items::Boxed;
use std::alloc::Global;

/// An operator on two numbers.
#[derive(Clone, Copy, Debug, PartialEq, Eq)]
pub enum Op {
    Plus,
    Minus,
    Times,
    /// Rounds toward zero.
    Divide,
}

/// A test of two cells by their order.
#[derive(Clone, Copy, Debug, PartialEq, Eq)]
pub enum Test {
    Equal,
    Differ,
    Less,
    LessEqual,
    More,
    MoreEqual,
}

/// An expression over the cells of a row.
#[derive(Drop)]
pub enum Expr {
    Lit(Cell),
    /// A cell by its number, where those of the left table come first and then those of the right one, and
    /// NULL behind them.
    Col(u16),
    Neg(Boxed<Expr>),
    Not(Boxed<Expr>),
    Arith(Op, Boxed<Expr>, Boxed<Expr>),
    Cmp(Test, Boxed<Expr>, Boxed<Expr>),
    And(Boxed<Expr>, Boxed<Expr>),
    Or(Boxed<Expr>, Boxed<Expr>),
    /// IS NULL, and where the flag is true IS NOT NULL.
    IsNull(Boxed<Expr>, bool),
}

// A copy of an expression and of all below it.
#[cycle(copying)]
fn copy_expression(alloc: Global, expr: &Expr) -> Result<Expr, NoMemory>
    ensures { IfOk result (λ c. c ≡ expr.now) }
{
    match expr {
        Expr::Lit(cell) => Ok(Expr::Lit(cell.copy(alloc)?)),
        Expr::Col(place) => Ok(Expr::Col(*place)),
        Expr::Neg(a) => Ok(Expr::Neg(copy_boxed(alloc, a)?)),
        Expr::Not(a) => Ok(Expr::Not(copy_boxed(alloc, a)?)),
        Expr::Arith(op, a, b) => {
            let a = copy_boxed(alloc, a)?;
            Ok(Expr::Arith(*op, a, copy_boxed(alloc, b)?))
        }
        Expr::Cmp(test, a, b) => {
            let a = copy_boxed(alloc, a)?;
            Ok(Expr::Cmp(*test, a, copy_boxed(alloc, b)?))
        }
        Expr::And(a, b) => {
            let a = copy_boxed(alloc, a)?;
            Ok(Expr::And(a, copy_boxed(alloc, b)?))
        }
        Expr::Or(a, b) => {
            let a = copy_boxed(alloc, a)?;
            Ok(Expr::Or(a, copy_boxed(alloc, b)?))
        }
        Expr::IsNull(a, is_not) => Ok(Expr::IsNull(copy_boxed(alloc, a)?, *is_not)),
    }
}

// A copy of an operand.
#[cycle(copying)]
fn copy_boxed(alloc: Global, operand: &Boxed<Expr>) -> Result<Boxed<Expr>, NoMemory>
    ensures { IfOk result (λ c. c ≡ operand.now) }
{
    let copy = copy_expression(alloc, operand.get())?;
    Ok(Boxed::new(alloc, copy)?)
}

impl Duplicate for Expr {
    fn copy(&self, alloc: Global) -> Result<Expr, NoMemory> {
        copy_expression(alloc, self)
    }
}
