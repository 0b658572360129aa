//! Expressions.
ghost use Rattle.std.specs.Prelude.{◌≡◌, IfOk};

use geo_base::{Cell, Duplicate, NoMemory, Txt};
use sqlite_items::Boxed;
use std::alloc::Global;

/// An operator with an operand on either side.
#[derive(Clone, Copy, Debug, PartialEq, Eq)]
pub enum AstOp {
    Plus,
    Minus,
    Times,
    Divide,
    Equal,
    Differ,
    Less,
    LessEqual,
    More,
    MoreEqual,
    And,
    Or,
}

/// A column, with the name of its table where that is written.
#[derive(Debug, Drop)]
pub struct ColRef {
    pub table: Option<Txt>,
    pub name: Txt,
}

/// An expression.
#[derive(Drop)]
pub enum Ast {
    /// A literal. A number below zero is one too.
    Lit(Cell),
    Column(ColRef),
    /// A minus sign before anything but an integer.
    Neg(Boxed<Ast>),
    Not(Boxed<Ast>),
    Binary(AstOp, Boxed<Ast>, Boxed<Ast>),
    /// IS NULL, and where the flag is true IS NOT NULL.
    IsNull(Boxed<Ast>, bool),
}

/// A copy of a name that may be missing.
pub(crate) fn copy_name(alloc: Global, name: &Option<Txt>) -> Result<Option<Txt>, NoMemory>
    ensures { IfOk result (λ c. c ≡ name.now) }
{
    match name {
        None => Ok(None),
        Some(name) => Ok(Some(name.copy(alloc)?)),
    }
}

/// A copy of an expression that may be missing.
pub(crate) fn copy_filter(alloc: Global, filter: &Option<Ast>) -> Result<Option<Ast>, NoMemory>
    ensures { IfOk result (λ c. c ≡ filter.now) }
{
    match filter {
        None => Ok(None),
        Some(filter) => Ok(Some(filter.copy(alloc)?)),
    }
}

impl Duplicate for ColRef {
    fn copy(&self, alloc: Global) -> Result<ColRef, NoMemory> {
        Ok(ColRef {
            table: copy_name(alloc, &self.table)?,
            name: self.name.copy(alloc)?,
        })
    }
}

// A copy of an expression and of all below it.
fn copy_expression(alloc: Global, expression: &Ast) -> Result<Ast, NoMemory>
    ensures { IfOk result (λ c. c ≡ expression.now) }
{
    match expression {
        Ast::Lit(cell) => Ok(Ast::Lit(cell.copy(alloc)?)),
        Ast::Column(column) => Ok(Ast::Column(column.copy(alloc)?)),
        Ast::Neg(a) => {
            let a = copy_expression(alloc, a.get())?;
            Ok(Ast::Neg(Boxed::new(alloc, a)?))
        }
        Ast::Not(a) => {
            let a = copy_expression(alloc, a.get())?;
            Ok(Ast::Not(Boxed::new(alloc, a)?))
        }
        Ast::Binary(op, a, b) => {
            let a = copy_expression(alloc, a.get())?;
            let b = copy_expression(alloc, b.get())?;
            Ok(Ast::Binary(*op, Boxed::new(alloc, a)?, Boxed::new(alloc, b)?))
        }
        Ast::IsNull(a, is_not) => {
            let a = copy_expression(alloc, a.get())?;
            Ok(Ast::IsNull(Boxed::new(alloc, a)?, *is_not))
        }
    }
}

impl Duplicate for Ast {
    fn copy(&self, alloc: Global) -> Result<Ast, NoMemory> {
        copy_expression(alloc, self)
    }
}
