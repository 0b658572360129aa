//! Bound expressions and their types.
ghost use Rattle.std.specs.Prelude.{◌≡◌};
ghost use Rattle.geo_base.specs.Results.{Gives};
ghost use Rattle.sql_bind.specs.Expressions as spec;

use crate::fault::BindFault;
use crate::names::column_meant;
use crate::scope::Scope;
use geo_base::{Cell, Duplicate};
use geo_schema::Schema;
use sql_ast::{Ast, AstOp, ColRef};
use sql_expr::{
    Expr, Op, Test, ValueType, compared_operands, literal_type, one_operand, takes, two_operands,
};
use sqlite_items::Boxed;
use std::alloc::Global;

/// An expression and its type.
#[derive(Drop)]
pub(crate) struct Typed {
    pub(crate) expr: Boxed<Expr>,
    pub(crate) value_type: ValueType,
}

fn of_type(alloc: Global, expr: Expr, value_type: ValueType) -> Result<Typed, BindFault>
    ensures { Gives BindFault.NoMemory (λ t. t) result (Ok (spec.typed expr value_type)) }
{
    let expr = Boxed::new(alloc, expr)?;
    Ok(Typed { expr, value_type })
}

/// An expression of the type that its operator gives, if it takes its operands.
fn operator(alloc: Global, value_type: Option<ValueType>, expr: Expr) -> Result<Typed, BindFault>
    ensures { Gives BindFault.NoMemory (λ t. t) result (spec.operator value_type expr) }
{
    let expr = Boxed::new(alloc, expr)?;
    match value_type {
        Some(value_type) => Ok(Typed { expr, value_type }),
        None => Err(BindFault::TypeClash),
    }
}

fn literal(alloc: Global, cell: &Cell) -> Result<Typed, BindFault>
    ensures { Gives BindFault.NoMemory (λ t. t) result (spec.literal cell.now) }
{
    of_type(alloc, Expr::Lit(cell.copy(alloc)?), literal_type(cell))
}

fn column(
    alloc: Global,
    schema: &Schema,
    scope: &Scope,
    column: &ColRef,
) -> Result<Typed, BindFault>
    ensures { Gives BindFault.NoMemory (λ t. t) result (spec.column schema.now scope.now column.now) }
{
    let found = column_meant(alloc, schema, scope, column)?;
    of_type(alloc, Expr::Col(found.place), found.value_type)
}

fn calculation(alloc: Global, op: Op, a: Typed, b: Typed) -> Result<Typed, BindFault>
    ensures { Gives BindFault.NoMemory (λ t. t) result (spec.calculation op a b) }
{
    let value_type = two_operands(ValueType::Int, a.value_type, b.value_type);
    operator(alloc, value_type, Expr::Arith(op, a.expr, b.expr))
}

fn compared(alloc: Global, test: Test, a: Typed, b: Typed) -> Result<Typed, BindFault>
    ensures { Gives BindFault.NoMemory (λ t. t) result (spec.compared test a b) }
{
    let value_type = compared_operands(a.value_type, b.value_type);
    operator(alloc, value_type, Expr::Cmp(test, a.expr, b.expr))
}

fn both(alloc: Global, a: Typed, b: Typed) -> Result<Typed, BindFault>
    ensures { Gives BindFault.NoMemory (λ t. t) result (spec.joined AstOp.And a b) }
{
    let value_type = two_operands(ValueType::Truth, a.value_type, b.value_type);
    operator(alloc, value_type, Expr::And(a.expr, b.expr))
}

fn either(alloc: Global, a: Typed, b: Typed) -> Result<Typed, BindFault>
    ensures { Gives BindFault.NoMemory (λ t. t) result (spec.joined AstOp.Or a b) }
{
    let value_type = two_operands(ValueType::Truth, a.value_type, b.value_type);
    operator(alloc, value_type, Expr::Or(a.expr, b.expr))
}

/// An operator between two bound operands.
fn joined(alloc: Global, op: AstOp, a: Typed, b: Typed) -> Result<Typed, BindFault>
    ensures { Gives BindFault.NoMemory (λ t. t) result (spec.joined op a b) }
{
    match op {
        AstOp::Plus => calculation(alloc, Op::Plus, a, b),
        AstOp::Minus => calculation(alloc, Op::Minus, a, b),
        AstOp::Times => calculation(alloc, Op::Times, a, b),
        AstOp::Divide => calculation(alloc, Op::Divide, a, b),
        AstOp::Equal => compared(alloc, Test::Equal, a, b),
        AstOp::Differ => compared(alloc, Test::Differ, a, b),
        AstOp::Less => compared(alloc, Test::Less, a, b),
        AstOp::LessEqual => compared(alloc, Test::LessEqual, a, b),
        AstOp::More => compared(alloc, Test::More, a, b),
        AstOp::MoreEqual => compared(alloc, Test::MoreEqual, a, b),
        AstOp::And => both(alloc, a, b),
        AstOp::Or => either(alloc, a, b),
    }
}

fn negated(alloc: Global, a: Typed) -> Result<Typed, BindFault>
    ensures { Gives BindFault.NoMemory (λ t. t) result (spec.negated a) }
{
    let value_type = one_operand(ValueType::Int, a.value_type);
    operator(alloc, value_type, Expr::Neg(a.expr))
}

fn denied(alloc: Global, a: Typed) -> Result<Typed, BindFault>
    ensures { Gives BindFault.NoMemory (λ t. t) result (spec.denied a) }
{
    let value_type = one_operand(ValueType::Truth, a.value_type);
    operator(alloc, value_type, Expr::Not(a.expr))
}

fn null_test(alloc: Global, a: Typed, is_not: bool) -> Result<Typed, BindFault>
    ensures { Gives BindFault.NoMemory (λ t. t) result (Ok (spec.null_test a is_not)) }
{
    of_type(alloc, Expr::IsNull(a.expr, is_not), ValueType::Truth)
}

/// An expression. The time is linear in it, where the names of a column's tables count for each column, and
/// the stack goes as deep as it.
#[tactic(auto, unfolding(crate::specs::Expressions::expression_of))]
fn expression_of(
    alloc: Global,
    schema: &Schema,
    scope: &Scope,
    ast: &Ast,
) -> Result<Typed, BindFault>
    ensures { Gives BindFault.NoMemory (λ t. t) result (spec.expression_of schema.now scope.now ast.now) }
{
    match ast {
        Ast::Lit(cell) => literal(alloc, cell),
        Ast::Column(name) => column(alloc, schema, scope, name),
        Ast::Neg(a) => {
            let a = expression_of(alloc, schema, scope, a.get())?;
            negated(alloc, a)
        }
        Ast::Not(a) => {
            let a = expression_of(alloc, schema, scope, a.get())?;
            denied(alloc, a)
        }
        Ast::Binary(op, a, b) => {
            let a = expression_of(alloc, schema, scope, a.get())?;
            let b = expression_of(alloc, schema, scope, b.get())?;
            joined(alloc, *op, a, b)
        }
        Ast::IsNull(a, is_not) => {
            let a = expression_of(alloc, schema, scope, a.get())?;
            null_test(alloc, a, *is_not)
        }
    }
}

/// An expression that has to be of the type, or of that of NULL.
#[tactic(auto, unfolding(crate::specs::Expressions::taken_by))]
pub(crate) fn taken_by(
    alloc: Global,
    wanted: ValueType,
    schema: &Schema,
    scope: &Scope,
    ast: &Ast,
) -> Result<Expr, BindFault>
    ensures { Gives BindFault.NoMemory (λ e. e) result (spec.taken_by wanted schema.now scope.now ast.now) }
{
    let bound = expression_of(alloc, schema, scope, ast)?;
    if !takes(wanted, bound.value_type) {
        return Err(BindFault::TypeClash);
    }
    Ok(bound.expr.into_inner())
}

/// An expression of any type.
#[tactic(auto, unfolding(crate::specs::Expressions::of_any_type))]
pub(crate) fn of_any_type(
    alloc: Global,
    schema: &Schema,
    scope: &Scope,
    ast: &Ast,
) -> Result<Expr, BindFault>
    ensures { Gives BindFault.NoMemory (λ e. e) result (spec.of_any_type schema.now scope.now ast.now) }
{
    let bound = expression_of(alloc, schema, scope, ast)?;
    Ok(bound.expr.into_inner())
}
