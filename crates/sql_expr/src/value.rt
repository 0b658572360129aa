//! Values on the way, whose texts are borrowed.
ghost use Rattle.std.specs.Prelude.{◌≡◌, ◌++◌, IfOk, MatchOption, slice_index_or};
ghost use Rattle.geo_base.specs.Cells.{is_null};
ghost use Rattle.geo_base.specs.Order.{kind_of};
ghost use Rattle.geo_base.specs.declared.cell.Cell.TheVariants.{Null};
ghost use Rattle.sql_expr.specs.inner.Borrowed.{cell_of};

use geo_base::{Cell, Duplicate, NoMemory, Txt};
use std::alloc::Global;

/// A cell whose text, if it is one, stands in the row or in the expression.
#[derive(Clone, Copy)]
pub(crate) enum Value<'a> {
    Null,
    Int(i64),
    Text(&'a Txt),
    Truth(bool),
}

/// The cell's value, with its text borrowed.
pub(crate) fn borrow_cell<'a>(cell: &'a Cell) -> Value<'a>
    ensures { cell_of result ≡ cell.now }
{
    match cell {
        Cell::Null => Value::Null,
        Cell::Int(number) => Value::Int(*number),
        Cell::Text(text) => Value::Text(text),
        Cell::Truth(truth) => Value::Truth(*truth),
    }
}

/// The cell of a column, numbered through the left cells and then the right ones. There is none behind them.
#[inline(always)]
pub(crate) fn cell_at<'a>(place: u16, left: &'a [Cell], right: &'a [Cell]) -> Option<&'a Cell>
    ensures { MatchOption result (slice_index_or (left.now ++ right.now) place Null ≡ Null) (λ c. slice_index_or (left.now ++ right.now) place Null ≡ c.now) }
{
    let place = place as usize;
    if place < left.len() {
        left.get(place)
    } else {
        right.get(place - left.len())
    }
}

/// The value of a column, which is NULL behind the cells.
#[inline(always)]
pub(crate) fn column<'a>(place: u16, left: &'a [Cell], right: &'a [Cell]) -> Value<'a>
    ensures { cell_of result ≡ slice_index_or (left.now ++ right.now) place Null }
{
    match cell_at(place, left, right) {
        Some(cell) => borrow_cell(cell),
        None => Value::Null,
    }
}

/// The value as a cell, with a copy of its text.
pub(crate) fn copy_value(alloc: Global, value: Value) -> Result<Cell, NoMemory>
    ensures { IfOk result (λ c. c ≡ cell_of value.entry) }
{
    match value {
        Value::Null => Ok(Cell::Null),
        Value::Int(number) => Ok(Cell::Int(number)),
        Value::Text(text) => Ok(Cell::Text(text.copy(alloc)?)),
        Value::Truth(truth) => Ok(Cell::Truth(truth)),
    }
}

/// Whether the value is NULL.
pub(crate) fn is_null(value: Value) -> bool
    ensures { result ≡ is_null (cell_of value.entry) }
{
    matches!(value, Value::Null)
}

/// The place of the value's kind in the order of cells.
pub(crate) fn kind(value: Value) -> u8
    ensures { result ≡ kind_of (cell_of value.entry) }
{
    match value {
        Value::Null => 0,
        Value::Int(_) => 1,
        Value::Text(_) => 2,
        Value::Truth(_) => 3,
    }
}
