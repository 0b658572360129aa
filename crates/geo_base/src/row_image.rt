ghost use Rattle.std.specs.Prelude.{◌≡◌, MatchResult};
ghost use Rattle.std.specs.Cmp.{partial_equiv_from_equiv, partial_order_from_agreeing_total};
ghost use Rattle.std.specs.Ordering.{as_partial_cmp};
ghost use Rattle.std.proofs.Common.{refl};
ghost use Rattle.geo_base.specs.Cells.{IsRowImage};
ghost use Rattle.geo_base.specs.Order.{cells_cmp, cells_eq};
ghost use Rattle.geo_base.specs.laws.Orders.{cells_cmp_total, cells_eq_equiv, cells_eq_ties};

use crate::cell::Cell;
use crate::duplicate::{Duplicate, NoMemory, copy_items};
use crate::limits::MAX_ROW_CELLS;
use std::alloc::Global;
use std::cmp::Ordering;
use std::marker::Model;

/// The cells of a row: 1 to [`MAX_ROW_CELLS`], ordered cell by cell.
#[derive(Debug, Drop)]
pub struct RowImage {
    cells: Vec<Cell>,
}

impl Model for RowImage {
    ghost use Rattle.std.specs.Prelude.{List};
    ghost use Rattle.geo_base.specs.declared.cell.Cell.{Cell};
    ghost use Rattle.geo_base.specs.Cells.{IsRowImage};

    ghost Value = { List Cell };

    ghost view = { λ a. a.cells.items };

    ghost invariant = { λ a. IsRowImage a.cells.items };
}

/// There is no cell, or there are too many.
#[derive(Clone, Copy, Debug, PartialEq, Eq)]
pub struct WrongCount;

impl RowImage {
    /// The image of these cells. [`WrongCount`] where there is none, or more than [`MAX_ROW_CELLS`].
    pub fn new(cells: Vec<Cell>) -> Result<RowImage, WrongCount>
        ensures { MatchResult result (λ row. (row ≡ cells.items) × IsRowImage cells.items) (λ _. ¬ (IsRowImage cells.items)) }
    {
        if cells.is_empty() || cells.len() > MAX_ROW_CELLS {
            return Err(WrongCount);
        }
        Ok(RowImage { cells })
    }

    /// The cells, in the order of the columns.
    pub fn cells(&self) -> &[Cell]
        ensures value { result.now ≡ self.now }
        ensures count { IsRowImage self.now }
    {
        self.cells.as_slice()
    }
}

impl Duplicate for RowImage {
    fn copy(&self, alloc: Global) -> Result<RowImage, NoMemory> {
        let cells = copy_items(alloc, self.cells.as_slice())?;
        Ok(RowImage { cells })
    }
}

impl PartialEq for RowImage {
    ghost eq = { cells_eq };

    ghost laws = { partial_equiv_from_equiv cells_eq_equiv };

    fn eq(&self, other: &RowImage) -> bool {
        self.cells.as_slice() == other.cells.as_slice()
    }
}

impl Eq for RowImage {
    ghost laws = { cells_eq_equiv };
}

impl PartialOrd for RowImage {
    ghost partial_cmp = { as_partial_cmp cells_cmp };

    ghost laws = { partial_order_from_agreeing_total cells_cmp cells_cmp_total (λ x y. refl) cells_eq_ties };

    fn partial_cmp(&self, other: &RowImage) -> Option<Ordering> {
        Some(self.cmp(other))
    }
}

impl Ord for RowImage {
    ghost cmp = { cells_cmp };

    ghost total = { cells_cmp_total };

    ghost matches_partial_cmp = { λ x y. refl };

    ghost matches_eq = { cells_eq_ties };

    fn cmp(&self, other: &RowImage) -> Ordering {
        self.cells.as_slice().cmp(&other.cells.as_slice())
    }
}
