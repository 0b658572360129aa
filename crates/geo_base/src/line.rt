ghost use Rattle.std.specs.Prelude.{◌≡◌, MatchResult};
ghost use Rattle.std.specs.Cmp.{partial_equiv_from_equiv, partial_order_from_agreeing_total};
ghost use Rattle.std.specs.Ordering.{as_partial_cmp};
ghost use Rattle.std.proofs.Common.{refl};
ghost use Rattle.geo_base.specs.Cells.{IsLine};
ghost use Rattle.geo_base.specs.Order.{cells_cmp, cells_eq};
ghost use Rattle.geo_base.specs.laws.Orders.{cells_cmp_total, cells_eq_equiv, cells_eq_ties};

use crate::cell::Cell;
use crate::duplicate::{Duplicate, NoMemory, copy_items};
use crate::limits::MAX_LINE_CELLS;
use crate::row_image::WrongCount;
use std::alloc::Global;
use std::cmp::Ordering;
use std::marker::Model;

/// The cells of a line of an answer: 1 to [`MAX_LINE_CELLS`], ordered cell by cell.
#[derive(Debug, Drop)]
pub struct Line {
    cells: Vec<Cell>,
}

impl Model for Line {
    ghost use Rattle.std.specs.Prelude.{List};
    ghost use Rattle.geo_base.specs.declared.cell.Cell.{Cell};
    ghost use Rattle.geo_base.specs.Cells.{IsLine};

    ghost Value = { List Cell };

    ghost view = { λ a. a.cells.items };

    ghost invariant = { λ a. IsLine a.cells.items };
}

impl Line {
    /// The line of these cells. [`WrongCount`] where there is none, or more than [`MAX_LINE_CELLS`].
    pub fn new(cells: Vec<Cell>) -> Result<Line, WrongCount>
        ensures { MatchResult result (λ line. (line ≡ cells.items) × IsLine cells.items) (λ _. ¬ (IsLine cells.items)) }
    {
        if cells.is_empty() || cells.len() > MAX_LINE_CELLS {
            return Err(WrongCount);
        }
        Ok(Line { cells })
    }

    /// The cells, in the line's order.
    pub fn cells(&self) -> &[Cell]
        ensures value { result.now ≡ self.now }
        ensures count { IsLine self.now }
    {
        self.cells.as_slice()
    }
}

impl Duplicate for Line {
    fn copy(&self, alloc: Global) -> Result<Line, NoMemory> {
        let cells = copy_items(alloc, self.cells.as_slice())?;
        Ok(Line { cells })
    }
}

impl PartialEq for Line {
    ghost eq = { cells_eq };

    ghost laws = { partial_equiv_from_equiv cells_eq_equiv };

    fn eq(&self, other: &Line) -> bool {
        self.cells.as_slice() == other.cells.as_slice()
    }
}

impl Eq for Line {
    ghost laws = { cells_eq_equiv };
}

impl PartialOrd for Line {
    ghost partial_cmp = { as_partial_cmp cells_cmp };

    ghost laws = { partial_order_from_agreeing_total cells_cmp cells_cmp_total (λ x y. refl) cells_eq_ties };

    fn partial_cmp(&self, other: &Line) -> Option<Ordering> {
        Some(self.cmp(other))
    }
}

impl Ord for Line {
    ghost cmp = { cells_cmp };

    ghost total = { cells_cmp_total };

    ghost matches_partial_cmp = { λ x y. refl };

    ghost matches_eq = { cells_eq_ties };

    fn cmp(&self, other: &Line) -> Ordering {
        self.cells.as_slice().cmp(&other.cells.as_slice())
    }
}
