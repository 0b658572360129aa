ghost use Rattle.std.specs.Prelude.{◌≡◌};
ghost use Rattle.std.specs.Cmp.{partial_equiv_from_equiv, partial_order_from_agreeing_total};
ghost use Rattle.std.specs.Hash.{same_Alike};
ghost use Rattle.std.specs.Ordering.{as_partial_cmp};
ghost use Rattle.std.proofs.Common.{refl};
ghost use Rattle.std.proofs.lemmas.Cmp.{eq_by_cmp_equiv};
ghost use Rattle.geo_base.specs.Cells.{is_null, has_type};
ghost use Rattle.geo_base.specs.inner.Hashed.{cell_writes};
ghost use Rattle.geo_base.specs.Order.{kind_of, cell_cmp, cell_eq};
ghost use Rattle.geo_base.specs.laws.Orders.{cell_cmp_total, cell_eq_decides};

use crate::cell_type::CellType;
use crate::duplicate::{Duplicate, NoMemory};
use crate::txt::Txt;
use std::alloc::Global;
use std::cmp::Ordering;
use std::hash::{Hash, Hasher};

/// One value of a row. The order is Null, Int, Text, Truth: numbers by value, texts by bytes, and
/// false before true.
#[derive(Debug, Drop)]
pub enum Cell {
    Null,
    Int(i64),
    Text(Txt),
    Truth(bool),
}

impl Cell {
    /// Whether the cell is NULL.
    pub fn is_null(&self) -> bool
        ensures { result ≡ is_null self.now }
    {
        matches!(self, Cell::Null)
    }

    /// Whether the cell is of the type. NULL is of every type.
    pub fn has_type(&self, of: CellType) -> bool
        ensures { result ≡ has_type of self.now }
    {
        match (of, self) {
            (_, Cell::Null) => true,
            (CellType::Int, Cell::Int(_)) => true,
            (CellType::Text, Cell::Text(_)) => true,
            (CellType::Truth, Cell::Truth(_)) => true,
            _ => false,
        }
    }

    fn kind(&self) -> u8
        ensures { result ≡ kind_of self.now }
    {
        match self {
            Cell::Null => 0,
            Cell::Int(_) => 1,
            Cell::Text(_) => 2,
            Cell::Truth(_) => 3,
        }
    }
}

impl Duplicate for Cell {
    fn copy(&self, alloc: Global) -> Result<Cell, NoMemory> {
        match self {
            Cell::Null => Ok(Cell::Null),
            Cell::Int(number) => Ok(Cell::Int(*number)),
            Cell::Text(text) => Ok(Cell::Text(text.copy(alloc)?)),
            Cell::Truth(truth) => Ok(Cell::Truth(*truth)),
        }
    }
}

impl PartialEq for Cell {
    ghost eq = { cell_eq };

    ghost laws = { partial_equiv_from_equiv (eq_by_cmp_equiv cell_cmp_total) };

    fn eq(&self, other: &Cell) -> bool {
        self.cmp(other).is_eq()
    }
}

impl Eq for Cell {
    ghost laws = { eq_by_cmp_equiv cell_cmp_total };
}

impl PartialOrd for Cell {
    ghost partial_cmp = { as_partial_cmp cell_cmp };

    ghost laws = { partial_order_from_agreeing_total cell_cmp cell_cmp_total (λ x y. refl) (λ x y. refl) };

    fn partial_cmp(&self, other: &Cell) -> Option<Ordering> {
        Some(self.cmp(other))
    }
}

impl Ord for Cell {
    ghost cmp = { cell_cmp };

    ghost total = { cell_cmp_total };

    ghost matches_partial_cmp = { λ x y. refl };

    ghost matches_eq = { λ x y. refl };

    fn cmp(&self, other: &Cell) -> Ordering {
        match (self, other) {
            (Cell::Int(a), Cell::Int(b)) => a.cmp(b),
            (Cell::Text(a), Cell::Text(b)) => a.cmp(b),
            (Cell::Truth(a), Cell::Truth(b)) => a.cmp(b),
            _ => self.kind().cmp(&other.kind()),
        }
    }
}

impl Hash for Cell {
    ghost hash_input = { cell_writes };

    ghost respects_eq = { (same_Alike cell_writes cell_eq_decides).fed };

    fn hash<H: Hasher>(&self, state: &mut H) {
        state.write_u8(self.kind());
        match self {
            Cell::Null => {}
            Cell::Int(number) => number.hash(state),
            Cell::Text(text) => text.hash(state),
            Cell::Truth(truth) => truth.hash(state),
        }
    }
}
