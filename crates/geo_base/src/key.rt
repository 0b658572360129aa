ghost use Rattle.std.specs.Prelude.{◌≡◌, ◌<◌, Some, None, length, position, IfSome, MatchResult};
ghost use Rattle.std.specs.Cmp.{partial_equiv_from_equiv, partial_order_from_agreeing_total};
ghost use Rattle.std.specs.Hash.{same_Alike};
ghost use Rattle.std.specs.Ordering.{as_partial_cmp};
ghost use Rattle.std.proofs.Common.{refl};
ghost use Rattle.geo_base.specs.Cells.{IsKey, is_null, key_fault};
ghost use Rattle.geo_base.specs.inner.Hashed.{cells_writes};
ghost use Rattle.geo_base.specs.Order.{cells_cmp, cells_eq};
ghost use Rattle.geo_base.specs.laws.Orders.{cells_cmp_total, cells_eq_decides, cells_eq_equiv, cells_eq_ties};

use crate::cell::Cell;
use crate::duplicate::{Duplicate, NoMemory, copy_items};
use crate::limits::MAX_KEY_CELLS;
use std::alloc::Global;
use std::cmp::Ordering;
use std::hash::{Hash, Hasher};
use std::marker::Model;

/// The cells that tell the rows of a table apart: 1 to [`MAX_KEY_CELLS`], none of which is NULL,
/// ordered cell by cell.
#[derive(Debug, Drop)]
pub struct Key {
    cells: Vec<Cell>,
}

impl Model for Key {
    ghost use Rattle.std.specs.Prelude.{List};
    ghost use Rattle.geo_base.specs.declared.cell.Cell.{Cell};
    ghost use Rattle.geo_base.specs.Cells.{IsKey};

    ghost Value = { List Cell };

    ghost view = { λ k. k.cells.items };

    ghost invariant = { λ k. IsKey k.cells.items };
}

/// Why cells are no key.
#[derive(Clone, Copy, Debug, PartialEq, Eq)]
pub enum KeyFault {
    /// There is none, or more than [`MAX_KEY_CELLS`].
    WrongCount,
    /// The first cell that is NULL stands at this place, counted from 0.
    Null(u8),
}

/// The place of the first cell that is NULL.
fn first_null(cells: &[Cell]) -> Option<usize>
    ensures place { result ≡ position is_null cells.now }
    ensures within { IfSome result (λ place. place < length cells.now) }
{
    cells.iter().position(|cell| cell.is_null())
}

impl Key {
    /// The key of these cells, in this order. Their count is tested first, and then they are tested for NULL.
    #[tactic(auto, unfolding(crate::specs::Cells::key_fault))]
    pub fn new(cells: Vec<Cell>) -> Result<Key, KeyFault>
        ensures { MatchResult result (λ k. (k ≡ cells.items) × (key_fault cells.items ≡ None)) (λ e. key_fault cells.items ≡ Some e) }
    {
        if cells.is_empty() || cells.len() > MAX_KEY_CELLS {
            return Err(KeyFault::WrongCount);
        }
        match first_null(cells.as_slice()) {
            Some(place) => Err(KeyFault::Null(place as u8)),
            None => Ok(Key { cells }),
        }
    }

    /// The cells, in the key's order.
    pub fn cells(&self) -> &[Cell]
        ensures value { result.now ≡ self.now }
        ensures key { IsKey self.now }
    {
        self.cells.as_slice()
    }
}

impl Duplicate for Key {
    fn copy(&self, alloc: Global) -> Result<Key, NoMemory> {
        let cells = copy_items(alloc, self.cells.as_slice())?;
        Ok(Key { cells })
    }
}

impl PartialEq for Key {
    ghost eq = { cells_eq };

    ghost laws = { partial_equiv_from_equiv cells_eq_equiv };

    fn eq(&self, other: &Key) -> bool {
        self.cells.as_slice() == other.cells.as_slice()
    }
}

impl Eq for Key {
    ghost laws = { cells_eq_equiv };
}

impl PartialOrd for Key {
    ghost partial_cmp = { as_partial_cmp cells_cmp };

    ghost laws = { partial_order_from_agreeing_total cells_cmp cells_cmp_total (λ x y. refl) cells_eq_ties };

    fn partial_cmp(&self, other: &Key) -> Option<Ordering> {
        Some(self.cmp(other))
    }
}

impl Ord for Key {
    ghost cmp = { cells_cmp };

    ghost total = { cells_cmp_total };

    ghost matches_partial_cmp = { λ x y. refl };

    ghost matches_eq = { cells_eq_ties };

    fn cmp(&self, other: &Key) -> Ordering {
        self.cells.as_slice().cmp(&other.cells.as_slice())
    }
}

impl Hash for Key {
    ghost hash_input = { cells_writes };

    ghost respects_eq = { (same_Alike cells_writes cells_eq_decides).fed };

    fn hash<H: Hasher>(&self, state: &mut H) {
        self.cells.as_slice().hash(state);
    }
}
