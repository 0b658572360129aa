//! The pairs of an index, and their order.
ghost use Rattle.std.specs.Cmp.{partial_equiv_from_equiv, partial_order_from_agreeing_total};
ghost use Rattle.std.specs.Ordering.{as_partial_cmp};
ghost use Rattle.std.proofs.Common.{refl};
ghost use Rattle.index_store.specs.Order.{pair_cmp, pair_eq};
ghost use Rattle.index_store.specs.laws.Orders.{pair_cmp_total, pair_eq_equiv, pair_eq_ties};

use geo_base::{Duplicate, Key, NoMemory, TableNo};
use geo_schema::CellList;
use std::alloc::Global;
use std::cmp::Ordering;

/// That a row has certain cells in the columns of an index. The order is by index, then by the cells, and then by key.
#[derive(Drop)]
pub struct IndexPair {
    /// The table of the row and of the index.
    pub table: TableNo,
    /// The place of the index in its table.
    pub index: u8,
    /// The cells in the columns of the index, in its order.
    pub cells: CellList,
    /// The key of the row.
    pub key: Key,
}

impl Duplicate for IndexPair {
    fn copy(&self, alloc: Global) -> Result<IndexPair, NoMemory> {
        Ok(IndexPair {
            table: self.table,
            index: self.index,
            cells: self.cells.copy(alloc)?,
            key: self.key.copy(alloc)?,
        })
    }
}

impl PartialEq for IndexPair {
    ghost eq = { pair_eq };

    ghost laws = { partial_equiv_from_equiv pair_eq_equiv };

    #[tactic(auto, unfolding(crate::specs::Order::pair_eq))]
    fn eq(&self, other: &IndexPair) -> bool {
        self.cmp(other).is_eq()
    }
}

impl Eq for IndexPair {
    ghost laws = { pair_eq_equiv };
}

impl PartialOrd for IndexPair {
    ghost partial_cmp = { as_partial_cmp pair_cmp };

    ghost laws = { partial_order_from_agreeing_total pair_cmp pair_cmp_total (λ x y. refl) pair_eq_ties };

    fn partial_cmp(&self, other: &IndexPair) -> Option<Ordering> {
        Some(self.cmp(other))
    }
}

impl Ord for IndexPair {
    ghost cmp = { pair_cmp };

    ghost total = { pair_cmp_total };

    ghost matches_partial_cmp = { λ x y. refl };

    ghost matches_eq = { pair_eq_ties };

    #[tactic(auto, unfolding(crate::specs::Order::pair_cmp))]
    fn cmp(&self, other: &IndexPair) -> Ordering {
        let index = self
            .table
            .cmp(&other.table)
            .then(self.index.cmp(&other.index));
        let cells = self.cells.cmp(&other.cells);
        index.then(cells.then(self.key.cmp(&other.key)))
    }
}
