ghost use Rattle.std.specs.Cmp.{partial_equiv_from_equiv, partial_order_from_agreeing_total};
ghost use Rattle.std.specs.Hash.{same_Alike};
ghost use Rattle.std.specs.Ordering.{as_partial_cmp};
ghost use Rattle.std.proofs.Common.{refl};
ghost use Rattle.geo_base.specs.inner.Hashed.{row_writes};
ghost use Rattle.geo_base.specs.Order.{row_cmp, row_eq};
ghost use Rattle.geo_base.specs.laws.Orders.{row_cmp_total, row_eq_decides, row_eq_equiv, row_eq_ties};

use crate::duplicate::{Duplicate, NoMemory};
use crate::key::Key;
use crate::numbers::TableNo;
use std::alloc::Global;
use std::cmp::Ordering;
use std::hash::{Hash, Hasher};

/// The name of a row: its table and its key. The order is by table, and then by key.
#[derive(Debug, Drop)]
pub struct RowId {
    pub table: TableNo,
    pub key: Key,
}

impl Duplicate for RowId {
    fn copy(&self, alloc: Global) -> Result<RowId, NoMemory> {
        Ok(RowId {
            table: self.table,
            key: self.key.copy(alloc)?,
        })
    }
}

impl PartialEq for RowId {
    ghost eq = { row_eq };

    ghost laws = { partial_equiv_from_equiv row_eq_equiv };

    #[tactic(auto, unfolding(crate::specs::Order::row_eq))]
    fn eq(&self, other: &RowId) -> bool {
        self.cmp(other).is_eq()
    }
}

impl Eq for RowId {
    ghost laws = { row_eq_equiv };
}

impl PartialOrd for RowId {
    ghost partial_cmp = { as_partial_cmp row_cmp };

    ghost laws = { partial_order_from_agreeing_total row_cmp row_cmp_total (λ x y. refl) row_eq_ties };

    fn partial_cmp(&self, other: &RowId) -> Option<Ordering> {
        Some(self.cmp(other))
    }
}

impl Ord for RowId {
    ghost cmp = { row_cmp };

    ghost total = { row_cmp_total };

    ghost matches_partial_cmp = { λ x y. refl };

    ghost matches_eq = { row_eq_ties };

    #[tactic(auto, unfolding(crate::specs::Order::row_cmp))]
    fn cmp(&self, other: &RowId) -> Ordering {
        self.table.cmp(&other.table).then(self.key.cmp(&other.key))
    }
}

impl Hash for RowId {
    ghost hash_input = { row_writes };

    ghost respects_eq = { (same_Alike row_writes row_eq_decides).fed };

    #[tactic(auto, unfolding(crate::specs::inner::Hashed::row_writes))]
    fn hash<H: Hasher>(&self, state: &mut H) {
        self.table.hash(state);
        self.key.hash(state);
    }
}
