//! The pairs that rows lost in an epoch.
ghost use Rattle.std.specs.Prelude.{◌≡◌, filter, nat_lt, IfOk};

use crate::pair::IndexPair;
use geo_base::{Duplicate, Epoch, NoMemory};
use std::alloc::Global;
use std::marker::Model;
use std::sync::Arc;

/// The pairs that rows lost in an epoch. Copies share them.
#[derive(Drop)]
pub(crate) struct LostPairs {
    epoch: Epoch,
    pairs: Arc<Vec<IndexPair>>,
}

impl Model for LostPairs {
    ghost use Rattle.std.specs.Arc.{arc_value};
    ghost use Rattle.index_store.specs.inner.GainsAndLosses.{Loss};

    ghost Value = { Loss };

    ghost view = { λ l. record { epoch = l.epoch; pairs = (arc_value l.pairs).items } };
}

impl LostPairs {
    /// These pairs, as those of the epoch.
    pub(crate) fn new(
        alloc: Global,
        epoch: Epoch,
        pairs: Vec<IndexPair>,
    ) -> Result<LostPairs, NoMemory>
        ensures { IfOk result (λ lost. lost ≡ record { epoch = epoch; pairs = pairs.items }) }
    {
        Ok(LostPairs {
            epoch,
            pairs: Arc::new(alloc, pairs)?,
        })
    }

    /// The epoch.
    pub(crate) fn epoch(&self) -> Epoch
        ensures { result ≡ self.now.epoch }
    {
        self.epoch
    }

    /// The pairs.
    pub(crate) fn pairs(&self) -> &[IndexPair]
        ensures { result.now ≡ self.now.pairs }
    {
        self.pairs.as_slice()
    }
}

impl Duplicate for LostPairs {
    fn copy(&self, _alloc: Global) -> Result<LostPairs, NoMemory> {
        Ok(LostPairs {
            epoch: self.epoch,
            pairs: Arc::try_clone(&self.pairs)?,
        })
    }
}

/// Those of later epochs than the horizon.
pub(crate) fn later_losses(
    alloc: Global,
    losses: &[LostPairs],
    horizon: Epoch,
) -> Result<Vec<LostPairs>, NoMemory>
    ensures { IfOk result (λ later. later.items ≡ filter (λ l. nat_lt horizon l.epoch) losses.now) }
{
    let mut later = Vec::new(alloc);
    for loss in losses {
        if horizon < loss.epoch() {
            later.push(loss.copy(alloc)?)?;
        }
    }
    Ok(later)
}
