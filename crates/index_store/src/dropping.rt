//! Adding pairs that rows got, and dropping pairs that were lost.
ghost use Rattle.std.specs.Prelude.{◌≡◌, OnOk};
ghost use Rattle.page_map.specs.Pairs.{found_at};
ghost use Rattle.index_store.specs.Order.{pair_cmp};
ghost use Rattle.index_store.specs.inner.Dropping.{is_before, dropped, all_dropped, left_at};
ghost use Rattle.index_store.specs.inner.Following.{all_added};

use crate::gain::Gain;
use crate::lost_pairs::LostPairs;
use crate::pair::IndexPair;
use geo_base::{Epoch, NoMemory};
use page_map::PageMap;

/// Adds the pairs, each as one that its row got in the epoch.
pub(crate) fn add_all(
    entries: &mut PageMap<IndexPair, Gain>,
    pairs: Vec<IndexPair>,
    epoch: Epoch,
) -> Result<(), NoMemory>
    ensures { OnOk result (entries.new ≡ all_added epoch pairs.items entries.old) }
{
    for pair in pairs {
        entries.set(pair, Gain { epoch })?;
    }
    Ok(())
}

/// Drops of the pairs that were lost up to the horizon those that their rows didn't get again.
pub(crate) fn drop_lost(
    entries: &mut PageMap<IndexPair, Gain>,
    losses: &[LostPairs],
    horizon: Epoch,
) -> Result<(), NoMemory>
    ensures { OnOk result (entries.new ≡ left_at horizon losses.now entries.old) }
{
    for loss in losses {
        if loss.epoch() <= horizon {
            drop_all(entries, loss.pairs(), loss.epoch())?;
        }
    }
    Ok(())
}

/// Drops of the pairs that were lost in the epoch those that their rows didn't get again.
fn drop_all(
    entries: &mut PageMap<IndexPair, Gain>,
    pairs: &[IndexPair],
    epoch: Epoch,
) -> Result<(), NoMemory>
    ensures { OnOk result (entries.new ≡ all_dropped epoch pairs.now entries.old) }
{
    for pair in pairs {
        drop_pair(entries, pair, epoch)?;
    }
    Ok(())
}

/// Drops the pair, which was lost in the epoch, unless its row got it again.
fn drop_pair(
    entries: &mut PageMap<IndexPair, Gain>,
    pair: &IndexPair,
    epoch: Epoch,
) -> Result<(), NoMemory>
    ensures { OnOk result (entries.new ≡ dropped epoch pair.now entries.old) }
{
    if is_before(entries, pair, epoch) {
        entries.take(pair)?;
    }
    Ok(())
}

/// Whether the row got the pair before the epoch, and not again since.
fn is_before(entries: &PageMap<IndexPair, Gain>, pair: &IndexPair, epoch: Epoch) -> bool
    ensures { result ≡ is_before epoch (found_at pair_cmp pair.now entries.now) }
{
    match entries.get(pair) {
        Some(gain) => gain.epoch < epoch,
        None => false,
    }
}
