//! Listing the rows that there were after an epoch.
ghost use Rattle.std.specs.Prelude.{◌≡◌, map, IfOk};
ghost use Rattle.version_store.specs.Listing.{rows_at};

use crate::chain::Chain;
use geo_base::{Epoch, NoMemory, RowId, RowImage};
use std::alloc::Global;

/// Of these rows those that there were after the epoch, with their images.
pub(crate) fn rows_at<'a>(
    alloc: Global,
    pairs: &[(&'a RowId, &'a Chain)],
    epoch: Epoch,
) -> Result<Vec<(&'a RowId, &'a RowImage)>, NoMemory>
    ensures { IfOk result (λ rows. map (λ p. (p.0.now, p.1.now)) rows.items ≡ rows_at epoch (map (λ p. (p.0.now, p.1.now)) pairs.now)) }
{
    let mut rows = Vec::new(alloc);
    for pair in pairs {
        if let Some(image) = pair.1.image_at(epoch) {
            rows.push((pair.0, image))?;
        }
    }
    Ok(rows)
}
