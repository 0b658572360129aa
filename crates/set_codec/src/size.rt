//! Sizes, counted without bytes.
ghost use Rattle.std.specs.Prelude.{◌≡◌, min, sum_by};
ghost use Rattle.set_codec.specs.Sizes.{CountsBytes};
ghost use Rattle.write_set.specs.BatchSizes.{candidate_size, batch_size};

use write_set::{Batch, Candidate};

fn candidates_size(items: &[Candidate]) -> u64
    ensures { result ≡ min (sum_by candidate_size items.now) u64.MAX }
{
    let mut size = 0u64;
    for item in items {
        size = size.saturating_add(8 + item.set.size());
    }
    size
}

/// The number of bytes of the GGB2 spelling of a batch, or the greatest number where they are more than that.
/// The cost is the number of cells.
#[tactic(auto, using(crate::specs::laws::Lengths::counts_bytes))]
pub fn batch_size(batch: &Batch) -> u64
    ensures counts { CountsBytes u64.MAX batch.now result }
    ensures size { result ≡ min (batch_size batch.now.items) u64.MAX }
{
    candidates_size(batch.items.items()).saturating_add(13)
}
