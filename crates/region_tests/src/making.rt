//! Batches and candidates that words spell, for the region that takes them.
ghost use Rattle.std.specs.Prelude.{◌≡◌, ◌≤◌, All, IfOk, IfSome, length};
ghost use Rattle.set_codec.specs.Fits.{FitsRegions, FitsTables};
ghost use Rattle.write_set.specs.Bounds.{AreSomeRows};
ghost use Rattle.write_set.specs.Sets.{IsWriteSet};
ghost use Rattle.region_core.specs.Lawful.{IsSubmittable};
ghost use Rattle.region_tests.specs.Played.{IsSound};

use codec_kit::{bytes_of, halves};
use geo_base::Epoch;
use region_core::Region;
use set_codec::read_batch;
use std::alloc::Global;
use std::test::Fail;
use write_set::{Batch, Candidate};

/// The batch whose bytes the words spell.
fn read_for(alloc: Global, region: &Region, words: &str) -> Result<Batch, Fail>
    ensures { IfOk result (FitsRegions region.now.standing.tables region.now.standing.regions) }
{
    region.lawful();
    let bytes = bytes_of(alloc, words)?;
    Ok(read_batch(alloc, region.schema(), region.regions(), bytes.as_slice())?)
}

/// The batch that is spelled behind its mark: its region, its epoch, how many candidates it has, and these.
pub fn batch_for(alloc: Global, region: &Region, words: &str) -> Result<Batch, Fail>
    ensures { IfOk result (FitsRegions region.now.standing.tables region.now.standing.regions) }
{
    let text = format!(in alloc; "GGB2 {words}")?;
    read_for(alloc, region, &text)
}

/// The spelling of a batch of the next epoch after the start, with the one candidate of the words: the start, and what
/// stands behind it in the bytes. A candidate of so many rows, whose word begins with `%`, has its own start 0.
fn batch_words(alloc: Global, words: &str) -> Result<String, Fail> {
    let (start, rest) = halves(words, " ")?;
    let epoch = start
        .parse::<Epoch>()?
        .checked_add(1)
        .ok_or("a late start")?;
    if rest.starts_with('%') {
        return Ok(format!(in alloc; "0 #{epoch} #1 {rest}")?);
    }
    Ok(format!(in alloc; "0 #{epoch} #1 #{start} {rest}")?)
}

/// The last of these candidates.
fn last_of(items: Vec<Candidate>, region: &Region) -> Option<Candidate>
    requires { All (IsSound region.now.standing.tables) items.items }
    ensures { IfSome result (IsSound region.now.standing.tables) }
{
    let mut items = items;
    items.pop()
}

/// The candidate of the words.
pub fn candidate_for(alloc: Global, region: &Region, words: &str) -> Result<Candidate, Fail>
    ensures { IfOk result (IsSubmittable region.now.standing) }
{
    let text = batch_words(alloc, words)?;
    let batch = batch_for(alloc, region, &text)?;
    let candidate = last_of(batch.items.into_vec(), region).ok_or("no candidate")?;
    if candidate.start > region.published() {
        return Err("a start that isn't published".into());
    }
    Ok(candidate)
}
