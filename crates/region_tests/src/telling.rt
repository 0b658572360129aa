//! What a region tells, as texts.
use crate::playing::Played;
use codec_kit::bytes_of;
use geo_base::{Cell, Epoch, Key, Outcome, RowId, print_row};
use geo_io::{ByteList, MemKeepers};
use merge_round::RoundInput;
use region_core::{FetchFault, Region, SealFault, Sealed, SubmitFault, Ticket, Told};
use snap_view::Snapshot;
use std::alloc::Global;
use std::fmt::{Debug, Write};
use std::test::Fail;
use write_set::Batch;

/// What is told, as Rust writes it.
pub fn written<T: Debug + Drop>(alloc: Global, told: T) -> Result<String, Fail> {
    Ok(format!(in alloc; "{told:?}")?)
}

/// Where the region stands.
pub fn standing(alloc: Global, region: &Region) -> Result<String, Fail> {
    let up = region.up();
    let published = region.published();
    let open = region.open_epoch();
    let count = region.open_count();
    let horizon = region.horizon();
    let life = region.life();
    Ok(format!(in alloc;
        "{up} published {published} open {open} with {count} horizon {horizon} life {life}"
    )?)
}

/// The ticket, or the fault with the number of rows that were handed back.
pub fn submitted(
    alloc: Global,
    told: Result<Ticket, (SubmitFault, usize)>,
) -> Result<String, Fail> {
    match told {
        Ok(Ticket { id, life }) => {
            Ok(format!(in alloc; "ticket {}.{}.{} of {life}", id.epoch, id.region, id.csn)?)
        }
        Err((fault, rows)) => Ok(format!(in alloc; "{fault:?} {rows}")?),
    }
}

/// The last entry that the keepers have of the region.
fn last_entry<'a>(logs: &'a MemKeepers, region: &Region) -> Option<&'a ByteList> {
    logs.lists().get(usize::from(region.no()))?.items().last()
}

/// Whether the bytes are the last entry that the keepers have of the region.
fn are_kept(play: &Played, bytes: &[u8]) -> bool {
    match last_entry(&play.logs, &play.region) {
        Some(entry) => entry.items() == bytes,
        None => false,
    }
}

/// What was sealed.
pub fn sealed_text(alloc: Global, told: Result<Sealed, SealFault>) -> Result<String, Fail> {
    match told {
        Ok(sealed) => {
            let length = sealed.bytes.items().len();
            Ok(format!(in alloc; "{} with {} in {length} bytes", sealed.epoch, sealed.count)?)
        }
        Err(fault) => written(alloc, fault),
    }
}

/// The same, and whether its bytes are the last that the keepers have.
pub fn sealed(play: &Played, told: Result<Sealed, SealFault>) -> Result<String, Fail> {
    let kept = match &told {
        Ok(sealed) => are_kept(play, sealed.bytes.items()),
        Err(_) => false,
    };
    let mut out = sealed_text(play.alloc, told)?;
    if kept {
        out.push_str(", kept")?;
    }
    Ok(out)
}

/// The epoch, region and number of candidates of each batch.
fn add_batches(out: &mut String, batches: &[Batch]) -> Result<(), Fail> {
    for batch in batches {
        let count = batch.items.items().len();
        write!(out, " {}.{}/{count}", batch.epoch, batch.region)?;
    }
    Ok(())
}

/// The batches of a log.
pub fn log_text(alloc: Global, batches: Vec<Batch>) -> Result<String, Fail> {
    let mut out = format!(in alloc; "{}:", batches.len())?;
    add_batches(&mut out, &batches)?;
    Ok(out)
}

/// What a round is made of.
pub fn round_text(alloc: Global, input: RoundInput<Snapshot>) -> Result<String, Fail> {
    let mut out = format!(in alloc; "{} after {}:", input.epoch, input.before.epoch())?;
    add_batches(&mut out, input.batches.items())?;
    Ok(out)
}

fn row_of(alloc: Global, key: i64) -> Result<RowId, Fail> {
    let key = Key::new(vec![in alloc; Cell::Int(key)]?)?;
    Ok(RowId { table: 0, key })
}

/// The epoch of a snapshot, and its rows with keys from 1 to 9.
pub fn rows_text(alloc: Global, snapshot: Snapshot) -> Result<String, Fail> {
    let mut out = format!(in alloc; "{}:", snapshot.epoch())?;
    for key in 1..10 {
        if let Some(image) = snapshot.read(&row_of(alloc, key)?) {
            out.push_str(" ")?;
            print_row(&mut out, image.cells())?;
        }
    }
    Ok(out)
}

fn add_name(out: &mut String, row: &RowId) -> Result<(), Fail> {
    write!(out, "{}", row.table)?;
    Ok(print_row(out, row.key.cells())?)
}

fn add_outcome(out: &mut String, outcome: &Outcome) -> Result<(), Fail> {
    match outcome {
        Outcome::Committed => out.push_str("committed")?,
        Outcome::Changed(row, epoch) => {
            out.push_str("changed ")?;
            add_name(out, row)?;
            write!(out, " in {epoch}")?;
        }
        Outcome::Beaten(row, winner) => {
            out.push_str("beaten ")?;
            add_name(out, row)?;
            write!(out, " by {}.{}.{}", winner.epoch, winner.region, winner.csn)?;
        }
    }
    Ok(())
}

/// What became of a candidate.
pub fn outcome_text(alloc: Global, told: Told<'_>) -> Result<String, Fail> {
    let mut out = String::new(alloc);
    match told {
        Told::Outcome(outcome) => add_outcome(&mut out, outcome)?,
        Told::NotYet(published) => write!(out, "not yet, published {published}")?,
        Told::Gone => out.push_str("gone")?,
    }
    Ok(out)
}

/// Whether the reply has the bytes of the words; none where there is no batch, and the fault where there is one.
pub fn reply_text(
    alloc: Global,
    told: Result<Option<Vec<u8>>, FetchFault>,
    words: &str,
) -> Result<String, Fail> {
    match told {
        Ok(Some(bytes)) => written(alloc, bytes == bytes_of(alloc, words)?),
        Ok(None) => Ok(String::from_str(alloc, "none")?),
        Err(fault) => written(alloc, fault),
    }
}

/// Whether the last entry that the keepers have of the region has the bytes of the words.
pub fn entry_text(play: &Played, words: &str) -> Result<String, Fail> {
    let bytes = bytes_of(play.alloc, words)?;
    written(play.alloc, are_kept(play, &bytes))
}

/// How many entries the keepers have of the region.
pub fn count_kept(play: &Played) -> usize {
    match play.logs.lists().get(usize::from(play.region.no())) {
        Some(entries) => entries.items().len(),
        None => 0,
    }
}
