//! Each line that events print, put at the end of a text.
ghost use Rattle.std.specs.Prelude.{◌≡◌, ◌++◌, OnOk, string_bytes};
ghost use Rattle.geo_world.specs.Lines as lines;

mod rows;

use geo_base::{CandId, Csn, Epoch, NoMemory, RegionNo, RowId, print_row};
use rows::print_rows;
use std::fmt::Write;
use write_set::Plain;

// A candidate's epoch, region and commit number.
fn print_id(out: &mut String, id: CandId) -> Result<(), NoMemory>
    ensures { OnOk result (string_bytes out.new ≡ string_bytes out.old ++ lines.id_text id) }
{
    let CandId { epoch, region, csn } = id;
    write!(out, "{epoch}.{region}.{csn}")?;
    Ok(())
}

/// A session's insert was taken as a candidate.
#[tactic(auto, unfolding(crate::specs::Lines::changed_one))]
pub fn print_changed_one(
    out: &mut String,
    region: RegionNo,
    session: u8,
    ticket: CandId,
) -> Result<(), NoMemory>
    ensures { OnOk result (string_bytes out.new ≡ string_bytes out.old ++ lines.changed_one region session ticket) }
{
    write!(out, "{region}.{session} changed 1 ticket ")?;
    print_id(out, ticket)?;
    writeln!(out)?;
    Ok(())
}

/// The row of a session's insert is there.
#[tactic(auto, unfolding(crate::specs::Lines::duplicate))]
pub fn print_duplicate(
    out: &mut String,
    region: RegionNo,
    session: u8,
    row: &RowId,
) -> Result<(), NoMemory>
    ensures { OnOk result (string_bytes out.new ≡ string_bytes out.old ++ lines.duplicate region session row.now) }
{
    write!(out, "{region}.{session} refused 30 Duplicate kv")?;
    print_row(out, row.key.cells())?;
    writeln!(out)?;
    Ok(())
}

/// The session waits for the verdict on an earlier candidate.
#[tactic(auto, unfolding(crate::specs::Lines::session_waits))]
pub fn print_session_waits(
    out: &mut String,
    region: RegionNo,
    session: u8,
    ticket: CandId,
) -> Result<(), NoMemory>
    ensures { OnOk result (string_bytes out.new ≡ string_bytes out.old ++ lines.session_waits region session ticket) }
{
    write!(out, "{region}.{session} refused 46 Waiting ")?;
    print_id(out, ticket)?;
    writeln!(out)?;
    Ok(())
}

/// A session's answer: all rows of the table.
#[tactic(auto, unfolding(crate::specs::Lines::answer))]
pub fn print_answer(
    out: &mut String,
    region: RegionNo,
    session: u8,
    table: &Plain,
) -> Result<(), NoMemory>
    ensures { OnOk result (string_bytes out.new ≡ string_bytes out.old ++ lines.answer region session table.now.rows) }
{
    let count = table.count();
    writeln!(out, "{region}.{session} rows {count}")?;
    print_rows(out, table)
}

/// A seal is refused: too many epochs of the region are sealed and not published.
#[tactic(auto, unfolding(crate::specs::Lines::seal_ahead))]
pub fn print_seal_ahead(out: &mut String, region: RegionNo) -> Result<(), NoMemory>
    ensures { OnOk result (string_bytes out.new ≡ string_bytes out.old ++ lines.seal_ahead region) }
{
    writeln!(out, "region {region} refused 50 Ahead")?;
    Ok(())
}

/// A seal is refused: the region has sealed its last epoch.
#[tactic(auto, unfolding(crate::specs::Lines::seal_last))]
pub fn print_seal_last(out: &mut String, region: RegionNo) -> Result<(), NoMemory>
    ensures { OnOk result (string_bytes out.new ≡ string_bytes out.old ++ lines.seal_last region) }
{
    writeln!(out, "region {region} refused 51 LastEpoch")?;
    Ok(())
}

/// A region sealed a batch of so many candidates.
#[tactic(auto, unfolding(crate::specs::Lines::batch_sealed))]
pub fn print_batch_sealed(
    out: &mut String,
    region: RegionNo,
    epoch: Epoch,
    count: Csn,
) -> Result<(), NoMemory>
    ensures { OnOk result (string_bytes out.new ≡ string_bytes out.old ++ lines.batch_sealed region epoch count) }
{
    writeln!(out, "region {region} sealed {epoch} with {count}")?;
    Ok(())
}

/// A packet was sent to a region.
#[tactic(auto, unfolding(crate::specs::Lines::sent))]
pub fn print_sent(out: &mut String, packet: u64, to: RegionNo) -> Result<(), NoMemory>
    ensures { OnOk result (string_bytes out.new ≡ string_bytes out.old ++ lines.sent packet to) }
{
    writeln!(out, "packet {packet} to {to}")?;
    Ok(())
}

/// The batch of a packet was new to its region.
#[tactic(auto, unfolding(crate::specs::Lines::packet_new))]
pub fn print_packet_new(out: &mut String, packet: u64) -> Result<(), NoMemory>
    ensures { OnOk result (string_bytes out.new ≡ string_bytes out.old ++ lines.packet_new packet) }
{
    writeln!(out, "packet {packet} new")?;
    Ok(())
}

/// The region had the batch of a packet, or had published its epoch.
#[tactic(auto, unfolding(crate::specs::Lines::packet_known))]
pub fn print_packet_known(out: &mut String, packet: u64) -> Result<(), NoMemory>
    ensures { OnOk result (string_bytes out.new ≡ string_bytes out.old ++ lines.packet_known packet) }
{
    writeln!(out, "packet {packet} known")?;
    Ok(())
}

/// No packet of this number was sent.
#[tactic(auto, unfolding(crate::specs::Lines::packet_absent))]
pub fn print_packet_absent(out: &mut String, packet: u64) -> Result<(), NoMemory>
    ensures { OnOk result (string_bytes out.new ≡ string_bytes out.old ++ lines.packet_absent packet) }
{
    writeln!(out, "packet {packet} absent")?;
    Ok(())
}

/// A region published an epoch, of whose candidates so many committed and so many did not.
#[tactic(auto, unfolding(crate::specs::Lines::epoch_published))]
pub fn print_epoch_published(
    out: &mut String,
    region: RegionNo,
    epoch: Epoch,
    commits: u32,
    aborts: u32,
) -> Result<(), NoMemory>
    ensures { OnOk result (string_bytes out.new ≡ string_bytes out.old ++ lines.epoch_published region epoch commits aborts) }
{
    write!(out, "region {region} published {epoch}")?;
    writeln!(out, " commits {commits} aborts {aborts}")?;
    Ok(())
}

/// A region can't publish its next epoch: it has the batches of so many regions, and not of all.
#[tactic(auto, unfolding(crate::specs::Lines::region_waits))]
pub fn print_region_waits(
    out: &mut String,
    region: RegionNo,
    epoch: Epoch,
    have: u8,
    regions: u8,
) -> Result<(), NoMemory>
    ensures { OnOk result (string_bytes out.new ≡ string_bytes out.old ++ lines.region_waits region epoch have regions) }
{
    write!(out, "region {region} waiting {epoch}")?;
    writeln!(out, ": have {have} of {regions}")?;
    Ok(())
}

/// What a region has published, and all rows of the table there.
#[tactic(auto, unfolding(crate::specs::Lines::shown))]
pub fn print_shown(
    out: &mut String,
    region: RegionNo,
    published: Epoch,
    table: &Plain,
) -> Result<(), NoMemory>
    ensures { OnOk result (string_bytes out.new ≡ string_bytes out.old ++ lines.shown region published table.now.rows) }
{
    let count = table.count();
    writeln!(out, "region {region} at {published}")?;
    writeln!(out, "table kv {count} rows")?;
    print_rows(out, table)
}
