//! The lines of notices.
ghost use Rattle.std.specs.Prelude.{◌≡◌, ◌++◌, codes, IfOk, OnOk, string_bytes};
ghost use Rattle.std.specs.Fmt.{decimal};
ghost use Rattle.geo_report.specs.Notices.{news_text, notice_lines_of, notice_text};
ghost use Rattle.geo_report.specs.declared.notice.Notice.TheVariants as told;

use crate::notice::{Notice, PacketNews};
use crate::pieces::print_number;
use crate::refusing::print_seal_refusal;
use geo_base::{Epoch, NoMemory, RegionNo};
use std::alloc::Global;

/// What became of a packet.
fn print_news(out: &mut String, news: PacketNews) -> Result<(), NoMemory>
    ensures { OnOk result (string_bytes out.new ≡ string_bytes out.old ++ (codes " " ++ news_text news)) }
{
    match news {
        PacketNews::New => Ok(out.push_str(" new")?),
        PacketNews::Known => Ok(out.push_str(" known")?),
        PacketNews::Far(limit) => print_number(out, " far ", limit),
        PacketNews::Answered => Ok(out.push_str(" answered")?),
        PacketNews::Unanswered => Ok(out.push_str(" unanswered")?),
        PacketNews::Lost => Ok(out.push_str(" lost")?),
        PacketNews::Absent => Ok(out.push_str(" absent")?),
    }
}

/// That the batch of an epoch is sealed.
fn print_sealed(
    out: &mut String,
    region: RegionNo,
    epoch: Epoch,
    count: u32,
) -> Result<(), NoMemory>
    ensures { OnOk result (string_bytes out.new ≡ string_bytes out.old ++ notice_text (told.Sealed region epoch count)) }
{
    print_number(out, "region ", u64::from(region))?;
    print_number(out, " sealed ", u64::from(epoch))?;
    print_number(out, " with ", u64::from(count))
}

/// How many candidates committed, and how many did not.
fn print_verdicts(out: &mut String, commits: u32, aborts: u32) -> Result<(), NoMemory>
    ensures { OnOk result (string_bytes out.new ≡ string_bytes out.old ++ (codes " commits " ++ decimal commits ++ codes " aborts " ++ decimal aborts)) }
{
    print_number(out, " commits ", u64::from(commits))?;
    print_number(out, " aborts ", u64::from(aborts))
}

/// That an epoch is published.
fn print_published(
    out: &mut String,
    region: RegionNo,
    epoch: Epoch,
    commits: u32,
    aborts: u32,
) -> Result<(), NoMemory>
    ensures { OnOk result (string_bytes out.new ≡ string_bytes out.old ++ notice_text (told.Published region epoch commits aborts)) }
{
    print_number(out, "region ", u64::from(region))?;
    print_number(out, " published ", u64::from(epoch))?;
    print_verdicts(out, commits, aborts)
}

/// That an epoch isn't whole yet.
fn print_waiting(
    out: &mut String,
    region: RegionNo,
    epoch: Epoch,
    have: u8,
    regions: u8,
) -> Result<(), NoMemory>
    ensures { OnOk result (string_bytes out.new ≡ string_bytes out.old ++ notice_text (told.Waiting region epoch have regions)) }
{
    print_number(out, "region ", u64::from(region))?;
    print_number(out, " waiting ", u64::from(epoch))?;
    print_number(out, ": have ", u64::from(have))?;
    print_number(out, " of ", u64::from(regions))
}

/// What a notice says.
fn print_notice(out: &mut String, notice: Notice) -> Result<(), NoMemory>
    ensures { OnOk result (string_bytes out.new ≡ string_bytes out.old ++ notice_text notice) }
{
    match notice {
        Notice::Sealed {
            region,
            epoch,
            count,
        } => print_sealed(out, region, epoch, count),
        Notice::Sent { packet, to } => {
            print_number(out, "packet ", packet)?;
            print_number(out, " to ", u64::from(to))
        }
        Notice::SealRefused { region, why } => {
            print_number(out, "region ", u64::from(region))?;
            print_seal_refusal(out, why)
        }
        Notice::Packet { packet, news } => {
            print_number(out, "packet ", packet)?;
            print_news(out, news)
        }
        Notice::Published {
            region,
            epoch,
            commits,
            aborts,
        } => print_published(out, region, epoch, commits, aborts),
        Notice::Waiting {
            region,
            epoch,
            have,
            regions,
        } => print_waiting(out, region, epoch, have, regions),
        Notice::At { region, published } => {
            print_number(out, "region ", u64::from(region))?;
            print_number(out, " at ", u64::from(published))
        }
        Notice::Crashed { region } => {
            print_number(out, "region ", u64::from(region))?;
            Ok(out.push_str(" crashed")?)
        }
        Notice::Restarted { region, entries } => {
            print_number(out, "region ", u64::from(region))?;
            print_number(out, " restarted with ", entries)
        }
        Notice::Up { region } => {
            print_number(out, "region ", u64::from(region))?;
            Ok(out.push_str(" up")?)
        }
        Notice::Down { region } => {
            print_number(out, "region ", u64::from(region))?;
            Ok(out.push_str(" down")?)
        }
    }
}

/// The line of a notice.
#[tactic(auto, unfolding(crate::specs::Notices::notice_lines_of))]
pub fn notice_lines(alloc: Global, notice: &Notice) -> Result<Vec<u8>, NoMemory>
    ensures { IfOk result (λ bytes. bytes.items ≡ notice_lines_of notice.now) }
{
    let mut out = String::new(alloc);
    print_notice(&mut out, *notice)?;
    out.push_str("\n")?;
    Ok(out.into_bytes())
}
