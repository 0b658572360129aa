//! The lines of replies.
ghost use Rattle.std.specs.Prelude.{◌≡◌, ◌++◌, IfOk, OnOk, string_bytes};
ghost use Rattle.geo_report.specs.Replies.{further_lines, outcome_text, reply_lines_of, reply_text};

use crate::listing::{print_lines, print_texts};
use crate::pieces::{print_id, print_number, print_row_name};
use crate::refusing::print_refusal;
use crate::reply::Reply;
use geo_base::{Epoch, NoMemory, Outcome, RegionNo};
use geo_schema::Schema;
use std::alloc::Global;

/// What became of a candidate of the epoch.
fn print_outcome(
    out: &mut String,
    schema: &Schema,
    epoch: Epoch,
    outcome: &Outcome,
) -> Result<(), NoMemory>
    ensures { OnOk result (string_bytes out.new ≡ string_bytes out.old ++ outcome_text schema.now epoch outcome.now) }
{
    match outcome {
        Outcome::Committed => print_number(out, "committed at ", u64::from(epoch)),
        Outcome::Changed(row, at) => {
            print_row_name(out, "aborted changed ", schema, row)?;
            print_number(out, " at ", u64::from(*at))
        }
        Outcome::Beaten(row, winner) => {
            print_row_name(out, "aborted beaten ", schema, row)?;
            print_id(out, " by ", *winner)
        }
    }
}

/// What a reply says in its first line.
fn print_reply(out: &mut String, schema: &Schema, reply: &Reply) -> Result<(), NoMemory>
    ensures { OnOk result (string_bytes out.new ≡ string_bytes out.old ++ reply_text schema.now reply.now) }
{
    match reply {
        Reply::Begun(epoch) => print_number(out, "begun at ", u64::from(*epoch)),
        Reply::Reading(epoch) => print_number(out, "reading at ", u64::from(*epoch)),
        Reply::Changed(rows) => print_number(out, "changed ", u64::from(*rows)),
        Reply::ChangedTicket(rows, id) => {
            print_number(out, "changed ", u64::from(*rows))?;
            print_id(out, " ticket ", *id)
        }
        Reply::Ticket(id) => print_id(out, "ticket ", *id),
        Reply::ReadOnly => Ok(out.push_str("read-only")?),
        Reply::RolledBack => Ok(out.push_str("rolled back")?),
        Reply::Rows(rows) => print_number(out, "rows ", rows.items().len() as u64),
        Reply::Plan(_) => Ok(out.push_str("plan")?),
        Reply::Refused(why) => print_refusal(out, schema, why),
        Reply::Told(epoch, outcome) => print_outcome(out, schema, *epoch, outcome),
        Reply::Pending(published) => {
            print_number(out, "pending, published ", u64::from(*published))
        }
        Reply::Gone => Ok(out.push_str("gone")?),
        Reply::NoTicket => Ok(out.push_str("no ticket")?),
    }
}

/// The lines of a reply behind the first one.
fn print_further(out: &mut String, reply: &Reply) -> Result<(), NoMemory>
    ensures { OnOk result (string_bytes out.new ≡ string_bytes out.old ++ further_lines reply.now) }
{
    match reply {
        Reply::Rows(rows) => print_lines(out, rows.items()),
        Reply::Plan(texts) => print_texts(out, texts.items()),
        Reply::Begun(_)
        | Reply::Reading(_)
        | Reply::Changed(_)
        | Reply::ChangedTicket(_, _)
        | Reply::Ticket(_)
        | Reply::ReadOnly
        | Reply::RolledBack
        | Reply::Refused(_)
        | Reply::Told(_, _)
        | Reply::Pending(_)
        | Reply::Gone
        | Reply::NoTicket => Ok(()),
    }
}

/// All lines of a reply.
fn print_said(
    out: &mut String,
    region: RegionNo,
    session: u8,
    reply: &Reply,
    schema: &Schema,
) -> Result<(), NoMemory>
    ensures { OnOk result (string_bytes out.new ≡ string_bytes out.old ++ reply_lines_of region session schema.now reply.now) }
{
    print_number(out, "", u64::from(region))?;
    print_number(out, ".", u64::from(session))?;
    out.push_str(" ")?;
    print_reply(out, schema, reply)?;
    out.push_str("\n")?;
    print_further(out, reply)
}

/// The lines of a reply to a session of a region: one, and behind it those of a query or of its plan. A row of a table
/// that the schema hasn't is printed by its key alone.
pub fn reply_lines(
    alloc: Global,
    region: RegionNo,
    session: u8,
    reply: &Reply,
    schema: &Schema,
) -> Result<Vec<u8>, NoMemory>
    ensures { IfOk result (λ bytes. bytes.items ≡ reply_lines_of region session schema.now reply.now) }
{
    let mut out = String::new(alloc);
    print_said(&mut out, region, session, reply, schema)?;
    Ok(out.into_bytes())
}
