//! Lines of what is told, and behind ` => ` of what is printed, with ` / ` between its lines.
//!
//! A line that begins with a region and a session is a reply to it, all others are notices. The words are those of the
//! program's own types, a candidate is written with points between its numbers, and a row as its table's number and its
//! key's cells.
use crate::notices::notice_of;
use crate::replies::reply_of;
use geo_base::CandId;
use geo_report::{notice_lines, reply_lines};
use geo_schema::Schema;
use std::alloc::Global;
use std::test::Fail;

/// The first word, and the others.
pub fn cut(words: &str) -> Result<(&str, &str), Fail> {
    Ok(words.split_once(' ').ok_or("too few words")?)
}

/// The candidate of a text.
pub fn id_of(text: &str) -> Result<CandId, Fail> {
    let (epoch, rest) = text.split_once('.').ok_or("no candidate")?;
    let (region, csn) = rest.split_once('.').ok_or("no candidate")?;
    Ok(CandId {
        epoch: epoch.parse()?,
        region: region.parse()?,
        csn: csn.parse()?,
    })
}

/// Whether the bytes are the lines that are wanted, and none where `nothing` is.
pub fn are_lines(alloc: Global, bytes: &[u8], want: &str) -> Result<bool, Fail> {
    if want == "nothing" {
        return Ok(bytes.is_empty());
    }
    let mut text = String::new(alloc);
    for line in want.split(" / ") {
        text.push_str(line)?;
        text.push_str("\n")?;
    }
    Ok(bytes == text.as_bytes())
}

/// What is printed of a reply.
fn printed_reply(
    alloc: Global,
    schema: &Schema,
    region: &str,
    session: &str,
    words: &str,
) -> Result<Vec<u8>, Fail> {
    let region = region.parse()?;
    let session = session.parse()?;
    let reply = reply_of(alloc, words)?;
    let bytes = reply_lines(alloc, region, session, &reply, schema);
    drop(reply);
    Ok(bytes?)
}

/// What is printed of the words.
fn printed(alloc: Global, schema: &Schema, words: &str) -> Result<Vec<u8>, Fail> {
    let (first, rest) = cut(words)?;
    match first.split_once('.') {
        Some((region, session)) => printed_reply(alloc, schema, region, session, rest),
        None => Ok(notice_lines(alloc, &notice_of(first, rest)?)?),
    }
}

/// Plays the lines. Fails at the first one of which something else is printed than it says.
pub fn play(alloc: Global, schema: &Schema, lines: &str) -> Result<(), Fail> {
    for line in lines.lines() {
        let (words, want) = line.split_once(" => ").ok_or("a line without an answer")?;
        let bytes = printed(alloc, schema, words)?;
        if !are_lines(alloc, bytes.as_slice(), want)? {
            return Err(Fail::new(line));
        }
    }
    Ok(())
}
