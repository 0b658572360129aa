//! Tests of replies.
use crate::database::database;
use crate::playing::{cut, id_of, play};
use crate::refusals::refusal_of;
use geo_base::{Line, Outcome, Txt};
use geo_report::{LineList, Reply, TextList};
use index_kit::row_named;
use rows_kit::cells_of;
use std::alloc::Global;
use std::test::Fail;

/// Lines with `; ` between them, and none for `none`.
fn lines_of(alloc: Global, texts: &str) -> Result<LineList, Fail> {
    let mut lines = Vec::new(alloc);
    if texts != "none" {
        for text in texts.split("; ") {
            lines.push(Line::new(cells_of(alloc, text)?)?)?;
        }
    }
    Ok(LineList::new(lines))
}

/// Texts with `; ` between them.
fn texts_of(alloc: Global, texts: &str) -> Result<TextList, Fail> {
    let mut lines = Vec::new(alloc);
    for text in texts.split("; ") {
        lines.push(Txt::new(alloc, text)?)?;
    }
    Ok(TextList::new(lines))
}

/// `Committed`, or `Changed EPOCH ROW`, or `Beaten CANDIDATE ROW`.
fn outcome_of(alloc: Global, words: &str) -> Result<Outcome, Fail> {
    if words == "Committed" {
        return Ok(Outcome::Committed);
    }
    let (what, rest) = cut(words)?;
    let (by, row) = cut(rest)?;
    match what {
        "Changed" => {
            let epoch = by.parse()?;
            Ok(Outcome::Changed(row_named(alloc, row)?, epoch))
        }
        "Beaten" => {
            let winner = id_of(by)?;
            Ok(Outcome::Beaten(row_named(alloc, row)?, winner))
        }
        _ => Err("no outcome".into()),
    }
}

/// The reply of its name, and what it says.
fn said_of(alloc: Global, name: &str, rest: &str) -> Result<Reply, Fail> {
    Ok(match name {
        "Begun" => Reply::Begun(rest.parse()?),
        "Reading" => Reply::Reading(rest.parse()?),
        "Changed" => Reply::Changed(rest.parse()?),
        "ChangedTicket" => {
            let (rows, id) = cut(rest)?;
            Reply::ChangedTicket(rows.parse()?, id_of(id)?)
        }
        "Ticket" => Reply::Ticket(id_of(rest)?),
        "ReadOnly" => Reply::ReadOnly,
        "RolledBack" => Reply::RolledBack,
        "Rows" => Reply::Rows(lines_of(alloc, rest)?),
        "Plan" => Reply::Plan(texts_of(alloc, rest)?),
        "Refused" => Reply::Refused(refusal_of(alloc, rest)?),
        "Told" => {
            let (epoch, outcome) = cut(rest)?;
            let epoch = epoch.parse()?;
            Reply::Told(epoch, outcome_of(alloc, outcome)?)
        }
        "Pending" => Reply::Pending(rest.parse()?),
        "Gone" => Reply::Gone,
        "NoTicket" => Reply::NoTicket,
        _ => return Err("no reply".into()),
    })
}

/// The reply of the words.
pub fn reply_of(alloc: Global, words: &str) -> Result<Reply, Fail> {
    let (name, rest) = words.split_once(' ').unwrap_or((words, ""));
    said_of(alloc, name, rest)
}

const REPLIES: &str = "\
0.1 Begun 0 => 0.1 begun at 0
0.2 Begun 2 => 0.2 begun at 2
0.1 Reading 9 => 0.1 reading at 9
0.1 Changed 1 => 0.1 changed 1
0.0 Changed 0 => 0.0 changed 0
0.0 ChangedTicket 1 1.0.0 => 0.0 changed 1 ticket 1.0.0
2.0 ChangedTicket 2 2.2.0 => 2.0 changed 2 ticket 2.2.0
0.1 Ticket 65.0.0 => 0.1 ticket 65.0.0
7.63 Ticket 4294967293.7.4095 => 7.63 ticket 4294967293.7.4095
0.1 ReadOnly => 0.1 read-only
0.2 RolledBack => 0.2 rolled back
1.0 Pending 0 => 1.0 pending, published 0
0.0 Gone => 0.0 gone
0.0 NoTicket => 0.0 no ticket";

#[test]
fn a_reply_is_a_line(rt: HostRuntime) -> Result<(), Fail> {
    let alloc = rt.alloc();
    let schema = database(alloc)?;
    play(alloc, &schema, REPLIES)
}

const LISTS: &str = "\
1.0 Rows 1 10 => 1.0 rows 1 / (1, 10)
0.1 Rows none => 0.1 rows 0
0.0 Rows 3; 2; 1 => 0.0 rows 3 / (3) / (2) / (1)
0.0 Rows - => 0.0 rows 1 / (NULL)
2.0 Rows 'Bob 1 140; 'Ann 2 650 => 2.0 rows 2 / ('Bob', 1, 140) / ('Ann', 2, 650)
0.0 Rows yes no -9223372036854775808 'it's => 0.0 rows 1 / (TRUE, FALSE, -9223372036854775808, 'it''s')
2.0 Plan acc index by_owner => 2.0 plan / acc index by_owner
2.0 Plan acc key range; cust scan, join by key => 2.0 plan / acc key range / cust scan, join by key";

#[test]
fn lines_stand_behind_the_reply(rt: HostRuntime) -> Result<(), Fail> {
    let alloc = rt.alloc();
    let schema = database(alloc)?;
    play(alloc, &schema, LISTS)
}

/// The last two are of a hidden table, which has its unique's name, and of a table that there isn't.
const OUTCOMES: &str = "\
0.0 Told 1 Committed => 0.0 committed at 1
0.1 Told 3 Changed 2 0 1 => 0.1 aborted changed acc(1) at 2
2.0 Told 2 Beaten 2.1.0 0 10 => 2.0 aborted beaten acc(10) by 2.1.0
0.0 Told 5 Changed 4 1 'it's -3 => 0.0 aborted changed cust('it''s', -3) at 4
0.1 Told 1 Beaten 1.0.0 64 'Ann => 0.1 aborted beaten one_name('Ann') by 1.0.0
0.1 Told 1 Beaten 1.0.0 65 'Ann => 0.1 aborted beaten ('Ann') by 1.0.0";

#[test]
fn an_outcome_names_its_row(rt: HostRuntime) -> Result<(), Fail> {
    let alloc = rt.alloc();
    let schema = database(alloc)?;
    play(alloc, &schema, OUTCOMES)
}
