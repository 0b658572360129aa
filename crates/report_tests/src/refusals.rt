//! Tests of refusals.
use crate::database::database;
use crate::playing::{cut, id_of, play};
use geo_base::Txt;
use geo_report::Refusal;
use index_kit::row_named;
use std::alloc::Global;
use std::test::Fail;

/// The refusal of this name, if it says nothing else.
fn bare(name: &str) -> Option<Refusal> {
    Some(match name {
        "TypeClash" => Refusal::TypeClash,
        "WrongCount" => Refusal::WrongCount,
        "NotLockable" => Refusal::NotLockable,
        "Overflow" => Refusal::Overflow,
        "DivideByZero" => Refusal::DivideByZero,
        "ResultTooLong" => Refusal::ResultTooLong,
        "NotInTransaction" => Refusal::NotInTransaction,
        "AlreadyIn" => Refusal::AlreadyIn,
        "ReadOnly" => Refusal::ReadOnly,
        "Gone" => Refusal::Gone,
        "BatchFull" => Refusal::BatchFull,
        "TooManyRows" => Refusal::TooManyRows,
        "TooLarge" => Refusal::TooLarge,
        "Down" => Refusal::Down,
        "NotBuilt" => Refusal::NotBuilt,
        _ => return None,
    })
}

/// The refusal of this name, if it names a table or a column.
fn naming(name: &str, text: Txt) -> Option<Refusal> {
    match name {
        "NoTable" => Some(Refusal::NoTable(text)),
        "NoColumn" => Some(Refusal::NoColumn(text)),
        "Ambiguous" => Some(Refusal::Ambiguous(text)),
        "KeyColumn" => Some(Refusal::KeyColumn(text)),
        "NotGrouped" => Some(Refusal::NotGrouped(text)),
        "NullNotAllowed" => Some(Refusal::NullNotAllowed(text)),
        "TextTooLong" => Some(Refusal::TextTooLong(text)),
        _ => None,
    }
}

/// The refusal of its name, and what it says.
fn saying(alloc: Global, name: &str, rest: &str) -> Result<Refusal, Fail> {
    match name {
        "BadText" => Ok(Refusal::BadText(rest.parse()?)),
        "BadSyntax" => Ok(Refusal::BadSyntax(rest.parse()?)),
        "TooDeep" => Ok(Refusal::TooDeep(rest.parse()?)),
        "Duplicate" => Ok(Refusal::Duplicate(row_named(alloc, rest)?)),
        "TooOldHorizon" => Ok(Refusal::TooOldHorizon(rest.parse()?)),
        "TooOldStart" => {
            let (start, open_epoch) = cut(rest)?;
            Ok(Refusal::TooOldStart {
                start: start.parse()?,
                open_epoch: open_epoch.parse()?,
            })
        }
        "NotPublished" => Ok(Refusal::NotPublished(rest.parse()?)),
        "Waiting" => Ok(Refusal::Waiting(id_of(rest)?)),
        _ => match naming(name, Txt::new(alloc, rest)?) {
            Some(refusal) => Ok(refusal),
            None => Err("no refusal".into()),
        },
    }
}

/// The refusal of the words.
pub fn refusal_of(alloc: Global, words: &str) -> Result<Refusal, Fail> {
    match words.split_once(' ') {
        Some((name, rest)) => saying(alloc, name, rest),
        None => match bare(words) {
            Some(refusal) => Ok(refusal),
            None => Err("no refusal".into()),
        },
    }
}

const TEXTS: &str = "\
0.0 Refused BadText 7 => 0.0 refused 10 BadText 7
0.0 Refused BadSyntax 22 => 0.0 refused 11 BadSyntax 22
0.0 Refused TooDeep 4294967295 => 0.0 refused 12 TooDeep 4294967295
0.0 Refused NoTable nix => 0.0 refused 20 NoTable nix
0.0 Refused NoColumn x => 0.0 refused 21 NoColumn x
0.0 Refused NoColumn cust.id => 0.0 refused 21 NoColumn cust.id
0.0 Refused Ambiguous id => 0.0 refused 22 Ambiguous id
0.0 Refused TypeClash => 0.0 refused 23 TypeClash
0.0 Refused WrongCount => 0.0 refused 24 WrongCount
0.0 Refused KeyColumn id => 0.0 refused 25 KeyColumn id
0.0 Refused NotGrouped amount => 0.0 refused 26 NotGrouped amount
0.0 Refused NotLockable => 0.0 refused 27 NotLockable
0.0 Refused Duplicate 0 5 => 0.0 refused 30 Duplicate acc(5)
0.0 Refused Duplicate 1 'Ann 7 => 0.0 refused 30 Duplicate cust('Ann', 7)
0.0 Refused NullNotAllowed id => 0.0 refused 31 NullNotAllowed id
0.0 Refused Overflow => 0.0 refused 32 Overflow
0.0 Refused DivideByZero => 0.0 refused 33 DivideByZero
0.0 Refused TextTooLong name => 0.0 refused 34 TextTooLong name
0.0 Refused ResultTooLong => 0.0 refused 37 ResultTooLong";

#[test]
fn a_statement_is_refused_with_its_number(rt: HostRuntime) -> Result<(), Fail> {
    let alloc = rt.alloc();
    let schema = database(alloc)?;
    play(alloc, &schema, TEXTS)
}

const SESSIONS: &str = "\
0.2 Refused NotInTransaction => 0.2 refused 40 NotInTransaction
0.2 Refused AlreadyIn => 0.2 refused 41 AlreadyIn
0.1 Refused ReadOnly => 0.1 refused 42 ReadOnly
0.1 Refused TooOldHorizon 9 => 0.1 refused 43 TooOld horizon 9
0.2 Refused TooOldStart 1 66 => 0.2 refused 43 TooOld start 1 open 66
0.1 Refused NotPublished 73 => 0.1 refused 44 NotPublished published 73
0.0 Refused Gone => 0.0 refused 45 Gone
1.0 Refused Waiting 1.1.0 => 1.0 refused 46 Waiting 1.1.0
0.0 Refused BatchFull => 0.0 refused 47 BatchFull
0.0 Refused TooManyRows => 0.0 refused 48 TooManyRows
0.0 Refused TooLarge => 0.0 refused 49 TooLarge
0.0 Refused Down => 0.0 refused 52 Down
0.0 Refused NotBuilt => 0.0 refused 90 NotBuilt";

#[test]
fn a_session_is_refused_with_its_number(rt: HostRuntime) -> Result<(), Fail> {
    let alloc = rt.alloc();
    let schema = database(alloc)?;
    play(alloc, &schema, SESSIONS)
}
