//! Keepers in memory, whose calls fail as they are told.

use crate::asking::entries;
use geo_io::{ByteList, Entries, Fail, Keepers, MemKeepers};
use std::alloc::Global;
use std::test;

// A call that fails, by its number of one digit, and behind it `+` where an append keeps its entry.
fn fail_of(word: &str) -> Option<Fail> {
    let call = *word.as_bytes().first()?;
    Some(Fail {
        call: u64::from(call.wrapping_sub(b'0')),
        kept: word.ends_with('+'),
    })
}

fn fails_of(alloc: Global, words: &str) -> Result<Vec<Fail>, test::Fail> {
    let fails = words.split(' ').filter_map(fail_of);
    Ok(fails.collect(alloc)?)
}

// Keepers whose region 0 has one entry, and whose calls fail so.
fn failing(alloc: Global, words: &str) -> Result<MemKeepers, test::Fail> {
    let entry = ByteList::new(b"old".to_vec(alloc)?);
    let lists = vec![in alloc; Entries::new(vec![in alloc; entry]?)]?;
    Ok(MemKeepers::new(alloc, lists, fails_of(alloc, words)?))
}

// What is asked of them: for the list's length (the calls' number 0), for the entry (1), and, after an append (2),
// for its length again (3). Where the first fails, the next two have one number less.
fn answers(alloc: Global, keepers: &mut MemKeepers) -> Result<String, test::Fail> {
    let read = entries(alloc, keepers, 0).map(|bytes| bytes.len());
    let appended = keepers.append(0, b"newer");
    let len = keepers.len(0);
    let mut text = format!(in alloc; "{read:?} {appended:?} {len:?} ")?;
    add_kept(&mut text, keepers)?;
    Ok(text)
}

// All that is kept: each entry's length, and a bar behind each list.
fn add_kept(text: &mut String, keepers: &MemKeepers) -> Result<(), test::Fail> {
    for list in keepers.lists() {
        for entry in list.items() {
            write!(text, "{} ", entry.items().len())?;
        }
        text.push('|')?;
    }
    Ok(())
}

fn is_answered(alloc: Global, line: &str) -> Result<bool, test::Fail> {
    let (fails, want) = line.split_once(" => ").ok_or("a line without an answer")?;
    let mut keepers = failing(alloc, fails)?;
    let answers = answers(alloc, &mut keepers);
    drop(keepers);
    Ok(answers?.as_str() == want)
}

/// Which calls fail, and what is answered. An entry's length and its bar are told as 4, that of `newer` is 5.
const ANSWERS: &str = "\
4 5 => Ok(4) Ok(()) Ok(2) 3 5 ||||||||
0 4 => Err(Failed) Ok(()) Ok(2) 3 5 ||||||||
1+ 4 => Err(Failed) Ok(()) Ok(2) 3 5 ||||||||
2 4 => Ok(4) Err(Failed) Ok(1) 3 ||||||||
2 2+ => Ok(4) Err(Failed) Ok(1) 3 ||||||||
2+ 2 => Ok(4) Err(Failed) Ok(2) 3 5 ||||||||
3+ 1+ => Err(Failed) Ok(()) Err(Failed) 3 5 ||||||||
1+ 0+ => Err(Failed) Err(Failed) Ok(2) 3 5 ||||||||";

#[test]
fn each_call_fails_where_it_is_told(rt: HostRuntime) -> Result<(), test::Fail> {
    for line in ANSWERS.lines() {
        assert!(rt; is_answered(rt.alloc(), line)?, "{line}");
    }
    Ok(())
}
