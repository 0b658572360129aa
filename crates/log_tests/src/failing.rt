//! Logs over keepers in memory whose calls fail as they are told.

use crate::keeping::{accounts, bytes_of, failing_keepers};
use crate::reading_back::{NEW, OLD};
use geo_io::{Keepers, MemKeepers};
use geo_schema::Schema;
use own_log::{LogAppendFault, append, entry, load_log};
use set_codec::read_batch;
use std::alloc::Global;
use std::test;

/// The number of bytes of the entry of epoch 1, behind a call for the length of the list.
fn first_entry(
    alloc: Global,
    logs: &mut MemKeepers,
) -> Result<Result<usize, LogAppendFault>, test::Fail> {
    if logs.len(0)? < 1 {
        return Err("an empty log".into());
    }
    Ok(entry(alloc, logs, 0, 1).map(|bytes| bytes.len()))
}

/// What is answered over a log with a batch of 41 bytes: to an append of one of 32 (the calls' number 0), for the first
/// entry (1 and 2), and for the whole log (3, and from 4 on each entry); and how many entries there are in the end.
fn answers(alloc: Global, schema: &Schema, logs: &mut MemKeepers) -> Result<String, test::Fail> {
    let batch = read_batch(alloc, schema, 2, &bytes_of(alloc, NEW)?)?;
    let appended = append(alloc, logs, schema, &batch).map(|bytes| bytes.len());
    let read = first_entry(alloc, logs)?;
    let loaded = load_log(alloc, logs, schema, 2, 0).map(|batches| batches.len());
    let kept = match logs.lists().first() {
        Some(list) => list.items().len(),
        None => 0,
    };
    Ok(format!(in alloc; "{appended:?} {read:?} {loaded:?} {kept}")?)
}

fn is_answered(alloc: Global, schema: &Schema, line: &str) -> Result<bool, test::Fail> {
    let (fails, want) = line.split_once(" => ").ok_or("a line without an answer")?;
    let mut logs = failing_keepers(alloc, OLD, fails)?;
    let answers = answers(alloc, schema, &mut logs);
    drop(logs);
    Ok(answers?.as_str() == want)
}

/// Which calls fail, and what is answered.
const ANSWERS: &str = "\
6 7 => Ok(32) Ok(41) Ok(2) 2
0 6 => Err(LogFault) Ok(41) Ok(1) 1
0+ 6 => Err(LogFault) Ok(41) Ok(2) 2
2 6 => Ok(32) Err(LogFault) Ok(2) 2
3 6 => Ok(32) Ok(41) Err(LogFault) 2
4 6 => Ok(32) Ok(41) Err(LogFault) 2
6 5 => Ok(32) Ok(41) Err(LogFault) 2
0 5 => Err(LogFault) Ok(41) Ok(1) 1
0+ 5+ => Err(LogFault) Ok(41) Err(LogFault) 2";

#[test]
fn faults_of_the_keepers_are_told(rt: HostRuntime) -> Result<(), test::Fail> {
    let schema = accounts(rt.alloc())?;
    for line in ANSWERS.lines() {
        assert!(rt; is_answered(rt.alloc(), &schema, line)?, "{line}");
    }
    Ok(())
}
