//! Lines and statements that are long, and sessions that are too many.
use crate::reading::{Refusal, is_told, joined, read_lines};
use geo_script::Form;
use std::alloc::{AllocError, Global};
use std::test::Fail;

// A text, and behind it a letter so many times.
type Long = (&'static str, &'static str, usize);

fn text_of(alloc: Global, (front, letter, count): Long) -> Result<String, AllocError> {
    let mut text = String::from_str(alloc, front)?;
    text.push_str(&letter.repeat(alloc, count)?)?;
    Ok(text)
}

// The line, behind a head of four lines.
fn read_line(alloc: Global, line: Long) -> Result<(), Refusal> {
    let line = text_of(alloc, line)?;
    read_lines(alloc, Form::Play, line.as_bytes())
}

// A line, and what is wrong with it.
const LINES: [(Long, &str); 9] = [
    (("sql 0.0 ", "x", 16_377), "fits"),
    (("#", "x", 16_384), "fits"),
    (("#", "x", 100_000), "fits"),
    (("sql 0.0 ", "x", 16_384), "fits"),
    (("sql 0.0 ", "x", 16_385), "LongStatement"),
    (("sql 0.0 ", "é", 8_192), "fits"),
    (("sql 0.0 x", "é", 8_192), "LongStatement"),
    (("sql 0.64 ", "x", 16_385), "BadNumber"),
    (("seal ", "0", 16_385), "BadNumber"),
];

#[test]
fn long_lines(rt: HostRuntime) -> Result<(), Fail> {
    for (line, kind) in LINES {
        let found = read_line(rt.alloc(), line);
        assert!(rt; is_told(rt.alloc(), found, 5, kind)?, "{line:?}");
    }
    Ok(())
}

// A statement in each session of region 0.
fn sessions(alloc: Global) -> Result<Vec<u8>, AllocError> {
    let mut lines = Vec::new(alloc);
    for session in 0..64u8 {
        let line = format!(in alloc; "sql 0.{session} x\n")?;
        lines.extend_from_slice(line.as_bytes())?;
    }
    Ok(lines)
}

fn read_behind(alloc: Global, form: &str, last: Long) -> Result<(), Refusal> {
    let form = if form == "run" { Form::Run } else { Form::Play };
    let lines = sessions(alloc)?;
    let last = text_of(alloc, last)?;
    let lines = joined(alloc, &lines, last.as_bytes())?;
    read_lines(alloc, form, &lines)
}

// A line behind the 64 sessions of region 0, and what is wrong with it.
const LAST: [(&str, Long, &str); 7] = [
    ("run", ("sql 0.63 y", "", 0), "fits"),
    ("run", ("sql 1.0 y", "", 0), "TooManySessions"),
    ("run", ("sql 1.0 ", "y", 16_385), "LongStatement"),
    ("run", ("crash 0 after 1", "", 0), "fits"),
    ("run", ("sql 1.64 y", "", 0), "BadNumber"),
    ("run", ("sql 0.64 y", "", 0), "BadNumber"),
    ("play", ("sql 1.0 y", "", 0), "fits"),
];

#[test]
fn sessions_of_runs(rt: HostRuntime) -> Result<(), Fail> {
    for (form, last, kind) in LAST {
        let found = read_behind(rt.alloc(), form, last);
        assert!(rt; is_told(rt.alloc(), found, 69, kind)?, "{last:?}");
    }
    Ok(())
}
