//! What a text is parsed as.
use geo_base::{Duplicate, NoMemory};
use sql_ast::{Statement, print};
use sql_parse::{ParseFault, parse};
use std::alloc::{AllocError, Global};

// The texts of these tests have fewer bytes.
const MOST_BYTES: usize = 100_000;

// A statement is let go of by a call of `drop`: where it is dropped in place, each kind of statement is a branch
// of the proof.
fn text_of_copy(alloc: Global, statement: &Statement) -> Result<String, NoMemory> {
    let copy = statement.copy(alloc)?;
    let text = print(alloc, &copy);
    drop(copy);
    text
}

// The canonical text of the statement and of its copy: where they differ, one behind the other.
fn text_of_both(alloc: Global, statement: &Statement) -> Result<String, NoMemory> {
    let mut text = print(alloc, statement)?;
    let again = text_of_copy(alloc, statement)?;
    if text != again {
        text.push_str(again.as_str())?;
    }
    Ok(text)
}

fn text_of(alloc: Global, statement: Statement) -> Result<String, ParseFault> {
    let text = text_of_both(alloc, &statement);
    drop(statement);
    match text {
        Ok(text) => Ok(text),
        Err(_) => Err(ParseFault::NoMemory),
    }
}

fn printed(alloc: Global, text: &str) -> Result<String, ParseFault> {
    if text.len() > MOST_BYTES {
        return Err(ParseFault::NoMemory);
    }
    match parse(alloc, text) {
        Ok(statement) => text_of(alloc, statement),
        Err(fault) => Err(fault),
    }
}

/// Why the text is no statement, if it is none.
pub fn fault_of(alloc: Global, text: &str) -> Option<ParseFault> {
    printed(alloc, text).err()
}

/// The text is no statement for this reason, as it is written in Rust.
pub fn has_fault(alloc: Global, text: &str, wanted: &str) -> bool {
    match fault_of(alloc, text) {
        Some(fault) => is_written(alloc, fault, wanted) == Ok(true),
        None => false,
    }
}

fn is_written(alloc: Global, fault: ParseFault, wanted: &str) -> Result<bool, AllocError> {
    Ok(format!(in alloc; "{fault:?}")?.as_str() == wanted)
}

// The text is a statement with this canonical text.
fn is_read_as(alloc: Global, text: &str, wanted: &str) -> bool {
    match printed(alloc, text) {
        Ok(found) => found.as_str() == wanted,
        Err(_) => false,
    }
}

/// The text is a statement with this canonical text, and so is the canonical text.
pub fn has_canonical_text(alloc: Global, text: &str, wanted: &str) -> bool {
    is_read_as(alloc, text, wanted) && is_read_as(alloc, wanted, wanted)
}

/// The text is a statement whose canonical text prints as itself.
pub fn is_read_back(alloc: Global, text: &str) -> bool {
    match printed(alloc, text) {
        Ok(again) => is_read_as(alloc, again.as_str(), again.as_str()),
        Err(_) => false,
    }
}
