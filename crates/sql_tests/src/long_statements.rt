//! Statements of 16,384 bytes, the most that a statement of a script has.
use crate::parsed::{has_canonical_text, has_fault};
use crate::pieces::{padded, text_of};
use std::alloc::{AllocError, Global};
use std::test::Fail;

const BYTES: usize = 16_384;

// What is long, the pieces of a text before its blanks, and those of its canonical text.
const READ: [(&str, &[(&str, usize)], &[(&str, usize)]); 9] = [
    (
        "a chain",
        &[
            ("SELECT 1", 1),
            ("+0000000000000000000000000000000000001", 400),
            (" FROM t", 1),
        ],
        &[
            ("SELECT ", 1),
            ("(", 400),
            ("1", 1),
            (" + 1)", 400),
            (" FROM t", 1),
        ],
    ),
    (
        "a list of rows",
        &[("INSERT INTO t VALUES (1)", 1), (",(1)", 4_090)],
        &[("INSERT INTO t VALUES (1)", 1), (", (1)", 4_090)],
    ),
    (
        "a list of values",
        &[("INSERT INTO t VALUES (1", 1), (",1", 8_180), (")", 1)],
        &[("INSERT INTO t VALUES (1", 1), (", 1", 8_180), (")", 1)],
    ),
    (
        "a list of items",
        &[("SELECT a", 1), (",a", 8_184), (" FROM t", 1)],
        &[("SELECT a", 1), (", a", 8_184), (" FROM t", 1)],
    ),
    (
        "a list of columns that sort",
        &[("SELECT * FROM t ORDER BY a", 1), (",a", 8_179)],
        &[("SELECT * FROM t ORDER BY a", 1), (", a", 8_179)],
    ),
    (
        "a list of columns that are set",
        &[("UPDATE t SET a=1", 1), (",a=1", 4_092)],
        &[("UPDATE t SET a = 1", 1), (", a = 1", 4_092)],
    ),
    (
        "parentheses",
        &[
            ("SELECT ", 1),
            ("(", 400),
            ("a", 1),
            (")", 400),
            (" FROM t", 1),
        ],
        &[("SELECT a FROM t", 1)],
    ),
    (
        "minus signs",
        &[("SELECT ", 1), ("-", 400), ("a FROM t", 1)],
        &[
            ("SELECT ", 1),
            ("-(", 400),
            ("a", 1),
            (")", 400),
            (" FROM t", 1),
        ],
    ),
    (
        "blanks between minus signs",
        &[
            ("SELECT ", 1),
            ("-                                       ", 400),
            ("a FROM t", 1),
        ],
        &[
            ("SELECT ", 1),
            ("-(", 400),
            ("a", 1),
            (")", 400),
            (" FROM t", 1),
        ],
    ),
];

fn is_read_as(
    alloc: Global,
    pieces: &[(&str, usize)],
    wanted: &[(&str, usize)],
) -> Result<bool, AllocError> {
    let text = padded(alloc, pieces, BYTES)?;
    let wanted = text_of(alloc, wanted)?;
    Ok(text.len() == BYTES && has_canonical_text(alloc, text.as_str(), wanted.as_str()))
}

#[test]
fn long_statements_are_read(rt: HostRuntime) -> Result<(), Fail> {
    for (what, pieces, wanted) in READ {
        assert!(rt;
            is_read_as(rt.alloc(), pieces, wanted) == Ok(true),
            "{what}"
        );
    }
    Ok(())
}

// What is wrong, the pieces of a text before its blanks, and its fault.
const REFUSED: [(&str, &[(&str, usize)], &str); 7] = [
    (
        "a chain to the end",
        &[("SELECT a", 1), ("+a", 8_184)],
        "TooDeep(808)",
    ),
    (
        "parentheses to the end",
        &[("SELECT ", 1), ("(", 16_377)],
        "TooDeep(407)",
    ),
    (
        "minus signs to the end",
        &[("SELECT ", 1), ("-", 16_377)],
        "TooDeep(407)",
    ),
    (
        "parentheses",
        &[
            ("SELECT ", 1),
            ("(", 401),
            ("a", 1),
            (")", 401),
            (" FROM t", 1),
        ],
        "TooDeep(407)",
    ),
    (
        "minus signs",
        &[("SELECT ", 1), ("-", 401), ("a FROM t", 1)],
        "TooDeep(407)",
    ),
    (
        "a list that isn't closed",
        &[("INSERT INTO t VALUES (1", 1), (",1", 8_180)],
        "BadSyntax(16384)",
    ),
    (
        "a list with a bad last character",
        &[("INSERT INTO t VALUES (1", 1), (",1", 8_180), (";", 1)],
        "BadText(16383)",
    ),
];

fn is_refused(alloc: Global, pieces: &[(&str, usize)], wanted: &str) -> Result<bool, AllocError> {
    let text = padded(alloc, pieces, BYTES)?;
    Ok(text.len() == BYTES && has_fault(alloc, text.as_str(), wanted))
}

#[test]
fn long_statements_are_refused(rt: HostRuntime) -> Result<(), Fail> {
    for (what, pieces, wanted) in REFUSED {
        assert!(rt;
            is_refused(rt.alloc(), pieces, wanted) == Ok(true),
            "{what}"
        );
    }
    Ok(())
}
