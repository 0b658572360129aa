//! Expressions of 400 operators and 400 opening parentheses, and of one more.
use crate::parsed::{has_canonical_text, has_fault};
use crate::pieces::text_of;
use std::alloc::{AllocError, Global};
use std::test::Fail;

// What is deep, the pieces of a text, and those of its canonical text.
const READ: [(&str, &[(&str, usize)], &[(&str, usize)]); 15] = [
    (
        "parentheses",
        &[
            ("SELECT ", 1),
            ("(", 400),
            ("a", 1),
            (")", 400),
            (" FROM t", 1),
        ],
        &[("SELECT a FROM t", 1)],
    ),
    (
        "NOT",
        &[("SELECT ", 1), ("NOT ", 400), ("a FROM t", 1)],
        &[
            ("SELECT ", 1),
            ("(NOT ", 400),
            ("a", 1),
            (")", 400),
            (" FROM t", 1),
        ],
    ),
    (
        "minus signs",
        &[("SELECT ", 1), ("-", 400), ("a FROM t", 1)],
        &[
            ("SELECT ", 1),
            ("-(", 400),
            ("a", 1),
            (")", 400),
            (" FROM t", 1),
        ],
    ),
    (
        "a chain",
        &[("SELECT a", 1), ("+a", 400), (" FROM t", 1)],
        &[
            ("SELECT ", 1),
            ("(", 400),
            ("a", 1),
            (" + a)", 400),
            (" FROM t", 1),
        ],
    ),
    (
        "each with 400 of its own",
        &[
            ("SELECT ", 1),
            ("(-", 400),
            ("a", 1),
            (")", 400),
            (" FROM t", 1),
        ],
        &[
            ("SELECT ", 1),
            ("-(", 400),
            ("a", 1),
            (")", 400),
            (" FROM t", 1),
        ],
    ),
    (
        "200 AND and 200 IS, whose NOT isn't counted",
        &[("SELECT a", 1), (" IS NOT NULL AND a", 200), (" FROM t", 1)],
        &[
            ("SELECT ", 1),
            ("(", 200),
            ("(a IS NOT NULL)", 1),
            (" AND (a IS NOT NULL))", 199),
            (" AND a)", 1),
            (" FROM t", 1),
        ],
    ),
    (
        "NOT, 199 AND and 200 IS",
        &[
            ("SELECT NOT a IS NULL", 1),
            (" AND a IS NULL", 199),
            (" FROM t", 1),
        ],
        &[
            ("SELECT ", 1),
            ("(", 199),
            ("(NOT (a IS NULL))", 1),
            (" AND (a IS NULL))", 199),
            (" FROM t", 1),
        ],
    ),
    (
        "negative literals aren't counted",
        &[("SELECT 1", 1), ("--1", 400), (" FROM t", 1)],
        &[
            ("SELECT ", 1),
            ("(", 400),
            ("1", 1),
            (" - -1)", 400),
            (" FROM t", 1),
        ],
    ),
    (
        "nor is the last minus sign where an integer follows",
        &[("SELECT ", 1), ("-", 401), ("1 FROM t", 1)],
        &[
            ("SELECT ", 1),
            ("-(", 400),
            ("-1", 1),
            (")", 400),
            (" FROM t", 1),
        ],
    ),
    (
        "each item anew",
        &[
            ("SELECT ", 1),
            ("-", 400),
            ("a,", 1),
            ("-", 400),
            ("b FROM t", 1),
        ],
        &[
            ("SELECT ", 1),
            ("-(", 400),
            ("a", 1),
            (")", 400),
            (", ", 1),
            ("-(", 400),
            ("b", 1),
            (")", 400),
            (" FROM t", 1),
        ],
    ),
    (
        "the condition of a join and that of the query",
        &[
            ("SELECT * FROM t JOIN u ON ", 1),
            ("(", 400),
            ("a", 1),
            (")", 400),
            (" WHERE ", 1),
            ("(", 400),
            ("b", 1),
            (")", 400),
        ],
        &[("SELECT * FROM t JOIN u ON a WHERE b", 1)],
    ),
    (
        "the condition of a query with FOR UPDATE behind it",
        &[
            ("SELECT * FROM t WHERE ", 1),
            ("(", 400),
            ("a", 1),
            (")", 400),
            (" FOR UPDATE", 1),
        ],
        &[("SELECT * FROM t WHERE a FOR UPDATE", 1)],
    ),
    (
        "the parenthesis of an aggregate isn't counted",
        &[
            ("SELECT SUM(", 1),
            ("(", 400),
            ("a", 1),
            (")", 401),
            (" FROM t", 1),
        ],
        &[("SELECT SUM(a) FROM t", 1)],
    ),
    (
        "nor are those of columns and of a row",
        &[
            ("INSERT INTO t(a) VALUES (", 1),
            ("(", 400),
            ("1", 1),
            (")", 401),
        ],
        &[("INSERT INTO t(a) VALUES (1)", 1)],
    ),
    (
        "two values that are set, and the condition",
        &[
            ("UPDATE t SET a=", 1),
            ("-", 400),
            ("a,b=", 1),
            ("(", 400),
            ("b", 1),
            (")", 400),
            (" WHERE ", 1),
            ("(", 400),
            ("c", 1),
            (")", 400),
        ],
        &[
            ("UPDATE t SET a = ", 1),
            ("-(", 400),
            ("a", 1),
            (")", 400),
            (", b = b WHERE c", 1),
        ],
    ),
];

fn is_read_as(
    alloc: Global,
    pieces: &[(&str, usize)],
    wanted: &[(&str, usize)],
) -> Result<bool, AllocError> {
    let text = text_of(alloc, pieces)?;
    let wanted = text_of(alloc, wanted)?;
    Ok(has_canonical_text(alloc, text.as_str(), wanted.as_str()))
}

#[test]
fn four_hundred_are_read(rt: HostRuntime) -> Result<(), Fail> {
    for (what, pieces, wanted) in READ {
        assert!(rt;
            is_read_as(rt.alloc(), pieces, wanted) == Ok(true),
            "{what}"
        );
    }
    Ok(())
}

// What is too deep, the pieces of a text, and its fault.
const REFUSED: [(&str, &[(&str, usize)], &str); 30] = [
    (
        "parentheses",
        &[
            ("SELECT ", 1),
            ("(", 401),
            ("a", 1),
            (")", 401),
            (" FROM t", 1),
        ],
        "TooDeep(407)",
    ),
    (
        "NOT",
        &[("SELECT ", 1), ("NOT ", 401), ("a FROM t", 1)],
        "TooDeep(1607)",
    ),
    (
        "minus signs",
        &[("SELECT ", 1), ("-", 401), ("a FROM t", 1)],
        "TooDeep(407)",
    ),
    (
        "a chain",
        &[("SELECT a", 1), ("+a", 401), (" FROM t", 1)],
        "TooDeep(808)",
    ),
    (
        "parentheses behind 400 minus signs",
        &[
            ("SELECT ", 1),
            ("-", 400),
            ("(", 401),
            ("a", 1),
            (")", 401),
            (" FROM t", 1),
        ],
        "TooDeep(807)",
    ),
    (
        "the 401st is IS, and 200 NOT of IS NOT NULL aren't counted",
        &[("SELECT a", 1), (" IS NOT NULL AND a", 201), (" FROM t", 1)],
        "TooDeep(3609)",
    ),
    (
        "the 401st is the last IS",
        &[
            ("SELECT NOT NOT a IS NULL", 1),
            (" AND a IS NULL", 199),
            (" FROM t", 1),
        ],
        "TooDeep(2803)",
    ),
    (
        "negative literals aren't counted",
        &[("SELECT 1", 1), ("--1", 401), (" FROM t", 1)],
        "TooDeep(1208)",
    ),
    (
        "minus signs before a negative literal",
        &[("SELECT ", 1), ("-", 402), ("1 FROM t", 1)],
        "TooDeep(407)",
    ),
    (
        "the second item",
        &[
            ("SELECT ", 1),
            ("-", 400),
            ("a,", 1),
            ("-", 401),
            ("b FROM t", 1),
        ],
        "TooDeep(809)",
    ),
    (
        "the argument of an aggregate",
        &[
            ("SELECT SUM(", 1),
            ("(", 401),
            ("a", 1),
            (")", 402),
            (" FROM t", 1),
        ],
        "TooDeep(411)",
    ),
    (
        "a value of a row",
        &[
            ("INSERT INTO t(a) VALUES (", 1),
            ("(", 401),
            ("1", 1),
            (")", 402),
        ],
        "TooDeep(425)",
    ),
    (
        "the condition of a removal",
        &[("DELETE FROM t WHERE ", 1), ("NOT ", 401), ("a", 1)],
        "TooDeep(1620)",
    ),
    (
        "OR in a value that is set",
        &[("UPDATE t SET a = b", 1), (" OR c", 401)],
        "TooDeep(2019)",
    ),
    (
        "AND",
        &[("DELETE FROM t WHERE a", 1), (" AND b", 401)],
        "TooDeep(2422)",
    ),
    (
        "times and divided by",
        &[("DELETE FROM t WHERE a", 1), ("*b/c", 201)],
        "TooDeep(821)",
    ),
    (
        "the condition of a join",
        &[("SELECT * FROM t JOIN u ON ", 1), ("-", 401), ("a", 1)],
        "TooDeep(426)",
    ),
    (
        "the condition of a query",
        &[("SELECT * FROM t WHERE ", 1), ("NOT ", 401), ("a", 1)],
        "TooDeep(1622)",
    ),
    (
        "the condition of a query with FOR UPDATE behind it",
        &[
            ("SELECT * FROM t WHERE ", 1),
            ("NOT ", 401),
            ("a FOR UPDATE", 1),
        ],
        "TooDeep(1622)",
    ),
    (
        "the condition of an update",
        &[("UPDATE t SET a = 1 WHERE ", 1), ("(", 401), ("a", 1)],
        "TooDeep(425)",
    ),
    (
        "no token behind the 401st parenthesis",
        &[("SELECT ", 1), ("(", 401)],
        "TooDeep(407)",
    ),
    (
        "no token behind the 401st",
        &[("SELECT ", 1), ("-", 401)],
        "TooDeep(407)",
    ),
    (
        "no token behind the 400th",
        &[("SELECT ", 1), ("-", 400)],
        "BadSyntax(407)",
    ),
    (
        "too deep before a word that may not stand there",
        &[("SELECT ", 1), ("-", 401), ("a b FROM t", 1)],
        "TooDeep(407)",
    ),
    (
        "a word that may not stand there before it is too deep",
        &[("SELECT a b, ", 1), ("-", 401), ("a FROM t", 1)],
        "BadSyntax(9)",
    ),
    (
        "a text that isn't closed behind what is too deep",
        &[("SELECT ", 1), ("-", 401), ("a FROM t WHERE 'x", 1)],
        "BadText(423)",
    ),
    (
        "the second comparison of 400 operators, which is none",
        &[("SELECT ", 1), ("-", 399), ("a = b = c FROM t", 1)],
        "BadSyntax(412)",
    ),
    (
        "the second comparison behind 399 operators",
        &[("SELECT ", 1), ("-", 398), ("a = b = c FROM t", 1)],
        "BadSyntax(411)",
    ),
    (
        "the first comparison behind 400 operators",
        &[("SELECT ", 1), ("-", 400), ("a = b = c FROM t", 1)],
        "TooDeep(409)",
    ),
    (
        "IS behind a comparison, the 400th operator",
        &[("SELECT ", 1), ("-", 399), ("a = b IS NULL FROM t", 1)],
        "BadSyntax(412)",
    ),
];

fn is_refused(alloc: Global, pieces: &[(&str, usize)], wanted: &str) -> Result<bool, AllocError> {
    let text = text_of(alloc, pieces)?;
    Ok(has_fault(alloc, text.as_str(), wanted))
}

#[test]
fn one_more_is_too_deep(rt: HostRuntime) -> Result<(), Fail> {
    for (what, pieces, wanted) in REFUSED {
        assert!(rt;
            is_refused(rt.alloc(), pieces, wanted) == Ok(true),
            "{what}"
        );
    }
    Ok(())
}
