//! Every prefix of some statements: whether it is a statement, and else its fault.
use crate::parsed::{fault_of, is_read_back};
use sql_parse::ParseFault;
use std::alloc::Global;
use std::test::Fail;

// Statements with one space between tokens, and below each character what the text up to and with it is:
//   .  a statement
//   >  the beginning of one: BadSyntax at its end
//   <  BadSyntax at the first byte of its last word: the word is no name where one may stand, nor the keyword
//   '  BadText at the first byte of its last word: the quote isn't closed
//   -  no text: it ends inside a character
const STATEMENTS: [(&str, &str); 25] = [
    ("SELECT * FROM t", "<<<<<>>>><<<>>."),
    (
        "SELECT a , b AS c , - 1 FROM t AS x",
        "<<<<<>>>>>>>><>>>>>>>>>><<<>>..<>>.",
    ),
    (
        "SELECT COUNT ( * ) , SUM ( a ) FROM t GROUP BY b , c . d",
        "<<<<<>>>>>>>>>>>>>>>>>>>>>>>>>><<<>>..<<<<>><>>..>>..>>.",
    ),
    (
        "SELECT a FROM t JOIN u ON t . a = u . b WHERE NOT a IS NULL",
        "<<<<<>>>><<<>>..<<<>>>><>>..>>..>>..>>..<<<<>>..>>..<>><<<.",
    ),
    (
        "SELECT a FROM t ORDER BY a ASC , b DESC LIMIT 10",
        "<<<<<>>>><<<>>..<<<<>><>>..<<..>>..<<<..<<<<>>..",
    ),
    (
        "INSERT INTO t VALUES ( 1 , 'x' , TRUE ) , ( - 2 , NULL , FALSE )",
        "<<<<<>><<<>>>><<<<<>>>>>>>>''>>>>>>>>>..>>>>>>>>>>>>>>>>>>>>>>>.",
    ),
    (
        "INSERT INTO t ( a , b ) VALUES ( a . b , ( 1 ) )",
        "<<<<<>><<<>>>>>>>>>>>>>><<<<<>>>>>>>>>>>>>>>>>>.",
    ),
    (
        "UPDATE t SET a = 1 , b = a + 1 WHERE c < 3",
        "<<<<<>>>><<>>>>>>..>>>>>>..>>..<<<<>>..>>.",
    ),
    ("DELETE FROM t WHERE a OR b", "<<<<<>><<<>>..<<<<>>..<>>."),
    ("BEGIN", "<<<<."),
    ("BEGIN AS OF EPOCH 7", "<<<<..<>><>><<<<>>."),
    ("COMMIT", "<<<<<."),
    ("ROLLBACK", "<<<<<<<."),
    (
        "EXPLAIN SELECT MIN ( a ) , MAX ( b ) FROM t WHERE a IS NOT NULL",
        "<<<<<<>><<<<<>>>>>>>>>>>>>>>>>>>>>>>><<<>>..<<<<>>..<>><<>><<<.",
    ),
    (
        "SELECT ( ( a ) ) * ( b - c ) / d FROM t",
        "<<<<<>>>>>>>>>>>>>>>>>>>>>>>>>>>><<<>>.",
    ),
    (
        "SELECT a <> b , a < b , a <= b , a > b , a >= b FROM t",
        "<<<<<>>>>>>>>>>>>>>>>>>>>>>>>>>>>>>>>>>>>>>>>>>><<<>>.",
    ),
    (
        "SELECT - - a , - ( 1 ) , NOT NOT TRUE FROM t",
        "<<<<<>>>>>>>>>>>>>>>>>>>>>>>>>>>>>>>>><<<>>.",
    ),
    ("SELECT * FROM t FOR UPDATE", "<<<<<>>>><<<>>..<<>><<<<<."),
    (
        "SELECT a FROM t WHERE b FOR UPDATE",
        "<<<<<>>>><<<>>..<<<<>>..<<>><<<<<.",
    ),
    (
        "SELECT a FROM t ORDER BY a DESC LIMIT 1 FOR UPDATE",
        "<<<<<>>>><<<>>..<<<<>><>>..<<<..<<<<>>..<<>><<<<<.",
    ),
    (
        "SELECT a FROM t AS x JOIN u AS y ON c GROUP BY d FOR UPDATE",
        "<<<<<>>>><<<>>..<>>..<<<>>>><>>>><>>..<<<<>><>>..<<>><<<<<.",
    ),
    ("UPDATE t SET a = b = c", "<<<<<>>>><<>>>>>>..>>."),
    (
        "DELETE FROM t WHERE NOT a AND NOT b OR c",
        "<<<<<>><<<>>..<<<<>>..>>..<<>>..>>..<>>.",
    ),
    (
        "SELECT COUNT ( a ) AS n FROM t AS x JOIN u AS y ON TRUE LIMIT 0",
        "<<<<<>>>>>>>>>>>>>><>>>><<<>>..<>>..<<<>>>><>>>><>>.....<<<<>>.",
    ),
    (
        "INSERT INTO t VALUES ( 'o''é' )",
        "<<<<<>><<<>>>><<<<<>>>>''>'-'>>.",
    ),
];

// The mark of a text that is at fault at the place, where its last word has its own place.
fn mark_of_fault(text: &str, word: usize, place: usize) -> char {
    if place == text.len() {
        '>'
    } else if place == word {
        '<'
    } else {
        '?'
    }
}

// The mark of a text whose last word begins at the place, and `?` where it has none.
fn mark_of(alloc: Global, text: &str, word: usize) -> char {
    match fault_of(alloc, text) {
        Some(ParseFault::BadSyntax(at)) => mark_of_fault(text, word, at as usize),
        Some(ParseFault::BadText(at)) if at as usize == word => '\'',
        None if is_read_back(alloc, text) => '.',
        _ => '?',
    }
}

fn mark_at(alloc: Global, statement: &str, word: usize, end: usize) -> char {
    match statement.get(..end) {
        Some(text) => mark_of(alloc, text, word),
        None => '-',
    }
}

fn has_marks(alloc: Global, statement: &str, marks: &str) -> bool {
    let mut word = 0;
    for (place, (byte, wanted)) in statement.bytes().zip(marks.chars()).enumerate() {
        let end = place.saturating_add(1);
        if mark_at(alloc, statement, word, end) != wanted {
            return false;
        }
        if byte == b' ' {
            word = end;
        }
    }
    marks.len() == statement.len()
}

#[test]
fn prefixes_have_their_marks(rt: HostRuntime) -> Result<(), Fail> {
    for (statement, marks) in STATEMENTS {
        assert!(rt; has_marks(rt.alloc(), statement, marks), "{statement}");
    }
    Ok(())
}
