//! Keywords, which are no names.
use crate::parsed::fault_of;
use sql_lex::{Keyword, LexFault, Token, TokenKind, lex};
use sql_parse::ParseFault;
use std::alloc::{AllocError, Global};
use std::test::Fail;

// Each keyword in capitals and in small letters, and its name in Rust.
const WORDS: [(&str, &str, &str); 41] = [
    ("SELECT", "select", "KSelect"),
    ("INSERT", "insert", "KInsert"),
    ("INTO", "into", "KInto"),
    ("VALUES", "values", "KValues"),
    ("UPDATE", "update", "KUpdate"),
    ("SET", "set", "KSet"),
    ("DELETE", "delete", "KDelete"),
    ("FROM", "from", "KFrom"),
    ("WHERE", "where", "KWhere"),
    ("JOIN", "join", "KJoin"),
    ("ON", "on", "KOn"),
    ("GROUP", "group", "KGroup"),
    ("BY", "by", "KBy"),
    ("ORDER", "order", "KOrder"),
    ("ASC", "asc", "KAsc"),
    ("DESC", "desc", "KDesc"),
    ("LIMIT", "limit", "KLimit"),
    ("AS", "as", "KAs"),
    ("BEGIN", "begin", "KBegin"),
    ("OF", "of", "KOf"),
    ("EPOCH", "epoch", "KEpoch"),
    ("COMMIT", "commit", "KCommit"),
    ("ROLLBACK", "rollback", "KRollback"),
    ("EXPLAIN", "explain", "KExplain"),
    ("AND", "and", "KAnd"),
    ("OR", "or", "KOr"),
    ("NOT", "not", "KNot"),
    ("IS", "is", "KIs"),
    ("NULL", "null", "KNull"),
    ("TRUE", "true", "KTrue"),
    ("FALSE", "false", "KFalse"),
    ("COUNT", "count", "KCount"),
    ("SUM", "sum", "KSum"),
    ("MIN", "min", "KMin"),
    ("MAX", "max", "KMax"),
    ("INT", "int", "KInt"),
    ("TEXT", "text", "KText"),
    ("BOOL", "bool", "KBool"),
    ("KEY", "key", "KKey"),
    ("FOR", "for", "KFor"),
    ("UNIQUE", "unique", "KUnique"),
];

// The words of these tests have fewer bytes.
const MOST_BYTES: usize = 100;

// The keyword that the word is, if it is one token.
fn only_keyword(alloc: Global, word: &str) -> Result<Option<Keyword>, LexFault> {
    if word.len() > MOST_BYTES {
        return Err(LexFault::NoMemory);
    }
    let tokens = lex(alloc, word)?;
    match tokens.as_slice() {
        [
            Token {
                kind: TokenKind::Keyword(keyword),
                ..
            },
        ] => Ok(Some(*keyword)),
        _ => Ok(None),
    }
}

// Where a name has to stand: of a table, of an item, of a column that is set, and behind a table's name.
const FRONTS: [(&str, u32); 4] = [
    ("DELETE FROM ", 12),
    ("SELECT a AS ", 12),
    ("UPDATE t SET ", 13),
    ("SELECT a.", 9),
];

// Why the word is no name behind the front.
fn fault_behind(alloc: Global, front: &str, word: &str) -> Result<Option<ParseFault>, AllocError> {
    let mut text = String::from_str(alloc, front)?;
    text.push_str(word)?;
    Ok(fault_of(alloc, text.as_str()))
}

fn is_no_name(alloc: Global, word: &str) -> bool {
    for (front, at) in FRONTS {
        if fault_behind(alloc, front, word) != Ok(Some(ParseFault::BadSyntax(at))) {
            return false;
        }
    }
    true
}

fn has_name(alloc: Global, keyword: Keyword, name: &str) -> Result<bool, AllocError> {
    Ok(format!(in alloc; "{keyword:?}")?.as_str() == name)
}

// The word is the keyword of the name, and no name itself.
fn is_keyword_alone(alloc: Global, word: &str, name: &str) -> bool {
    match only_keyword(alloc, word) {
        Ok(Some(keyword)) => has_name(alloc, keyword, name) == Ok(true) && is_no_name(alloc, word),
        _ => false,
    }
}

#[test]
fn keywords_are_taken_in_any_case(rt: HostRuntime) -> Result<(), Fail> {
    for (capitals, small, name) in WORDS {
        for word in [capitals, small] {
            assert!(rt; is_keyword_alone(rt.alloc(), word, name), "{word}");
        }
    }
    Ok(())
}
