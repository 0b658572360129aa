//! How texts are cut into tokens, and where they are none.
use crate::pieces::text_of;
use sql_lex::{Keyword, LexFault, Symbol, Token, TokenKind, lex};
use std::alloc::Global;
use std::test::Fail;

// The kind of a token, with texts that are lent.
#[derive(Clone, Copy)]
enum Kind<'a> {
    Name(&'a str),
    Keyword(Keyword),
    Int(i64),
    Text(&'a str),
    Symbol(Symbol),
}

fn is_kind(found: &TokenKind, wanted: Kind<'_>) -> bool {
    match (found, wanted) {
        (TokenKind::Name(found), Kind::Name(wanted)) => found.text() == wanted,
        (TokenKind::Keyword(found), Kind::Keyword(wanted)) => *found == wanted,
        (TokenKind::Int(found), Kind::Int(wanted)) => *found == wanted,
        (TokenKind::Text(found), Kind::Text(wanted)) => found.text() == wanted,
        (TokenKind::Symbol(found), Kind::Symbol(wanted)) => *found == wanted,
        _ => false,
    }
}

fn are_tokens(found: &[Token], wanted: &[(Kind<'_>, u32, u32)]) -> bool {
    for (token, (kind, from, to)) in found.iter().zip(wanted.iter()) {
        if !is_kind(&token.kind, *kind) || token.from != *from || token.to != *to {
            return false;
        }
    }
    found.len() == wanted.len()
}

// The texts of these tests have fewer bytes.
const MOST_BYTES: usize = 10_000;

fn cut(alloc: Global, text: &str) -> Result<Vec<Token>, LexFault> {
    if text.len() > MOST_BYTES {
        return Err(LexFault::NoMemory);
    }
    lex(alloc, text)
}

fn is_cut_into(alloc: Global, text: &str, wanted: &[(Kind<'_>, u32, u32)]) -> bool {
    match cut(alloc, text) {
        Ok(tokens) => are_tokens(tokens.as_slice(), wanted),
        Err(_) => false,
    }
}

const TEXTS: [(&str, &[(Kind<'_>, u32, u32)]); 7] = [
    ("", &[]),
    (
        "_a1 _",
        &[(Kind::Name("_a1"), 0, 3), (Kind::Name("_"), 4, 5)],
    ),
    (" \t ", &[]),
    (
        "sElEcT\tit_1 <= 'o''né', 007<>9223372036854775807 ",
        &[
            (Kind::Keyword(Keyword::KSelect), 0, 6),
            (Kind::Name("it_1"), 7, 11),
            (Kind::Symbol(Symbol::LessEqual), 12, 14),
            (Kind::Text("o'né"), 15, 23),
            (Kind::Symbol(Symbol::Comma), 23, 24),
            (Kind::Int(7), 25, 28),
            (Kind::Symbol(Symbol::Differ), 28, 30),
            (Kind::Int(9_223_372_036_854_775_807), 30, 49),
        ],
    ),
    (
        "(),.*+-/=<><<=>>=",
        &[
            (Kind::Symbol(Symbol::Open), 0, 1),
            (Kind::Symbol(Symbol::Close), 1, 2),
            (Kind::Symbol(Symbol::Comma), 2, 3),
            (Kind::Symbol(Symbol::Dot), 3, 4),
            (Kind::Symbol(Symbol::Star), 4, 5),
            (Kind::Symbol(Symbol::Plus), 5, 6),
            (Kind::Symbol(Symbol::Minus), 6, 7),
            (Kind::Symbol(Symbol::Slash), 7, 8),
            (Kind::Symbol(Symbol::Equal), 8, 9),
            (Kind::Symbol(Symbol::Differ), 9, 11),
            (Kind::Symbol(Symbol::Less), 11, 12),
            (Kind::Symbol(Symbol::LessEqual), 12, 14),
            (Kind::Symbol(Symbol::More), 14, 15),
            (Kind::Symbol(Symbol::MoreEqual), 15, 17),
        ],
    ),
    (
        "abcdefghijabcdefghijabcdefghijab",
        &[(Kind::Name("abcdefghijabcdefghijabcdefghijab"), 0, 32)],
    ),
    (
        "0009223372036854775807 ''''",
        &[
            (Kind::Int(9_223_372_036_854_775_807), 0, 22),
            (Kind::Text("'"), 23, 27),
        ],
    ),
];

#[test]
fn texts_are_cut_into_tokens(rt: HostRuntime) -> Result<(), Fail> {
    for (text, wanted) in TEXTS {
        assert!(rt; is_cut_into(rt.alloc(), text, wanted), "{text}");
    }
    Ok(())
}

fn fault_of(alloc: Global, text: &str) -> Option<LexFault> {
    cut(alloc, text).err()
}

// Texts with the first place where no token begins.
const FAULTS: [(&str, u32); 13] = [
    ("a abcdefghijabcdefghijabcdefghijabc", 2),
    ("- 9223372036854775808", 2),
    ("0009223372036854775808", 0),
    (" 1a", 1),
    ("1_", 0),
    ("1é", 1),
    ("é", 0),
    ("aé", 1),
    ("a;", 1),
    ("''  'it''s", 4),
    ("a 'b''", 2),
    ("'", 0),
    ("a\nb", 1),
];

#[test]
fn faults_are_at_the_first_byte_of_no_token(rt: HostRuntime) -> Result<(), Fail> {
    for (text, at) in FAULTS {
        let found = fault_of(rt.alloc(), text);
        assert!(rt; found == Some(LexFault::BadText(at)), "{text}");
    }
    Ok(())
}

// How many bytes the content has, where the text is one quoted text.
fn content_len(alloc: Global, text: &str) -> Result<usize, LexFault> {
    let tokens = cut(alloc, text)?;
    match tokens.as_slice() {
        [
            Token {
                kind: TokenKind::Text(content),
                ..
            },
        ] => Ok(content.text().len()),
        _ => Ok(0),
    }
}

// A blank and so many times the piece between quotes, and how many bytes the content has.
const CONTENTS: [(&str, usize, Result<usize, LexFault>); 6] = [
    ("a", 1_024, Ok(1_024)),
    ("''", 1_024, Ok(1_024)),
    ("é", 512, Ok(1_024)),
    ("a", 1_025, Err(LexFault::BadText(1))),
    ("''", 1_025, Err(LexFault::BadText(1))),
    ("é", 513, Err(LexFault::BadText(1))),
];

#[test]
fn content_has_at_most_1024_bytes(rt: HostRuntime) -> Result<(), Fail> {
    for (piece, count, wanted) in CONTENTS {
        let text = text_of(rt.alloc(), &[(" '", 1), (piece, count), ("'", 1)])?;
        let found = content_len(rt.alloc(), text.as_str());
        assert!(rt; found == wanted, "{count} times {piece}");
    }
    Ok(())
}
