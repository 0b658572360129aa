//! Cuts an SQL text into tokens.
//!
//! A text is names, keywords, integers, quoted texts and symbols, with spaces and tabs between them.
//! `lex` answers the tokens of a text, each with the place of the bytes that spell it: the one way to
//! read the text as spelled tokens with nothing but blanks beside them, where each is as long as it can
//! be. Where there is no such way it answers the first place where a token would have to begin and none
//! does. Want of memory apart, each answer comes exactly where its cause is. What a reader has to believe
//! is `specs/Grammar.antt` with the bytes, keywords and symbols beside it; the laws say that the steps by
//! which the code cuts come to the same.
#![tactic(auto)]

mod bytes;
mod integer;
mod keyword;
mod laws;
mod quoted;
mod symbol;
mod token;
mod tokens;
mod word;

pub use keyword::Keyword;
pub use laws::{
    faults_are_where_no_token_begins, keywords_are_their_words, texts_have_one_answer,
    tokens_are_slices, tokens_are_the_text,
};
pub use symbol::Symbol;
pub use token::{LexFault, Token, TokenKind};
pub use tokens::lex;
