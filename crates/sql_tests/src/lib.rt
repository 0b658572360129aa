//! Tests of statements as texts: tokens, trees, canonical texts, and where a text stops being a statement.
//!
//! They use only what `sql_lex`, `sql_ast` and `sql_parse` offer. What is wanted is worked by hand from the
//! grammars of tokens and of statements.
#![tactic(auto)]

#[cfg(test)]
mod depth;
#[cfg(test)]
mod faults;
#[cfg(test)]
mod keywords;
#[cfg(test)]
mod long_statements;
#[cfg(test)]
mod parsed;
#[cfg(test)]
mod pieces;
#[cfg(test)]
mod prefixes;
#[cfg(test)]
mod statements;
#[cfg(test)]
mod tokens;
#[cfg(test)]
mod trees;
