//! Parses SQL statements.
//!
//! `parse` answers the statement that a text spells, or the fault that the text has, with its place in bytes:
//! each exactly where the grammar has it, want of memory apart. A bad token is told before anything else, and
//! of the grammar's faults the one further left. Every text spells one statement or has one fault, and what is
//! printed of a statement is read as that statement again.
//!
//! What a reader has to believe is `specs/Refusals.antt` with the grammar below it: the lines of expressions,
//! the forms of statements and the first places where tokens stop being one or an expression is too deep. How
//! the code reads, tokens once from the left and expressions without recursion, stands in `specs/inner`, and
//! the laws say that it comes to the same.
#![tactic(auto)]

mod cursor;
mod expression;
mod fault;
mod items;
mod kinds;
mod laws;
pub mod limits;
mod list;
mod names;
mod parsing;
mod query;
mod stack;
mod statement;
mod stop;
mod writes;

pub use fault::ParseFault;
pub use laws::{
    printed_statements_are_read_back, texts_are_read_by_the_grammar, texts_have_one_answer,
    tokens_are_read_by_the_grammar,
};
pub use parsing::parse;
