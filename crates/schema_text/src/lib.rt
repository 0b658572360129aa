//! Reads the texts that declare tables and indexes.
//!
//! `read_table` answers the table that a text spells, and `read_index` the index and the table it is on, and
//! each exactly where the text spells one; want of memory apart. Which texts do is said in
//! `specs/Spelling.antt`. Whether the tables are a schema with what is declared isn't asked here. How the code
//! reads stands in `specs/inner`, and laws of the crate say that it finds exactly what is spelled.
#![tactic(auto)]

mod column;
mod columns;
mod index;
mod laws;
mod listed;
mod mark;
mod table;

pub use index::read_index;
pub use laws::{index_texts_are_read, table_texts_are_read};
pub use table::read_table;
