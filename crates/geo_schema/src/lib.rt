//! The tables that every region knows: their columns, keys and indexes, the uniques and their hidden
//! tables, which rows fit them, and the ranges of keys that a statement reads.
//!
//! A [`Schema`] is made once, from tables and uniques that break no rule, and contracts then see it as
//! the list of the tables that it shows and the list of its uniques, each of which is the ground of a
//! hidden table. What is a table by the rules, a unique, a schema and a row is said in
//! `specs/Tables.antt`, `specs/Uniques.antt`, `specs/Schemas.antt` and `specs/Rows.antt`, and so is what
//! is wrong with what is none: a refusal names the first thing that is wrong, and comes exactly where it
//! is. Each table that a schema shows is one by the rules, and each hidden one has what rows need. How
//! faults are found stands in `specs/inner`, and laws of the crate say that exactly the faults that are
//! there are found; `specs/laws` has the lemmas for proofs above.
#![tactic(auto)]

mod alike;
mod column;
mod fault;
mod hidden;
mod index;
mod indexed;
mod laws;
pub mod limits;
mod range;
mod row_rule;
mod schema;
mod table;
mod table_rule;
mod unique;
mod unique_rule;

pub use column::{ColumnDef, ColumnList, Kind, PlaceList};
pub use fault::{CellFault, SchemaFault};
pub use index::{IndexDef, IndexList};
pub use indexed::index_cells;
pub use laws::{
    a_cell_suits_or_has_one_fault, cells_are_a_row_or_have_one_fault, faultless_cells_are_rows,
    faultless_tables_are_schemas, names_are_of_one_table, nothing_stands_twice,
    numbers_are_of_tables, tables_are_a_schema_or_have_one_fault, what_stands_twice_is_a_fault,
};
pub use range::{CellList, Edge, KeyRange};
pub use row_rule::{cell_fault, is_in};
pub use schema::Schema;
pub use table::TableDef;
pub use unique::UniqueDef;
