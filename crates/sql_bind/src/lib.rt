//! Statements over a schema: their names and types resolved, or the first refusal.
//!
//! `bind` answers the bound statement, or why there is none, exactly as the definition `bound_of` gives it,
//! want of memory apart. `specs/Statements.antt` and the files beside it are read like the order of binding:
//! the lines of each definition, from the first to the last, are the refusals from the first to the last.
//! Tables are found by name only where the schema shows them.
#![tactic(auto)]

mod bound;
mod conditions;
mod delete;
mod expressions;
mod fault;
mod insert;
mod items;
mod laws;
mod names;
mod orders;
mod scope;
mod select;
mod statement;
mod update;

pub use bound::{
    Bound, BoundDelete, BoundInsert, BoundSelect, BoundUpdate, ColumnNoList, ExprList, ExprRow,
    ExprRowList, Item, ItemList, SetTo, SetToList, Sort, SortBy, SortList, TableList,
};
pub use fault::BindFault;
pub use laws::{
    bound_statements_are_sound, bound_values_are_of_their_columns_types,
    rows_have_the_types_of_columns, want_of_memory_is_no_refusal,
};
pub use statement::bind;
