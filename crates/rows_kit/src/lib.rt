//! Tables, their rows and a transaction's net, read of texts, and the net laid over the rows. It serves tests alone.
#![tactic(auto)]

mod cells;
mod laying;
mod nets;
mod rows;
mod tables;

pub use cells::cells_of;
pub use laying::{Laid, lay_over};
pub use nets::net_of;
pub use rows::{are_rows, rows_of};
pub use tables::{schema_of, tables_of};
