//! Where a statement's rows come from, and how many of them it was handed.
//!
//! A [`RowSource`] is a list of rows in rising order. It is asked for one row, for the rows of a table whose
//! keys lie in a range, and for those whose cells in an index do; what it hands out is that part of the list
//! (`specs/Sources.antt`), and a counter rises by just as many [`Steps`]. [`ListSource`] is the plain one.
//! The types of plans, of pairs of rows and of the faults of statements stand here too, and how an expression
//! or a condition is evaluated with these faults, since the crates that choose plans, that join and that group
//! all speak of them.
#![tactic(auto)]

mod evaluation;
mod fault;
mod laws;
mod list_source;
mod pair;
mod plan;
mod source;
mod steps;

pub use evaluation::{passes, value};
pub use fault::ExecFault;
pub use laws::{names_are_of_one_row, points_have_one_row};
pub use list_source::{ListSource, RowImageAt};
pub use pair::Pair;
pub use plan::{Access, JoinKind, KeyPart, KeyPartList, Plan, Second};
pub use source::RowSource;
pub use steps::Steps;
