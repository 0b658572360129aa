//! Expressions over a row, with three truths.
//!
//! `eval` answers the value of an expression over the cells of a left and a right table, or its fault,
//! exactly as the definition `value_of` gives it, want of memory apart: NULL goes through arithmetic and
//! comparisons, AND, OR and NOT go by Kleene's tables, and a fault is the first in the order of evaluation.
//! `keeps` says whether a row passes a list of conditions, of which none is evaluated behind the first that
//! isn't true. Neither asks that an expression has a type; the value of one that has is of that type, over
//! a row whose cells are of their columns' types. Which types operators take, and what they give, is said
//! by `takes` and the calls beside it, a level of an expression at a time.
#![tactic(auto)]

mod arithmetic;
mod comparison;
mod condition;
mod evaluation;
mod expr;
mod fault;
mod laws;
mod truth;
mod typing;
mod value;
mod value_type;

pub use condition::keeps;
pub use evaluation::eval;
pub use expr::{Expr, Op, Test};
pub use fault::EvalFault;
pub use laws::{
    faults_are_of_first_steps, kept_rows_pass_every_test, left_faults_win, not_turns_and_into_or,
    not_twice_changes_nothing, settled_sides_spare_the_right, values_are_of_their_types,
    want_of_memory_is_no_fault,
};
pub use typing::{compared_operands, literal_type, one_operand, takes, two_operands};
pub use value_type::ValueType;
