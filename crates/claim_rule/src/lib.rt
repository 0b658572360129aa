//! Claims that race for rows on words that all threads share, and the rule by which they become final.
//!
//! A table is made for one plan, which only contracts see: for each piece of work its pairs of a row and a
//! word. Its seats draw the pieces, claim their rows by the greatest word, and finish them, in any order and
//! each in its own thread. A seat that has seen all pieces finished reads from each header the greatest word
//! that the plan has for the row, or 0 (`header`), and draws pieces once more, to judge them. A number that a
//! seat draws is one that it lacked; that no two seats draw one number is told where they are joined (`join`).
//!
//! The signatures show that no call but `new` takes memory, and that none has a handle to wait by.
//!
//! `specs/Rule.antt` has what holds of the words between any two steps, `specs/Views.antt` the kinds of step,
//! and `specs/Seats.antt` the words of these contracts.
#![tactic(auto)]

pub mod limits;
mod plan;
mod plays;
mod seat;
mod seats;
mod size;
mod steps;
mod table;
#[cfg(test)]
mod tests;
mod view;

pub use plan::ClaimPlan;
pub use seat::ClaimSeat;
pub use table::ClaimTable;
