//! The merge of one epoch: its candidates claim their rows on words that all workers share, and are judged by
//! what the words are in the end.
//!
//! A round is made of the epoch's batches and of what is known of the rows' last changes. Its seats claim
//! for the candidates (`claim_next`) and then judge them (`judge_next`), in any order and each in its own
//! thread; [`MergeRound::gather`] ends the round, or [`MergeRound::finish`] where one thread has all seats.
//! These two alone make a [`Judged`]: the outcomes that comparing each candidate with each other gives, though
//! the round compares no two. Each verdict that a seat tells is that one.
//!
//! `specs/Rounds.antt` has the round, its plan of claims and its verdicts, `specs/Seats.antt` what a seat
//! does and holds. The functions of `laws` say that the greatest word of a row decides as comparing does,
//! that a round of a journal's epoch gives the journal's verdicts, that numbers and rows name one another, and
//! that seats with equal shares serve for one another.
#![tactic(auto)]

mod claiming;
mod fault;
mod finishing;
mod gathering;
mod input;
mod judged;
mod judging;
mod laws;
pub mod limits;
mod looking;
mod making;
mod numbering;
mod round;
mod seat;
mod verdict;

pub use claiming::Claimed;
pub use fault::GatherFault;
pub use input::{BatchList, RoundInput};
pub use judged::Judged;
pub use judging::Judgement;
pub use laws::{
    equal_shares_serve, final_words_decide, numbers_name_rows, rounds_judge_as_journals,
    serving_changes_judge_alike,
};
pub use round::MergeRound;
pub use seat::WorkerSeat;
pub use verdict::Verdict;
