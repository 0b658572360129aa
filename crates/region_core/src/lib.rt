//! A region by the entries of its history: it takes candidates, seals, takes batches in, publishes, crashes and starts
//! again.
//!
//! A [`Region`] is seen as where it stands, which its entries decide, with the versions of rows that it keeps and what
//! became of its candidates (`specs/Region.antt`). `specs/Entries.antt` says what each entry makes of where it stands and
//! `specs/Publishing.antt` what it makes of the rest, `specs/Refusals.antt` what its calls refuse and in which order,
//! `specs/Calls.antt` what they answer and leave, `specs/Lawful.antt` what holds of every region, and
//! `specs/Journals.antt` what a region has to do with all that the regions have sealed, and `specs/Rounds.antt` what
//! rounds of its next epoch give. A [`Port`] is a region as a session reaches it (`specs/Ports.antt`).
//!
//! What is sealed stands in the region's log before the call that seals it answers, and a crash loses all but the log.
//! A call that is refused leaves everything as it was: what can fail comes first, and then what can't.
#![tactic(auto)]

mod arriving;
mod cells;
mod fault;
mod fetching;
mod laws;
mod port;
mod port_fault;
mod publish;
mod publishing;
mod reading;
mod region;
mod restarting;
mod room;
mod sealed;
mod sealing;
mod submitting;
mod ticket;
mod told;

pub use fault::{AsOfFault, BeginFault, FetchFault, RoundFault, SealFault, SubmitFault};
pub use laws::{
    entries_keep_standings, entries_make_regions, entries_stay_in_journals,
    next_outcomes_are_verdicts, others_may_seal, outcomes_stay, rounds_give_outcomes,
    seals_stay_journals, starts_stay_in_journals,
};
pub use port::Port;
pub use port_fault::{PortAsOfFault, PortFault, PortSubmitFault};
pub use publish::Publish;
pub use region::Region;
pub use sealed::Sealed;
pub use ticket::Ticket;
pub use told::{Polled, Told};
