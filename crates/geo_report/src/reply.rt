use crate::refusal::Refusal;
use geo_base::{CandId, Epoch, Line, Many, Outcome, Txt};

/// The lines of an answer, in their order.
pub type LineList = Many<Line>;

/// The lines of a plan, in their order.
pub type TextList = Many<Txt>;

/// What a session is told.
#[derive(Drop)]
pub enum Reply {
    /// A transaction began on the snapshot of the epoch.
    Begun(Epoch),
    /// A transaction that only reads began on the snapshot of the epoch.
    Reading(Epoch),
    /// So many rows were changed by a statement of a transaction, or none by a statement alone.
    Changed(u32),
    /// So many rows were changed by a statement alone, whose candidate has this ticket.
    ChangedTicket(u32, CandId),
    /// The transaction's candidate has this ticket.
    Ticket(CandId),
    /// The transaction ended, and had written nothing.
    ReadOnly,
    RolledBack,
    /// The lines of a query.
    Rows(LineList),
    /// The lines of a query's plan.
    Plan(TextList),
    Refused(Refusal),
    /// What became of the candidate, whose ticket is of the epoch.
    Told(Epoch, Outcome),
    /// The candidate has no verdict yet: this epoch is the last one published.
    Pending(Epoch),
    /// The candidate was lost, or its verdict, by a crash.
    Gone,
    /// The session waits for no verdict.
    NoTicket,
}
