use geo_base::{Epoch, Outcome};

/// What a ticket's owner is told.
#[derive(Clone, Copy, Debug)]
pub enum Told<'a> {
    /// What became of the candidate.
    Outcome(&'a Outcome),
    /// Its epoch isn't published: the published one is this, and below it.
    NotYet(Epoch),
    /// The region has crashed since it gave the ticket.
    Gone,
}

/// The same, with a copy of the outcome.
#[derive(Debug, Drop)]
pub enum Polled {
    /// What became of the candidate.
    Outcome(Outcome),
    /// Its epoch isn't published: the published one is this, and below it.
    NotYet(Epoch),
    /// The region has crashed since it gave the ticket.
    Gone,
}
