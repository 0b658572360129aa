use geo_base::CandId;

/// What the owner of a candidate asks for its outcome by.
#[derive(Clone, Copy, Debug, PartialEq, Eq)]
pub struct Ticket {
    /// The candidate.
    pub id: CandId,
    /// The region's life in which it was taken.
    pub life: u64,
}
