use geo_base::CandId;

/// Where a session of a region stands.
#[derive(Clone, Copy)]
pub enum Session {
    /// It takes a statement.
    Idle,
    /// It waits for the verdict on its candidate.
    Pending(CandId),
}
