/// What became of a batch that came.
#[derive(Clone, Copy, Debug, PartialEq, Eq)]
pub enum Arrival {
    /// It wasn't there, and is held now.
    New,
    /// Its epoch is published, or a batch of its region and epoch is held.
    Known,
    /// Its epoch is above this limit, which is 64 epochs past the published one.
    Far(u64),
}
