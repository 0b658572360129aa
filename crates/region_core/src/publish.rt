use geo_base::Epoch;

/// What became of the verdicts of an epoch.
#[derive(Clone, Copy, Debug, PartialEq, Eq)]
pub enum Publish {
    /// The epoch is published now: so many of its candidates commit, and so many don't.
    Published {
        epoch: Epoch,
        commits: u32,
        aborts: u32,
    },
    /// It was published already: the published epoch is this one.
    Already(Epoch),
}
