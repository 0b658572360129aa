//! What a seat knows. No value of these types is ever made: only rules and contracts speak of them.
use std::collections::LinkedList;

/// What a seat has drawn from one counter.
pub struct Draws {
    /// The numbers, in the order in which they were drawn.
    pub numbers: LinkedList<u32>,
    /// What its late draws gave: numbers that are not below the count of pieces.
    pub late: LinkedList<u64>,
}

/// What a seat knows and has done.
pub struct ClaimView {
    /// Whether the table has no plan yet.
    pub closed: bool,
    /// For each piece its pairs of a row and a claim's word.
    pub plan: LinkedList<LinkedList<(u32, u64)>>,
    /// How many draws of each counter may come too late.
    pub shares: u64,
    /// The pieces drawn for claiming.
    pub claiming: Draws,
    /// Those of them that aren't finished.
    pub pending: LinkedList<u32>,
    /// The pairs that were claimed.
    pub claims: LinkedList<(u32, u64)>,
    /// What each look at the done word gave.
    pub looks: LinkedList<u32>,
    /// Whether all pieces were seen finished.
    pub stable: bool,
    /// The pieces drawn for judging.
    pub judging: Draws,
    /// The plans of the seats that it took in.
    pub joined: LinkedList<LinkedList<LinkedList<(u32, u64)>>>,
}
