ghost use Rattle.std.specs.Prelude.{◌≡◌};
ghost use Rattle.geo_schema.specs.Ranges.{beside, is_from, is_up_to, is_within};

use geo_base::{Cell, Many};
use std::cmp::Ordering;

/// Cells in an order, as those at the edge of a range.
pub type CellList = Many<Cell>;

/// An edge of a range of keys. Its cells are compared with as many of a key's first cells.
#[derive(Debug, Drop)]
pub enum Edge {
    /// There is no bound.
    Open,
    /// Keys that begin with these cells are within.
    Incl(CellList),
    /// Keys that begin with these cells are outside.
    Excl(CellList),
}

/// The keys between two edges.
#[derive(Debug, Drop)]
pub struct KeyRange {
    pub low: Edge,
    pub high: Edge,
}

/// How the key's first cells, as many as there are others, compare with the others.
fn beside(key: &[Cell], cells: &[Cell]) -> Ordering
    ensures { result ≡ beside key.now cells.now }
{
    let front = if cells.len() < key.len() {
        &key[..cells.len()]
    } else {
        key
    };
    front.cmp(&cells)
}

impl Edge {
    /// Whether the key isn't below the edge, which is the low one of a range.
    pub fn is_from(&self, key: &[Cell]) -> bool
        ensures { result ≡ is_from self.now key.now }
    {
        match self {
            Edge::Open => true,
            Edge::Incl(cells) => !beside(key, cells.items()).is_lt(),
            Edge::Excl(cells) => beside(key, cells.items()).is_gt(),
        }
    }

    /// Whether the key isn't past the edge, which is the high one of a range.
    pub fn is_up_to(&self, key: &[Cell]) -> bool
        ensures { result ≡ is_up_to self.now key.now }
    {
        match self {
            Edge::Open => true,
            Edge::Incl(cells) => !beside(key, cells.items()).is_gt(),
            Edge::Excl(cells) => beside(key, cells.items()).is_lt(),
        }
    }
}

impl KeyRange {
    /// Whether a key, or the cells of one in an index, lies between the edges.
    #[tactic(auto, unfolding(crate::specs::Ranges::is_within))]
    pub fn holds(&self, key: &[Cell]) -> bool
        ensures { result ≡ is_within self.now key.now }
    {
        self.low.is_from(key) && self.high.is_up_to(key)
    }
}
