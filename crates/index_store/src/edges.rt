//! The edges of a range of an index, as borders between pairs.
ghost use Rattle.std.specs.Prelude.{◌≡◌};
ghost use Rattle.index_store.specs.inner.Edges.{beside_index};

use crate::pair::IndexPair;
use geo_base::TableNo;
use geo_schema::Edge;
use page_map::Border;
use std::cmp::Ordering;

/// How the pair's index compares with that of the table at the place.
fn beside_index(pair: &IndexPair, table: TableNo, index: u8) -> Ordering
    ensures { result ≡ beside_index table index pair.now }
{
    pair.table.cmp(&table).then(pair.index.cmp(&index))
}

/// The border in front of the pairs that lie in a range of an index.
#[derive(Drop)]
pub(crate) struct LowEdge<'a> {
    pub(crate) table: TableNo,
    pub(crate) index: u8,
    pub(crate) edge: &'a Edge,
}

impl<'a> Border<IndexPair> for LowEdge<'a> {
    ghost use Rattle.index_store.specs.inner.Edges.{is_before_low};

    ghost before = { λ border pair. is_before_low border.table border.index border.edge.now pair };

    fn comes_after(&self, pair: &IndexPair) -> bool {
        match beside_index(pair, self.table, self.index) {
            Ordering::Less => true,
            Ordering::Equal => !self.edge.is_from(pair.cells.items()),
            Ordering::Greater => false,
        }
    }
}

/// The border behind the pairs that lie in a range of an index.
#[derive(Drop)]
pub(crate) struct HighEdge<'a> {
    pub(crate) table: TableNo,
    pub(crate) index: u8,
    pub(crate) edge: &'a Edge,
}

impl<'a> Border<IndexPair> for HighEdge<'a> {
    ghost use Rattle.index_store.specs.inner.Edges.{is_before_high};

    ghost before = { λ border pair. is_before_high border.table border.index border.edge.now pair };

    fn comes_after(&self, pair: &IndexPair) -> bool {
        match beside_index(pair, self.table, self.index) {
            Ordering::Less => true,
            Ordering::Equal => self.edge.is_up_to(pair.cells.items()),
            Ordering::Greater => false,
        }
    }
}
