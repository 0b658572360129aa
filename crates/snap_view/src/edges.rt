//! The edges of a range of a table's keys, as borders between rows.
ghost use Rattle.std.specs.Prelude.{◌≡◌};

use geo_base::{RowId, TableNo};
use geo_schema::Edge;
use std::cmp::Ordering;
use version_store::Border;

/// The border in front of the rows of a table whose keys lie in a range.
#[derive(Drop)]
pub(crate) struct LowEdge<'a> {
    pub(crate) table: TableNo,
    pub(crate) edge: &'a Edge,
}

impl<'a> Border<RowId> for LowEdge<'a> {
    ghost use Rattle.snap_view.specs.inner.Edges.{is_before_low};

    ghost before = { λ border row. is_before_low border.table border.edge.now row };

    fn comes_after(&self, row: &RowId) -> bool {
        match row.table.cmp(&self.table) {
            Ordering::Less => true,
            Ordering::Equal => !self.edge.is_from(row.key.cells()),
            Ordering::Greater => false,
        }
    }
}

/// The border behind the rows of a table whose keys lie in a range.
#[derive(Drop)]
pub(crate) struct HighEdge<'a> {
    pub(crate) table: TableNo,
    pub(crate) edge: &'a Edge,
}

impl<'a> Border<RowId> for HighEdge<'a> {
    ghost use Rattle.snap_view.specs.inner.Edges.{is_before_high};

    ghost before = { λ border row. is_before_high border.table border.edge.now row };

    fn comes_after(&self, row: &RowId) -> bool {
        match row.table.cmp(&self.table) {
            Ordering::Less => true,
            Ordering::Equal => self.edge.is_up_to(row.key.cells()),
            Ordering::Greater => false,
        }
    }
}
