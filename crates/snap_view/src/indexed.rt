//! Whether a row's cells in an index lie in a range. They are compared where they stand, and none is copied.
ghost use Rattle.std.specs.Prelude.{◌≡◌, map, slice_index_or};
ghost use Rattle.std.specs.Option.{option_copied};
ghost use Rattle.geo_base.specs.Order.{cell_cmp};
ghost use Rattle.geo_base.specs.declared.cell.Cell.TheVariants as null;
ghost use Rattle.geo_schema.specs.Indexes.{index_cells};
ghost use Rattle.geo_schema.specs.Ranges.{beside, is_from, is_up_to, is_within};
ghost use Rattle.snap_view.specs.inner.Laying.{within};

use geo_base::{Cell, RowImage};
use geo_schema::{Edge, IndexDef, KeyRange};
use std::cmp::Ordering;

/// How the row's cell at the place compares with the other, where one that is lacking counts as NULL.
fn cell_beside(row: &[Cell], place: u8, other: &Cell) -> Ordering
    ensures { result ≡ cell_cmp (slice_index_or row.now place null.Null) other.now }
{
    match row.get(usize::from(place)) {
        Some(cell) => cell.cmp(other),
        None => Cell::Null.cmp(other),
    }
}

/// How the row's cells at the places, the first as many as there are others, compare with the others.
fn beside(places: &[u8], row: &[Cell], cells: &[Cell]) -> Ordering
    ensures { result ≡ beside (map (λ place. slice_index_or row.now place null.Null) places.now) cells.now }
{
    let mut at = 0;
    for cell in cells {
        if at == places.len() {
            return Ordering::Less;
        }
        let order = cell_beside(row, places[at], cell);
        if !order.is_eq() {
            return order;
        }
        at += 1;
    }
    Ordering::Equal
}

/// Whether the row's cells in the index aren't below the edge, which is the low one of a range.
fn is_from(edge: &Edge, index: &IndexDef, row: &[Cell]) -> bool
    ensures { result ≡ is_from edge.now (index_cells index.now row.now) }
{
    match edge {
        Edge::Open => true,
        Edge::Incl(cells) => !beside(index.columns.items(), row, cells.items()).is_lt(),
        Edge::Excl(cells) => beside(index.columns.items(), row, cells.items()).is_gt(),
    }
}

/// Whether the row's cells in the index aren't past the edge, which is the high one of a range.
fn is_up_to(edge: &Edge, index: &IndexDef, row: &[Cell]) -> bool
    ensures { result ≡ is_up_to edge.now (index_cells index.now row.now) }
{
    match edge {
        Edge::Open => true,
        Edge::Incl(cells) => !beside(index.columns.items(), row, cells.items()).is_gt(),
        Edge::Excl(cells) => beside(index.columns.items(), row, cells.items()).is_lt(),
    }
}

/// Whether the row's cells in the index lie in the range.
#[tactic(auto, unfolding(geo_schema::specs::Ranges::is_within))]
fn lies_within(index: &IndexDef, range: &KeyRange, row: &[Cell]) -> bool
    ensures { result ≡ is_within range.now (index_cells index.now row.now) }
{
    is_from(&range.low, index, row) && is_up_to(&range.high, index, row)
}

/// The image, where its cells in the index lie in the range. Takes no memory.
pub(crate) fn image_within<'a>(
    index: &IndexDef,
    range: &KeyRange,
    image: &'a RowImage,
) -> Option<&'a RowImage>
    ensures { option_copied result ≡ within index.now range.now image.entry.now }
{
    if lies_within(index, range, image.cells()) {
        return Some(image);
    }
    None
}
