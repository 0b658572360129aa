//! The pair of a row in an index, and whether two images of the row have one.
ghost use Rattle.std.specs.Prelude.{◌≡◌, Some, map, slice_index_or, IfOk};
ghost use Rattle.std.specs.Option.{option_copied, unwrap_or};
ghost use Rattle.geo_base.specs.Order.{cell_eq, cells_eq};
ghost use Rattle.geo_base.specs.declared.cell.Cell.TheVariants as null;
ghost use Rattle.index_store.specs.inner.Following.{are_alike, pair_in};

use crate::pair::IndexPair;
use geo_base::{Cell, Duplicate, NoMemory, RowId, RowImage};
use geo_schema::{CellList, IndexDef, index_cells};
use std::alloc::Global;

/// The pair of the row with the image, in the index at the place.
pub(crate) fn pair_of(
    alloc: Global,
    row: &RowId,
    place: u8,
    index: &IndexDef,
    image: &RowImage,
) -> Result<IndexPair, NoMemory>
    ensures { IfOk result (λ pair. pair_in row.now place index.now (Some image.now) ≡ Some pair) }
{
    let cells = index_cells(alloc, index, image.cells())?;
    Ok(IndexPair {
        table: row.table,
        index: place,
        cells: CellList::new(cells),
        key: row.key.copy(alloc)?,
    })
}

/// Whether a row has the same cells in the index with both images, or there is no row with both. Takes no memory.
pub(crate) fn are_alike(index: &IndexDef, a: Option<&RowImage>, b: Option<&RowImage>) -> bool
    ensures { result ≡ are_alike index.now (option_copied a.entry) (option_copied b.entry) }
{
    match (a, b) {
        (Some(a), Some(b)) => have_same_cells(index.columns.items(), a.cells(), b.cells()),
        (None, None) => true,
        _ => false,
    }
}

/// Whether two rows have the same cells at the places.
fn have_same_cells(places: &[u8], a: &[Cell], b: &[Cell]) -> bool
    ensures { result ≡ cells_eq (map (λ place. slice_index_or a.now place null.Null) places.now) (map (λ place. slice_index_or b.now place null.Null) places.now) }
{
    for place in places {
        if !is_same_cell(a.get(usize::from(*place)), b.get(usize::from(*place))) {
            return false;
        }
    }
    true
}

/// Whether two cells are one, where one that is lacking counts as NULL.
fn is_same_cell(a: Option<&Cell>, b: Option<&Cell>) -> bool
    ensures { result ≡ cell_eq (unwrap_or (option_copied a.entry) null.Null) (unwrap_or (option_copied b.entry) null.Null) }
{
    match (a, b) {
        (Some(a), Some(b)) => a == b,
        (Some(cell), None) | (None, Some(cell)) => cell.is_null(),
        (None, None) => true,
    }
}
