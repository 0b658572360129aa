//! What a transaction's own writes leave of the rows in a range.
ghost use Rattle.std.specs.Prelude.{◌≡◌, map, IfOk};
ghost use Rattle.std.specs.Option.{option_copied};
ghost use Rattle.page_map.specs.Borders.{pairs_between};
ghost use Rattle.write_set.specs.Sets.{Rises};
ghost use Rattle.snap_view.specs.inner.Edges.{is_before_high, is_before_low};
ghost use Rattle.snap_view.specs.inner.Laying.{all_within, alterations, leaving, left_within};

use crate::edges::{HighEdge, LowEdge};
use crate::indexed::image_within;
use geo_base::{NoMemory, RowId, RowImage};
use geo_schema::{IndexDef, KeyRange};
use std::alloc::Global;
use version_store::Border;
use write_set::Change;

/// The writes from the low edge of a range of a table's keys to its high one. The searches are by halving.
pub(crate) fn writes_between<'a>(
    own: &'a [(RowId, Change)],
    low: &LowEdge,
    high: &HighEdge,
) -> &'a [(RowId, Change)]
    requires { Rises own.now }
    ensures { result.now ≡ pairs_between (is_before_low low.now.table low.now.edge.now) (is_before_high high.now.table high.now.edge.now) own.entry.now }
{
    let first = own.partition_point(|write| low.comes_after(&write.0));
    let last = own.partition_point(|write| high.comes_after(&write.0));
    if first < last {
        &own[first..last]
    } else {
        &own[..0]
    }
}

/// The writes but touches, each as the image that it leaves.
pub(crate) fn images_left<'a>(
    alloc: Global,
    own: &'a [(RowId, Change)],
) -> Result<Vec<(&'a RowId, Option<&'a RowImage>)>, NoMemory>
    ensures { IfOk result (λ left. map (λ p. (p.0.now, leaving (option_copied p.1))) left.items ≡ alterations own.entry.now) }
{
    let mut left = Vec::new(alloc);
    for write in own {
        match &write.1 {
            Change::Put(image) => left.push((&write.0, Some(image)))?,
            Change::Remove => left.push((&write.0, None))?,
            Change::Touch => {}
        }
    }
    Ok(left)
}

/// What is left in the range of an index: of each row the image, where its cells in the index lie in the range. Takes
/// memory for the answer alone.
pub(crate) fn left_by_index<'w, 'a>(
    alloc: Global,
    index: &IndexDef,
    range: &KeyRange,
    left: &[(&'w RowId, Option<&'a RowImage>)],
) -> Result<Vec<(&'w RowId, Option<&'a RowImage>)>, NoMemory>
    ensures { IfOk result (λ found. map (λ p. (p.0.now, leaving (option_copied p.1))) found.items ≡ all_within index.now range.now (map (λ p. (p.0.now, leaving (option_copied p.1))) left.now)) }
{
    let mut found = Vec::with_capacity(alloc, left.len())?;
    for write in left {
        found.push((write.0, left_in(index, range, write.1)))?;
    }
    Ok(found)
}

/// The image, where there is one whose cells in the index lie in the range.
fn left_in<'a>(
    index: &IndexDef,
    range: &KeyRange,
    image: Option<&'a RowImage>,
) -> Option<&'a RowImage>
    ensures { leaving (option_copied result) ≡ left_within index.now range.now (leaving (option_copied image.entry)) }
{
    match image {
        Some(image) => image_within(index, range, image),
        None => None,
    }
}
