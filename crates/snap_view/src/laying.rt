//! Laying own writes over rows.
ghost use Rattle.std.specs.Prelude.{◌≡◌, ◌≤◌, ◌++◌, List, length, map, drop, IfOk, OnOk};
ghost use Rattle.std.specs.Option.{option_copied};
ghost use Rattle.row_source.specs.Sources.{images};
ghost use Rattle.write_set.specs.Overlay.{overlay};
ghost use Rattle.write_set.specs.Sets.{ChangeOfRow, Rises};
ghost use Rattle.snap_view.specs.inner.Laying.{AreFrom, StartsFrom, behind, leaving};

use geo_base::{NoMemory, RowId, RowImage};
use std::alloc::Global;

/// The images of the rows with what own writes leave laid over them, in rising order of rows. Takes memory for the
/// answer, and a step for each row and each write.
pub(crate) fn laid_over<'a>(
    alloc: Global,
    rows: &[(&RowId, &'a RowImage)],
    left: &[(&RowId, Option<&'a RowImage>)],
) -> Result<Vec<&'a RowImage>, NoMemory>
    requires rows { Rises (map (λ p. (p.0.now, p.1.now)) rows.now) }
    requires left { Rises (map (λ p. (p.0.now, leaving (option_copied p.1))) left.now) }
    ensures { IfOk result (λ found. map (λ image. image.now) found.items ≡ images (overlay (map (λ p. (p.0.now, p.1.now)) rows.entry.now) (map (λ p. (p.0.now, leaving (option_copied p.1))) left.entry.now))) }
{
    let mut found = Vec::new(alloc);
    let mut place = 0;
    for write in left {
        place = add_below(&mut found, rows, place, write.0)?;
        place = place_behind(rows, place, write.0);
        if let Some(image) = write.1 {
            found.push(image)?;
        }
    }
    add_rest(&mut found, rows, place)?;
    Ok(found)
}

/// Adds the images of the rows from the place on that are below the row, and answers the place of the first that isn't.
fn add_below<'a>(
    found: &mut Vec<&'a RowImage>,
    rows: &[(&RowId, &'a RowImage)],
    place: usize,
    row: &RowId,
) -> Result<usize, NoMemory>
    requires { place ≤ length rows.now }
    ensures within { IfOk result (λ next. next ≤ length rows.entry.now) }
    ensures from { IfOk result (λ next. StartsFrom row.now (drop next (map (λ p. (p.0.now, p.1.now)) rows.entry.now))) }
    ensures rest { IfOk result (λ next. (own : List ChangeOfRow) → AreFrom row.now own →
        map (λ image. image.now) found.new.items ++ images (overlay (drop next (map (λ p. (p.0.now, p.1.now)) rows.entry.now)) own)
        ≡ map (λ image. image.now) found.old.items ++ images (overlay (drop place (map (λ p. (p.0.now, p.1.now)) rows.entry.now)) own)) }
{
    let mut next = place;
    while next < rows.len() && rows[next].0.cmp(row).is_lt() {
        found.push(rows[next].1)?;
        next += 1;
    }
    Ok(next)
}

/// The place behind the row, where it stands at the place.
fn place_behind(rows: &[(&RowId, &RowImage)], place: usize, row: &RowId) -> usize
    requires { place ≤ length rows.now }
    ensures within { result ≤ length rows.now }
    ensures rest { drop result (map (λ p. (p.0.now, p.1.now)) rows.now) ≡ behind row.now (drop place (map (λ p. (p.0.now, p.1.now)) rows.now)) }
{
    if place < rows.len() && rows[place].0.cmp(row).is_eq() {
        return place + 1;
    }
    place
}

/// Adds the images of the rows from the place on.
fn add_rest<'a>(
    found: &mut Vec<&'a RowImage>,
    rows: &[(&RowId, &'a RowImage)],
    place: usize,
) -> Result<(), NoMemory>
    requires { place ≤ length rows.now }
    ensures { OnOk result (map (λ image. image.now) found.new.items ≡ map (λ image. image.now) found.old.items ++ images (drop place (map (λ p. (p.0.now, p.1.now)) rows.entry.now))) }
{
    for row in &rows[place..] {
        found.push(row.1)?;
    }
    Ok(())
}
