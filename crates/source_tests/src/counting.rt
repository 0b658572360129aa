//! That a counter rises by exactly what is handed out.
ghost use Rattle.std.specs.Prelude.{◌≡◌, ◌+◌, ◌++◌, ◌<◌, length, map, IfOk};
ghost use Rattle.geo_schema.specs.Indexes.{HasIndex};
ghost use Rattle.row_source.specs.Sources.{images_by_key, listed};
ghost use Rattle.write_set.specs.Overlay.{image_in};

use geo_base::{RowId, RowImage};
use geo_schema::KeyRange;
use row_source::{ListSource, RowSource, Steps};
use std::alloc::Global;
use std::sync::ledger::Ledger;
use std::test::Fail;

/// The rows of a named row's table in the range, and behind them that row if there is one, of any source.
pub fn read<'a, R: RowSource, L: Ledger>(
    alloc: Global,
    source: &'a R,
    row: &RowId,
    range: &KeyRange,
    steps: &mut Steps<L>,
) -> Result<Vec<&'a RowImage>, Fail>
    ensures images { IfOk result (λ found. map (λ image. image.now) found.items ≡ images_by_key row.now.table range.now (R.rows source.entry.now) ++ listed (image_in (R.rows source.entry.now) row.now)) }
    ensures steps { IfOk result (λ found. steps.new ≡ steps.old + length found.items) }
{
    let mut found = source.key_range(alloc, row.table, range, steps)?;
    if let Some(image) = source.get(row, steps) {
        found.push(image)?;
    }
    Ok(found)
}

/// How many rows are handed out for a name, and of its table for a range of keys and of the first index.
pub fn handed_out<L: Ledger>(
    alloc: Global,
    source: &ListSource,
    row: &RowId,
    range: &KeyRange,
    steps: &mut Steps<L>,
) -> Result<usize, Fail>
    requires { HasIndex source.now.tables row.now.table 0 }
    ensures { IfOk result (λ count. steps.new ≡ steps.old + count) }
{
    let named = usize::from(source.get(row, steps).is_some());
    let ranged = source.key_range(alloc, row.table, range, steps)?.len();
    let indexed = source.index_range(alloc, row.table, 0, range, steps)?.len();
    Ok(named + ranged + indexed)
}
