//! Rows with the net of a transaction laid over them.
ghost use Rattle.std.specs.Prelude.{◌≡◌, IfOk, OnOk};
ghost use Rattle.row_source.specs.Lists.{table_of};
ghost use Rattle.write_set.specs.Overlay.{changed, overlay};
ghost use Rattle.write_set.specs.Sets.{Rises};

use geo_base::{Duplicate, NoMemory, RowId, RowImage};
use row_source::RowImageAt;
use std::alloc::Global;
use std::collections::BTreeMap;
use write_set::{Change, WriteSet};

/// Images by their rows.
type Images = BTreeMap<RowId, RowImage>;

/// Rows as they are without the transaction's net, and as they are with it.
#[derive(Drop)]
pub struct Laid {
    pub base: Vec<RowImageAt>,
    pub rows: Vec<RowImageAt>,
}

/// The same images twice.
#[derive(Drop)]
struct Twice {
    base: Images,
    rows: Images,
}

fn images_twice(alloc: Global, rows: Vec<RowImageAt>) -> Result<Twice, NoMemory>
    ensures { IfOk result (λ t. t.base.entries ≡ t.rows.entries) }
{
    let mut base = BTreeMap::new(alloc);
    let mut same = BTreeMap::new(alloc);
    for at in rows {
        base.insert(at.row.copy(alloc)?, at.image.copy(alloc)?)?;
        same.insert(at.row, at.image)?;
    }
    Ok(Twice { base, rows: same })
}

/// Makes the change of the row.
fn make(alloc: Global, images: &mut Images, row: &RowId, change: &Change) -> Result<(), NoMemory>
    ensures { OnOk result (images.new.entries ≡ changed (row.now, change.now) images.old.entries) }
{
    match change {
        Change::Put(image) => {
            images.insert(row.copy(alloc)?, image.copy(alloc)?)?;
        }
        Change::Remove => {
            images.remove(row);
        }
        Change::Touch => {}
    }
    Ok(())
}

/// Makes all changes of a net.
fn make_all(alloc: Global, images: &mut Images, changes: &[(RowId, Change)]) -> Result<(), NoMemory>
    ensures { OnOk result (images.new.entries ≡ overlay images.old.entries changes.now) }
{
    for (row, change) in changes {
        make(alloc, images, row, change)?;
    }
    Ok(())
}

fn in_order(alloc: Global, images: Images) -> Result<Vec<(RowId, RowImage)>, NoMemory>
    ensures rows { IfOk result (λ rows. rows.items ≡ images.entries) }
    ensures rising { IfOk result (λ rows. Rises rows.items) }
{
    let rows = images.into_iter().collect(alloc)?;
    Ok(rows)
}

fn listed(alloc: Global, images: Images) -> Result<Vec<RowImageAt>, NoMemory>
    ensures rows { IfOk result (λ rows. table_of rows.items ≡ images.entries) }
    ensures rising { IfOk result (λ rows. Rises (table_of rows.items)) }
{
    let mut rows = Vec::new(alloc);
    for (row, image) in in_order(alloc, images)? {
        rows.push(RowImageAt { row, image })?;
    }
    Ok(rows)
}

/// The rows, and with the net laid over them.
pub fn lay_over(alloc: Global, rows: Vec<RowImageAt>, own: &WriteSet) -> Result<Laid, NoMemory>
    ensures laid { IfOk result (λ l. table_of l.rows.items ≡ overlay (table_of l.base.items) own.now) }
    ensures base { IfOk result (λ l. Rises (table_of l.base.items)) }
    ensures rows { IfOk result (λ l. Rises (table_of l.rows.items)) }
{
    let mut twice = images_twice(alloc, rows)?;
    make_all(alloc, &mut twice.rows, own.changes())?;
    let base = listed(alloc, twice.base)?;
    let rows = listed(alloc, twice.rows)?;
    Ok(Laid { base, rows })
}
