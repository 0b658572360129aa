//! The net of a transaction as a text: a change a line, each of a row of its own, `+ ROW` for a put, `- ROW` for a removal
//! and `= ROW` for a touch, with the row as a row is written.
ghost use Rattle.std.specs.Prelude.{◌≡◌, true, IsTrue};
ghost use Rattle.std.specs.List.{All};

use crate::rows::row_of;
use geo_schema::Schema;
use row_source::RowImageAt;
use std::alloc::Global;
use std::test::Fail;
use write_set::{Change, RowChange, WriteSet};

fn change_of(sign: &str, at: RowImageAt) -> Result<RowChange, Fail> {
    let RowImageAt { row, image } = at;
    let change = match sign {
        "+" => Change::Put(image),
        "-" => Change::Remove,
        "=" => Change::Touch,
        _ => return Err("a change without a sign".into()),
    };
    Ok(RowChange {
        row,
        before: true,
        change,
    })
}

fn changes_of(alloc: Global, schema: &Schema, text: &str) -> Result<Vec<RowChange>, Fail> {
    let mut changes = Vec::new(alloc);
    for line in text.lines() {
        let (sign, row) = line.split_once(' ').ok_or("a change without a row")?;
        changes.push(change_of(sign, row_of(alloc, schema, row)?)?)?;
    }
    Ok(changes)
}

/// Whether the snapshot has each of the rows.
fn are_known(changes: &[RowChange]) -> bool
    ensures { IsTrue result → All (λ c. c.before ≡ true) changes.now }
{
    changes.iter().all(|change| change.before)
}

/// The net of the changes of a text.
pub fn net_of(alloc: Global, schema: &Schema, text: &str) -> Result<WriteSet, Fail> {
    let changes = changes_of(alloc, schema, text)?;
    if are_known(&changes) {
        Ok(WriteSet::empty(alloc).with(alloc, changes)?)
    } else {
        Err("a touch of no row".into())
    }
}
