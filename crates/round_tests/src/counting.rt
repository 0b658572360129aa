//! Last changes that count how often they are asked for.
ghost use Rattle.std.specs.Prelude.{◌<◌};

use geo_base::{Cell, Epoch, RowId};
use std::sync::atomic::{AtomicU64, Ordering};
use write_set::Changes;

/// How often the last change of each row was asked for: the row whose key is `n`, below 16, counts in units
/// of `16^n`.
#[derive(Drop)]
pub struct Asked {
    counts: AtomicU64,
}

/// The place of a row's count among the bits.
fn shift_of(key: u8) -> u32
    ensures { result < 64 }
{
    u32::from(key % 16) * 4
}

/// What one more call for the row counts for.
fn unit_of(key: u8) -> u64 {
    1u64 << shift_of(key)
}

fn key_of(row: &RowId) -> u8 {
    match row.key.cells().first() {
        Some(Cell::Int(key)) => u8::try_from(*key).unwrap_or(0),
        _ => 0,
    }
}

impl Asked {
    pub fn new() -> Asked {
        Asked {
            counts: AtomicU64::new(0),
        }
    }

    /// Takes off one call for the row of this key, if there was one.
    pub fn forgive(&self, key: u8) {
        if (self.left() >> shift_of(key)) % 16 > 0 {
            self.counts.fetch_sub(unit_of(key), Ordering::SeqCst);
        }
    }

    /// The calls that weren't taken off.
    pub fn left(&self) -> u64 {
        self.counts.load(Ordering::SeqCst)
    }
}

/// The row was last changed in this epoch, and no other row ever was.
#[derive(Drop)]
pub struct Counting<'a> {
    pub row: RowId,
    pub epoch: Epoch,
    pub asked: &'a Asked,
}

impl Changes for Counting<'_> {
    ghost use Rattle.std.specs.Prelude.{cond};
    ghost use Rattle.geo_base.specs.Order.{row_eq};

    ghost last = { λ c row. cond (row_eq c.row row) c.epoch 0 };

    fn last_change(&self, row: &RowId) -> Epoch {
        let unit = unit_of(key_of(row));
        self.asked.counts.fetch_add(unit, Ordering::SeqCst);
        if self.row == *row { self.epoch } else { 0 }
    }
}
