//! Versions of rows, kept plainly: a list of all that there were.
ghost use Rattle.std.specs.Prelude.{◌≡◌};
ghost use Rattle.geo_base.specs.Order.{row_eq};

use geo_base::{Duplicate, Epoch, NoMemory, RowId, RowImage};
use std::alloc::Global;
use write_set::{Change, KeptVersions};

/// An image that a row had after each epoch from one to another.
#[derive(Drop)]
pub struct ImageFor {
    row: RowId,
    from: Epoch,
    upto: Epoch,
    image: RowImage,
}

/// All images of rows, and the epochs of which they are kept.
#[derive(Drop)]
pub struct PlainVersions {
    horizon: Epoch,
    applied: Epoch,
    images: Vec<ImageFor>,
}

impl PlainVersions {
    /// No rows, before the first epoch.
    pub fn empty(alloc: Global) -> PlainVersions {
        PlainVersions {
            horizon: 0,
            applied: 0,
            images: Vec::new(alloc),
        }
    }

    /// The next epoch, in which rows have the images that they had.
    pub fn next_epoch(&mut self) {
        self.applied = self.applied.saturating_add(1);
    }

    /// The row's image ends before the present epoch, and it has the one that the change leaves.
    pub fn change(&mut self, alloc: Global, row: &RowId, change: &Change) -> Result<(), NoMemory> {
        match change {
            Change::Put(image) => {
                self.end(row);
                self.images.push(ImageFor {
                    row: row.copy(alloc)?,
                    from: self.applied,
                    upto: Epoch::MAX,
                    image: image.copy(alloc)?,
                })?;
            }
            Change::Remove => self.end(row),
            Change::Touch => {}
        }
        Ok(())
    }

    fn end(&mut self, row: &RowId) {
        for held in &mut self.images {
            if held.row == *row && held.upto == Epoch::MAX {
                held.upto = self.applied.saturating_sub(1);
            }
        }
    }

    /// Moves the horizon to the epoch.
    pub fn trim(&mut self, horizon: Epoch) {
        self.horizon = horizon;
    }
}

impl KeptVersions for PlainVersions {
    ghost use Rattle.std.specs.Prelude.{ℕ, min, nat_le, ◌&&◌, Option, find};
    ghost use Rattle.std.specs.Option.{option_map};
    ghost use Rattle.geo_base.specs.declared.row_id.RowId.{RowId};

    ghost first_kept = { λ v. min v.horizon v.applied };

    ghost last_kept = { λ v. v.applied };

    ghost image_at = { λ v row epoch. option_map (λ i. i.image) (find (λ i. row_eq i.row row && (nat_le i.from epoch && nat_le epoch i.upto)) v.images.items) };

    fn horizon(&self) -> Epoch {
        self.horizon.min(self.applied)
    }

    fn applied(&self) -> Epoch {
        self.applied
    }

    fn read_at<'a>(&'a self, row: &RowId, epoch: Epoch) -> Option<&'a RowImage> {
        let found = self.images.iter().find(|held| held.row == *row
            && (held.from <= epoch && epoch <= held.upto));
        match found {
            Some(held) => Some(&held.image),
            None => None,
        }
    }
}
