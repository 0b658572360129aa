ghost use Rattle.std.specs.Prelude.{◌≡◌, ℕ, ◌≤◌, Option};
ghost use Rattle.std.specs.Option.{option_copied};
ghost use Rattle.geo_base.specs.declared.row_id.RowId.{RowId};
ghost use Rattle.geo_base.specs.declared.row_image.RowImage.{RowImage};

use geo_base::{Epoch, RowId, RowImage};

/// The rows as they were after each epoch from a horizon on: all that the upkeep of an index asks of them.
///
/// It is written for the versions of rows that a region keeps.
pub trait KeptVersions {
    /// The first of the epochs.
    ghost first_kept: { Self → ℕ };

    /// The last of the epochs.
    ghost last_kept: { Self → ℕ };

    /// The image of each row after each of the epochs, if there was such a row.
    ghost image_at: { Self → RowId → ℕ → Option RowImage };

    /// The first epoch after which rows can be read.
    fn horizon(&self) -> Epoch
        ensures epoch { result ≡ first_kept self.now }
        ensures some { first_kept self.now ≤ last_kept self.now };

    /// The last epoch after which rows can be read.
    fn applied(&self) -> Epoch
        ensures { result ≡ last_kept self.now };

    /// The image of the row after the epoch, None where there was no such row.
    fn read_at<'a>(&'a self, row: &RowId, epoch: Epoch) -> Option<&'a RowImage>
        requires from { first_kept self.now ≤ epoch }
        requires upto { epoch ≤ last_kept self.now }
        ensures { option_copied result ≡ image_at self.entry.now row.now epoch };
}
