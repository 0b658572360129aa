ghost use Rattle.std.specs.Prelude.{◌≡◌, ℕ};
ghost use Rattle.geo_base.specs.declared.row_id.RowId.{RowId};

use geo_base::{Epoch, RowId};

/// What is known of when rows were last changed: all that a round of a merge asks of the epochs before it.
pub trait Changes {
    /// The epoch that is held for the last change of each row.
    ghost last: { Self → RowId → ℕ };

    /// The epoch that is held for the row's last change.
    fn last_change(&self, row: &RowId) -> Epoch
        ensures { result ≡ last self.now row.now };
}
