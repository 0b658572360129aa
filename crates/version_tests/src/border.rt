//! A border between rows.
ghost use Rattle.std.specs.Prelude.{◌≡◌};

use geo_base::RowId;
use page_map::Border;

/// The border in front of a row.
#[derive(Drop)]
pub struct InFront<'a> {
    /// The row, which need have no versions.
    pub row: &'a RowId,
}

impl<'a> Border<RowId> for InFront<'a> {
    ghost use Rattle.std.specs.Ordering.{is_lt};
    ghost use Rattle.geo_base.specs.Order.{row_cmp};

    ghost before = { λ border other. is_lt (row_cmp other border.row.now) };

    fn comes_after(&self, key: &RowId) -> bool {
        key.cmp(self.row).is_lt()
    }
}
