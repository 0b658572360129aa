ghost use Rattle.std.specs.Prelude.{◌≡◌};
ghost use Rattle.write_set.specs.Sets.{alters};

use geo_base::{Duplicate, NoMemory, RowImage};
use std::alloc::Global;

/// What a transaction does to a row.
#[derive(Debug, Drop)]
pub enum Change {
    /// The row has this image from now on.
    Put(RowImage),
    /// There is no such row from now on.
    Remove,
    /// The row stays as it is: the transaction claims it, so that no other one changes it meanwhile.
    Touch,
}

impl Change {
    /// Whether it puts or removes the row.
    pub(crate) fn alters(&self) -> bool
        ensures { result ≡ alters self.now }
    {
        match self {
            Change::Put(_) | Change::Remove => true,
            Change::Touch => false,
        }
    }
}

impl Duplicate for Change {
    fn copy(&self, alloc: Global) -> Result<Change, NoMemory> {
        match self {
            Change::Put(image) => Ok(Change::Put(image.copy(alloc)?)),
            Change::Remove => Ok(Change::Remove),
            Change::Touch => Ok(Change::Touch),
        }
    }
}
