//! Numbers as keys and values.
ghost use Rattle.std.specs.Prelude.{◌≡◌, IfOk};

use geo_base::{Duplicate, NoMemory};
use std::alloc::Global;

#[derive(Clone, Copy, Debug, PartialEq, Eq, PartialOrd, Ord)]
pub(crate) struct Number(pub(crate) u64);

impl Duplicate for Number {
    fn copy(&self, _alloc: Global) -> Result<Number, NoMemory> {
        Ok(*self)
    }
}
