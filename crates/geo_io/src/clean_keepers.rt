// Keepers in memory.
ghost use Rattle.std.specs.Prelude.{◌≡◌, ◌≤◌, Some, vec_len};
ghost use Rattle.geo_io.specs.Memory.{eight_lists};

use crate::entries::{ByteList, Entries};
use crate::limits::MAX_WIDTH;
use crate::{Failed, IoFault, Keepers};
use std::alloc::Global;
use std::marker::Model;

/// Keeps the entries of eight regions in memory, and never fails.
#[derive(Drop)]
pub struct CleanKeepers {
    alloc: Global,
    lists: [Entries; MAX_WIDTH],
}

impl Model for CleanKeepers {
    ghost use Rattle.std.specs.Prelude.{◌≡◌, length};
    ghost use Rattle.geo_io.specs.Told.{Lists};
    ghost use Rattle.geo_io.specs.declared.limits.TheConstants.{MAX_WIDTH};

    ghost Value = { Lists };

    ghost view = { λ it. it.lists };

    ghost invariant = { λ it. length it.lists ≡ MAX_WIDTH };
}

impl CleanKeepers {
    /// Keeps these lists, of the regions from 0 on. A region that was given none has an empty one.
    pub fn new(alloc: Global, lists: Vec<Entries>) -> Self
        requires { vec_len lists ≤ MAX_WIDTH }
        ensures { result ≡ eight_lists lists.items }
    {
        let mut all = [
            Entries::new(Vec::new(alloc)),
            Entries::new(Vec::new(alloc)),
            Entries::new(Vec::new(alloc)),
            Entries::new(Vec::new(alloc)),
            Entries::new(Vec::new(alloc)),
            Entries::new(Vec::new(alloc)),
            Entries::new(Vec::new(alloc)),
            Entries::new(Vec::new(alloc)),
        ];
        let mut region = 0;
        for list in lists {
            all[region] = list;
            region += 1;
        }
        CleanKeepers { alloc, lists: all }
    }

    /// The lists of all eight regions.
    pub fn lists(&self) -> &[Entries]
        ensures { result.now ≡ self.now }
    {
        &self.lists
    }
}

impl Keepers for CleanKeepers {
    ghost use Rattle.geo_io.specs.declared.limits.TheConstants.{MAX_WIDTH};

    ghost lists = { λ it. Some it };

    ghost width = { λ it. MAX_WIDTH };

    ghost faults = { λ it. 0 };

    fn len(&mut self, region: u8) -> Result<u64, Failed> {
        Ok(self.lists[region as usize].items().len() as u64)
    }

    fn read(&mut self, alloc: Global, region: u8, entry: u64) -> Result<Vec<u8>, IoFault> {
        let entries = self.lists[region as usize].items();
        Ok(entries[entry as usize].items().to_vec(alloc)?)
    }

    fn append(&mut self, region: u8, bytes: &[u8]) -> Result<(), IoFault> {
        let entry = ByteList::new(bytes.to_vec(self.alloc)?);
        let list = &mut self.lists[region as usize];
        list.push(entry)?;
        Ok(())
    }

    ghost use Rattle.std.proofs.Common.{rules};

    ghost width_in_range = { λ it. Prim.search rules };
}
