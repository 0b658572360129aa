// Where the entries of the regions are kept.
ghost use Rattle.std.specs.Prelude.{◌≡◌, ◌<◌, ◌≤◌, ℕ, [], Option, length, slice_index_or, IfOk, OnOk, IfSome, IsErrOf};
ghost use Rattle.geo_io.specs.Causes.{HasCause, HasCauseOf};
ghost use Rattle.geo_io.specs.Told.{Lists, list_of, Gains, MayGain, Moves};

use crate::{Failed, IoFault};
use std::alloc::Global;

/// Keeps a list of entries for each region below its width. Whether the lists are told never changes, and
/// what is told has one list for each of these regions.
pub trait Keepers {
    ghost use Rattle.geo_io.specs.declared.limits.TheConstants.{MAX_WIDTH};

    /// The lists of all regions, where the keepers tell them.
    ghost lists: { Self → Option Lists };

    /// How many regions have a list.
    ghost width: { Self → ℕ };

    /// How often the keepers have failed.
    ghost faults: { Self → ℕ };

    /// How many entries a region's list has.
    fn len(&mut self, region: u8) -> Result<u64, Failed>
        requires { region < width self.old }
        ensures count { IfOk result (λ n. IfSome (lists self.old) (λ all. n ≡ length (list_of all region))) }
        ensures told { IfSome (lists self.old) (λ all. length all ≡ width self.old) }
        ensures lists { lists self.new ≡ lists self.old }
        ensures width { width self.new ≡ width self.old }
        ensures cause { HasCause (faults self.old) (faults self.new) result };

    /// The bytes of one entry, counted from 0.
    fn read(&mut self, alloc: Global, region: u8, entry: u64) -> Result<Vec<u8>, IoFault>
        requires region { region < width self.old }
        requires entry { IfSome (lists self.old) (λ all. entry < length (list_of all region)) }
        ensures bytes { IfOk result (λ bytes. IfSome (lists self.old)
            (λ all. bytes.items ≡ slice_index_or (list_of all region) entry [])) }
        ensures told { IfSome (lists self.old) (λ all. length all ≡ width self.old) }
        ensures lists { lists self.new ≡ lists self.old }
        ensures width { width self.new ≡ width self.old }
        ensures cause { HasCauseOf IoFault.Failed (faults self.old) (faults self.new) result };

    /// Puts an entry at the end of a region's list. An append that failed may have kept its entry.
    fn append(&mut self, region: u8, bytes: &[u8]) -> Result<(), IoFault>
        requires { region < width self.old }
        ensures ok { OnOk result (Moves (Gains region bytes.now) (lists self.old) (lists self.new)) }
        ensures failed { IsErrOf result IoFault.Failed →
            Moves (MayGain region bytes.now) (lists self.old) (lists self.new) }
        ensures no_memory { IsErrOf result IoFault.NoMemory → lists self.new ≡ lists self.old }
        ensures told { IfSome (lists self.old) (λ all. length all ≡ width self.old) }
        ensures width { width self.new ≡ width self.old }
        ensures cause { HasCauseOf IoFault.Failed (faults self.old) (faults self.new) result };

    ghost width_in_range: { (keepers : Self) → (0 < width keepers) × (width keepers ≤ MAX_WIDTH) };
}
