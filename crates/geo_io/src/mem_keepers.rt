// Keepers in memory that fail at the calls that they are told.
ghost use Rattle.std.specs.Prelude.{◌≡◌, ◌↔◌, ◌<◌, ◌≤◌, Some, [], length, slice_index_or, vec_len, IfOk, OnOk, IfSome, IsSome, IsTrue, IsErr, IsErrOf, is_err, if◌then◌else◌};
ghost use Rattle.geo_io.specs.Causes.{HasCause, HasCauseOf};
ghost use Rattle.geo_io.specs.Told.{list_of, with_entry, Gains};
ghost use Rattle.geo_io.specs.Memory.{new_plan, plan_after, next_fail, eight_lists, is_failed};

use crate::entries::Entries;
use crate::fail_plan::{Fail, FailPlan};
use crate::limits::MAX_WIDTH;
use crate::{CleanKeepers, Failed, IoFault, Keepers};
use std::alloc::Global;
use std::marker::Model;

/// Keeps the entries of eight regions in memory, and fails at the calls that it is told.
#[derive(Drop)]
pub struct MemKeepers {
    keepers: CleanKeepers,
    plan: FailPlan<Fail>,
}

impl Model for MemKeepers {
    ghost use Rattle.std.specs.Prelude.{◌≡◌, length};
    ghost use Rattle.geo_io.specs.Memory.{FailingLists};
    ghost use Rattle.geo_io.specs.declared.limits.TheConstants.{MAX_WIDTH};

    ghost Value = { FailingLists };

    ghost view = { λ it. record { lists = it.keepers; plan = it.plan } };

    ghost invariant = { λ it. length it.keepers ≡ MAX_WIDTH };
}

impl MemKeepers {
    /// Keeps these lists, of the regions from 0 on. A region that was given none has an empty one. The calls
    /// whose numbers are in `fails` fail; all calls count, from 0 on, and the number stands still at the
    /// greatest of 64 bits. Of several fails with one number the first holds.
    pub fn new(alloc: Global, lists: Vec<Entries>, fails: Vec<Fail>) -> Self
        requires { vec_len lists ≤ MAX_WIDTH }
        ensures lists { result.lists ≡ eight_lists lists.items }
        ensures plan { result.plan ≡ new_plan fails.items }
    {
        MemKeepers {
            keepers: CleanKeepers::new(alloc, lists),
            plan: FailPlan::new(fails),
        }
    }

    /// The lists of all eight regions.
    pub fn lists(&self) -> &[Entries]
        ensures { result.now ≡ self.now.lists }
    {
        self.keepers.lists()
    }
}

impl Keepers for MemKeepers {
    ghost use Rattle.geo_io.specs.declared.limits.TheConstants.{MAX_WIDTH};

    ghost lists = { λ it. Some it.lists };

    ghost width = { λ it. MAX_WIDTH };

    ghost faults = { λ it. it.plan.faults };

    fn len(&mut self, region: u8) -> Result<u64, Failed>
        requires { region < MAX_WIDTH }
        ensures count { IfOk result (λ n. n ≡ length (list_of self.old.lists region)) }
        ensures told { length self.old.lists ≡ MAX_WIDTH }
        ensures lists { self.new.lists ≡ self.old.lists }
        ensures cause { HasCause self.old.plan.faults self.new.plan.faults result }
        ensures due { IsErr result ↔ IsSome (next_fail self.old.plan) }
        ensures after { self.new.plan ≡ plan_after (is_err result) self.old.plan }
    {
        let failed = self.plan.next_fail().is_some();
        self.plan.count(failed);
        if failed {
            return Err(Failed);
        }
        self.keepers.len(region)
    }

    fn read(&mut self, alloc: Global, region: u8, entry: u64) -> Result<Vec<u8>, IoFault>
        requires region { region < MAX_WIDTH }
        requires entry { entry < length (list_of self.old.lists region) }
        ensures bytes { IfOk result (λ bytes. bytes.items ≡ slice_index_or (list_of self.old.lists region) entry []) }
        ensures told { length self.old.lists ≡ MAX_WIDTH }
        ensures lists { self.new.lists ≡ self.old.lists }
        ensures cause { HasCauseOf IoFault.Failed self.old.plan.faults self.new.plan.faults result }
        ensures due { IsErrOf result IoFault.Failed ↔ IsSome (next_fail self.old.plan) }
        ensures after { self.new.plan ≡ plan_after (is_failed result) self.old.plan }
    {
        let failed = self.plan.next_fail().is_some();
        self.plan.count(failed);
        if failed {
            return Err(IoFault::Failed);
        }
        self.keepers.read(alloc, region, entry)
    }

    // An append that fails and is to keep its entry takes the memory for it first. Where there is none it hasn't
    // failed: it answers want of memory, and keeps nothing.
    fn append(&mut self, region: u8, bytes: &[u8]) -> Result<(), IoFault>
        requires { region < MAX_WIDTH }
        ensures ok { OnOk result (Gains region bytes.now self.old.lists self.new.lists) }
        ensures failed { IsErrOf result IoFault.Failed → IfSome (next_fail self.old.plan)
            (λ fail. self.new.lists ≡ (if fail.kept then with_entry region bytes.now self.old.lists else self.old.lists)) }
        ensures no_memory { IsErrOf result IoFault.NoMemory → self.new.lists ≡ self.old.lists }
        ensures told { length self.old.lists ≡ MAX_WIDTH }
        ensures cause { HasCauseOf IoFault.Failed self.old.plan.faults self.new.plan.faults result }
        ensures due { IsErrOf result IoFault.Failed → IsSome (next_fail self.old.plan) }
        ensures fails { IfSome (next_fail self.old.plan) (λ fail. IsErr result) }
        ensures memory_of_kept { IsErrOf result IoFault.NoMemory → IfSome (next_fail self.old.plan) (λ fail. IsTrue fail.kept) }
        ensures after { self.new.plan ≡ plan_after (is_failed result) self.old.plan }
    {
        let fail = self.plan.next_fail();
        let appended = match fail {
            Some(Fail { kept: false, .. }) => Ok(()),
            _ => self.keepers.append(region, bytes),
        };
        let failed = fail.is_some() && appended.is_ok();
        self.plan.count(failed);
        if failed {
            Err(IoFault::Failed)
        } else {
            appended
        }
    }

    ghost use Rattle.std.proofs.Common.{rules};

    ghost width_in_range = { λ it. Prim.search rules };
}
