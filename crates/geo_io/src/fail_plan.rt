// Which calls of an object in memory fail.
ghost use Rattle.std.specs.Prelude.{◌≡◌, ◌==◌, ◌≤◌, ◌↔◌, Contains, IsTrue, find, option_copied};
ghost use Rattle.geo_io.specs.Memory.{new_plan, plan_after, next_fail};

use std::marker::Model;

/// A call of keepers in memory that fails.
#[derive(Clone, Copy)]
pub struct Fail {
    /// The call's number, of all calls from 0 on.
    pub call: u64,
    /// Whether an append that fails keeps its entry.
    pub kept: bool,
}

/// Counts the calls, and says which of them fail.
#[derive(Drop)]
pub(crate) struct FailPlan<F> {
    fails: Vec<F>,
    next: u64,
    faults: u64,
}

impl<F> Model for FailPlan<F> {
    ghost use Rattle.geo_io.specs.Memory.{Plan};

    ghost Value = { Plan F };

    ghost view = { λ it. record { fails = it.fails.items; next = it.next; faults = it.faults } };
}

impl<F> FailPlan<F> {
    pub(crate) fn new(fails: Vec<F>) -> Self
        ensures { result ≡ new_plan fails.items }
    {
        FailPlan {
            fails,
            next: 0,
            faults: 0,
        }
    }

    // Counts a call that failed or didn't.
    pub(crate) fn count(&mut self, failed: bool)
        ensures after { self.new ≡ plan_after failed self.old }
        ensures later { self.old.faults ≤ self.new.faults }
    {
        self.next = self.next.saturating_add(1);
        if failed {
            self.faults = self.faults.saturating_add(1);
        }
    }
}

impl FailPlan<u64> {
    // Counts a call, and says whether it fails.
    pub(crate) fn count_call(&mut self) -> bool
        ensures due { IsTrue result ↔ Contains self.old.fails self.old.next }
        ensures after { self.new ≡ plan_after result self.old }
        ensures later { self.old.faults ≤ self.new.faults }
    {
        let failed = self.fails.contains(&self.next);
        self.count(failed);
        failed
    }
}

impl FailPlan<Fail> {
    // How the next call fails, where it does.
    pub(crate) fn next_fail(&self) -> Option<Fail>
        ensures { result ≡ next_fail self.now }
    {
        first_of(&self.fails, self.next).copied()
    }
}

// The first of the fails with this number.
fn first_of(fails: &[Fail], call: u64) -> Option<&Fail>
    ensures { option_copied result ≡ find (λ fail. fail.call == call) fails.now }
{
    fails.iter().find(|fail| fail.call == call)
}
