// Sinks that hold in memory what was written.
ghost use Rattle.std.specs.Prelude.{◌≡◌, ◌↔◌, ◌<◌, ◌≤◌, Some, [], Contains, length, IfOk, IsErrOf};
ghost use Rattle.std.specs.Io.KnownBytes.{WriteAppends};
ghost use Rattle.geo_io.specs.Causes.{HasCauseOf};
ghost use Rattle.geo_io.specs.Memory.{new_plan, plan_after, is_failed};

use crate::fail_plan::FailPlan;
use crate::{IoFault, Sink};
use std::alloc::Global;
use std::marker::Model;

/// Holds what was written, and never fails.
#[derive(Drop)]
pub struct CleanSink {
    bytes: Vec<u8>,
}

impl Model for CleanSink {
    ghost use Rattle.std.specs.Prelude.{List, ℕ};

    ghost Value = { List ℕ };

    ghost view = { λ it. it.bytes.items };
}

impl CleanSink {
    /// Holds nothing yet.
    pub fn new(alloc: Global) -> Self
        ensures { result ≡ [] }
    {
        CleanSink {
            bytes: Vec::new(alloc),
        }
    }

    /// All that was written.
    pub fn bytes(&self) -> &[u8]
        ensures { result.now ≡ self.now }
    {
        &self.bytes
    }
}

impl Sink for CleanSink {
    ghost written = { λ it. Some it };

    ghost faults = { λ it. 0 };

    fn write(&mut self, piece: &[u8]) -> Result<usize, IoFault>
        ensures bound { IfOk result (λ n. n ≤ length piece.now) }
        ensures some { IfOk result (λ n. 0 < length piece.now → 0 < n) }
        ensures bytes { WriteAppends (Some self.old) (Some self.new) result piece.now }
        ensures cause { HasCauseOf IoFault.Failed 0 0 result }
        ensures whole { IfOk result (λ n. n ≡ length piece.now) }
    {
        self.bytes.extend_from_slice(piece)?;
        Ok(piece.len())
    }
}

/// Holds what was written, and fails at the writes that it is told.
#[derive(Drop)]
pub struct MemSink {
    sink: CleanSink,
    plan: FailPlan<u64>,
}

impl Model for MemSink {
    ghost use Rattle.geo_io.specs.Memory.{FailingPage};

    ghost Value = { FailingPage };

    ghost view = { λ it. record { written = it.sink; plan = it.plan } };
}

impl MemSink {
    /// Holds nothing yet. The writes whose numbers, from 0, are in `fails` take nothing and fail.
    pub fn new(alloc: Global, fails: Vec<u64>) -> Self
        ensures written { result.written ≡ [] }
        ensures plan { result.plan ≡ new_plan fails.items }
    {
        MemSink {
            sink: CleanSink::new(alloc),
            plan: FailPlan::new(fails),
        }
    }

    /// All that was written.
    pub fn bytes(&self) -> &[u8]
        ensures { result.now ≡ self.now.written }
    {
        self.sink.bytes()
    }
}

impl Sink for MemSink {
    ghost written = { λ it. Some it.written };

    ghost faults = { λ it. it.plan.faults };

    fn write(&mut self, piece: &[u8]) -> Result<usize, IoFault>
        ensures bound { IfOk result (λ n. n ≤ length piece.now) }
        ensures some { IfOk result (λ n. 0 < length piece.now → 0 < n) }
        ensures bytes { WriteAppends (Some self.old.written) (Some self.new.written) result piece.now }
        ensures cause { HasCauseOf IoFault.Failed self.old.plan.faults self.new.plan.faults result }
        ensures due { IsErrOf result IoFault.Failed ↔ Contains self.old.plan.fails self.old.plan.next }
        ensures after { self.new.plan ≡ plan_after (is_failed result) self.old.plan }
        ensures whole { IfOk result (λ n. n ≡ length piece.now) }
    {
        if self.plan.count_call() {
            return Err(IoFault::Failed);
        }
        self.sink.write(piece)
    }
}
