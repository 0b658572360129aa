// Sources that give bytes from memory.
ghost use Rattle.std.specs.Prelude.{◌≡◌, ◌↔◌, ◌<◌, ◌≤◌, Some, [], ◌++◌, Contains, min, take, length, IsErr, IfOk, is_err};
ghost use Rattle.std.specs.Io.KnownBytes.{ReadConsumes};
ghost use Rattle.geo_io.specs.Causes.{HasCause};
ghost use Rattle.geo_io.specs.Memory.{new_plan, plan_after};

use crate::fail_plan::FailPlan;
use crate::{Failed, Source};
use std::marker::Model;

/// Gives bytes from memory, and never fails.
#[derive(Drop)]
pub struct CleanSource {
    bytes: Vec<u8>,
    at: usize,
    piece: usize,
}

impl Model for CleanSource {
    ghost use Rattle.std.specs.Prelude.{◌<◌, ◌≤◌, drop, vec_len};
    ghost use Rattle.geo_io.specs.Memory.{Feed};

    ghost Value = { Feed };

    ghost view = { λ it. record { left = drop it.at it.bytes.items; piece = it.piece } };

    ghost invariant = { λ it. (it.at ≤ vec_len it.bytes) × (0 < it.piece) };
}

impl CleanSource {
    /// Gives these bytes, at most `piece` of them a read.
    pub fn new(bytes: Vec<u8>, piece: usize) -> Self
        requires { 0 < piece }
        ensures { result ≡ record { left = bytes.items; piece = piece } }
    {
        CleanSource {
            bytes,
            at: 0,
            piece,
        }
    }

    // Puts the next bytes at the front of `buf`, and says how many.
    fn give(&mut self, buf: &mut [u8]) -> usize
        ensures count { result ≡ min (min (length self.old.left) self.old.piece) (length buf.old) }
        ensures bytes { self.old.left ≡ take result buf.new ++ self.new.left }
        ensures end { result ≡ 0 → 0 < length buf.old → self.new.left ≡ [] }
        ensures piece { self.new.piece ≡ self.old.piece }
    {
        let rest = &self.bytes[self.at..];
        let count = rest.len().min(self.piece).min(buf.len());
        buf[..count].copy_from_slice(&rest[..count]);
        self.at += count;
        count
    }
}

impl Source for CleanSource {
    ghost left = { λ it. Some it.left };

    ghost faults = { λ it. 0 };

    fn read(&mut self, buf: &mut [u8]) -> Result<usize, Failed>
        ensures bound { IfOk result (λ n. n ≤ length buf.old) }
        ensures bytes { ReadConsumes (Some self.old.left) (Some self.new.left) result buf.new }
        ensures cause { HasCause 0 0 result }
        ensures count { IfOk result (λ n. n ≡ min (min (length self.old.left) self.old.piece) (length buf.old)) }
        ensures piece { self.new.piece ≡ self.old.piece }
    {
        Ok(self.give(buf))
    }
}

/// Gives bytes from memory, and fails at the reads that it is told.
#[derive(Drop)]
pub struct MemSource {
    source: CleanSource,
    plan: FailPlan<u64>,
}

impl Model for MemSource {
    ghost use Rattle.geo_io.specs.Memory.{FailingFeed};

    ghost Value = { FailingFeed };

    ghost view = { λ it. record { feed = it.source; plan = it.plan } };
}

impl MemSource {
    /// Gives these bytes, at most `piece` of them a read. The reads whose numbers, from 0, are in `fails`
    /// give none and fail.
    pub fn new(bytes: Vec<u8>, piece: usize, fails: Vec<u64>) -> Self
        requires { 0 < piece }
        ensures feed { result.feed ≡ record { left = bytes.items; piece = piece } }
        ensures plan { result.plan ≡ new_plan fails.items }
    {
        MemSource {
            source: CleanSource::new(bytes, piece),
            plan: FailPlan::new(fails),
        }
    }
}

impl Source for MemSource {
    ghost left = { λ it. Some it.feed.left };

    ghost faults = { λ it. it.plan.faults };

    fn read(&mut self, buf: &mut [u8]) -> Result<usize, Failed>
        ensures bound { IfOk result (λ n. n ≤ length buf.old) }
        ensures bytes { ReadConsumes (Some self.old.feed.left) (Some self.new.feed.left) result buf.new }
        ensures cause { HasCause self.old.plan.faults self.new.plan.faults result }
        ensures due { IsErr result ↔ Contains self.old.plan.fails self.old.plan.next }
        ensures after { self.new.plan ≡ plan_after (is_err result) self.old.plan }
        ensures count { IfOk result (λ n. n ≡ min (min (length self.old.feed.left) self.old.feed.piece) (length buf.old)) }
        ensures piece { self.new.feed.piece ≡ self.old.feed.piece }
    {
        if self.plan.count_call() {
            return Err(Failed);
        }
        Ok(self.source.give(buf))
    }
}
