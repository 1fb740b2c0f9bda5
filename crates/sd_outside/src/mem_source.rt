//! A source in memory that fails as planned.
ghost use Rattle.std.specs.Prelude.{◌≡◌, ◌<◌, ◌≤◌, ◌↔◌, length, min, Some, IfOk, IsErr};
ghost use Rattle.sd_outside.specs.Causes.{HasCause};
ghost use Rattle.sd_outside.specs.Streams.{Takes};
ghost use Rattle.sd_outside.specs.Plan.{FailsNext, later, counted};

use crate::copying::copy_front;
use crate::planned::Planned;
use crate::{ByteList, Failed, NoMemory, Source};
use std::alloc::Global;
use std::marker::Model;

/// A source in memory. It gives at most so many bytes in a call, and fails the calls that were planned to fail.
#[derive(Drop)]
pub struct MemSource {
    bytes: ByteList,
    at: usize,
    step: usize,
    plan: Planned,
    faults: u64,
}

impl Model for MemSource {
    ghost use Rattle.std.specs.Prelude.{◌<◌, ◌≤◌, length, drop};
    ghost use Rattle.sd_outside.specs.Mem.{MemSourceView};

    ghost Value = { MemSourceView };

    ghost view = { λ source. record { left = drop source.at source.bytes; step = source.step; plan = source.plan; faults = source.faults } };

    ghost invariant = { λ source. (source.at ≤ length source.bytes) × (0 < source.step) };
}

impl MemSource {
    /// A source of these bytes. `step` is the most bytes of one call, and `fail` numbers the calls that fail, from 0.
    pub fn new(
        alloc: Global,
        bytes: &[u8],
        step: usize,
        fail: &[u64],
    ) -> Result<MemSource, NoMemory>
        requires { 0 < step }
        ensures left { IfOk result (λ source. source.left ≡ bytes.now) }
        ensures step { IfOk result (λ source. source.step ≡ step) }
        ensures plan { IfOk result (λ source. source.plan ≡ fail.now) }
        ensures faults { IfOk result (λ source. source.faults ≡ 0) }
    {
        Ok(MemSource {
            bytes: ByteList::from_slice(alloc, bytes)?,
            at: 0,
            step,
            plan: Planned::new(alloc, fail)?,
            faults: 0,
        })
    }
}

impl Source for MemSource {
    ghost left = { λ source. Some source.left };

    ghost faults = { λ source. source.faults };

    /// Fails exactly where that was planned, and else gives as many bytes as a call may, as `into` takes and as are left.
    fn read(&mut self, into: &mut [u8]) -> Result<usize, Failed>
        requires { 0 < length into.old }
        ensures bound { IfOk result (λ n. n ≤ length into.old) }
        ensures bytes { Takes (Some self.old.left) (Some self.new.left) result into.new }
        ensures cause { HasCause self.old.faults self.new.faults result }

        ensures planned { IsErr result ↔ FailsNext self.old.plan }
        ensures count { IfOk result (λ n. n ≡ min self.old.step (min (length into.old) (length self.old.left))) }
        ensures plan { self.new.plan ≡ later 1 self.old.plan }
        ensures faults { self.new.faults ≡ counted self.old.faults result }
        ensures step { self.new.step ≡ self.old.step }
    {
        if self.plan.next() {
            self.faults = self.faults.saturating_add(1);
            return Err(Failed);
        }
        let rest = &self.bytes.as_slice()[self.at..];
        let count = copy_front(rest, into, self.step);
        self.at += count;
        Ok(count)
    }
}
