//! A sink in memory that fails as planned.
ghost use Rattle.std.specs.Prelude.{◌≡◌, ◌⊎◌, ◌+◌, ◌<◌, ◌≤◌, ◌↔◌, [], length, min, Some, IfOk, IsErr};
ghost use Rattle.sd_outside.specs.Causes.{HasCause};
ghost use Rattle.sd_outside.specs.Streams.{Adds};
ghost use Rattle.sd_outside.specs.Mem.{sink_room};
ghost use Rattle.sd_outside.specs.Plan.{FailsNext, later, counted};

use crate::planned::Planned;
use crate::{Failed, NoMemory, Sink};
use std::alloc::Global;
use std::marker::Model;

/// How many bytes the sink has room for.
const SINK_ROOM: usize = 65536;

/// A sink in memory. It takes at most so many bytes in a call, and fails the calls that were planned to fail
/// and those that would pass its room.
#[derive(Drop)]
pub struct MemSink {
    bytes: Vec<u8>,
    step: usize,
    plan: Planned,
    faults: u64,
}

impl Model for MemSink {
    ghost use Rattle.std.specs.Prelude.{◌<◌, ◌≤◌, vec_capacity, length};
    ghost use Rattle.sd_outside.specs.Mem.{MemSinkView, sink_room};

    ghost Value = { MemSinkView };

    ghost view = { λ sink. record { written = sink.bytes.items; step = sink.step; plan = sink.plan; faults = sink.faults } };

    ghost invariant = { λ sink. (sink_room ≤ vec_capacity sink.bytes) × (0 < sink.step) × (length sink.bytes.items ≤ sink_room) };
}

impl MemSink {
    /// A sink that takes its room here. `step` is the most bytes of one call, and `fail` numbers the calls that fail,
    /// from 0.
    pub fn new(alloc: Global, step: usize, fail: &[u64]) -> Result<MemSink, NoMemory>
        requires { 0 < step }
        ensures written { IfOk result (λ sink. sink.written ≡ []) }
        ensures step { IfOk result (λ sink. sink.step ≡ step) }
        ensures plan { IfOk result (λ sink. sink.plan ≡ fail.now) }
        ensures faults { IfOk result (λ sink. sink.faults ≡ 0) }
    {
        Ok(MemSink {
            bytes: Vec::with_capacity(alloc, SINK_ROOM)?,
            step,
            plan: Planned::new(alloc, fail)?,
            faults: 0,
        })
    }

    /// The bytes written.
    pub fn bytes(&self) -> &[u8]
        ensures { result.now ≡ self.now.written }
    {
        self.bytes.as_slice()
    }
}

impl Sink for MemSink {
    ghost written = { λ sink. Some sink.written };

    ghost faults = { λ sink. sink.faults };

    /// Takes as many bytes as a call may and there are. Fails exactly where that was planned or these bytes pass the room.
    fn write(&mut self, bytes: &[u8]) -> Result<usize, Failed>
        ensures bound { IfOk result (λ n. n ≤ length bytes.now) }
        ensures bytes { Adds (Some self.old.written) (Some self.new.written) result bytes.now }
        ensures cause { HasCause self.old.faults self.new.faults result }

        ensures planned { IsErr result ↔ (FailsNext self.old.plan ⊎ (sink_room < length self.old.written + min self.old.step (length bytes.now))) }
        ensures count { IfOk result (λ n. n ≡ min self.old.step (length bytes.now)) }
        ensures plan { self.new.plan ≡ later 1 self.old.plan }
        ensures faults { self.new.faults ≡ counted self.old.faults result }
        ensures step { self.new.step ≡ self.old.step }
    {
        let count = self.step.min(bytes.len());
        let planned = self.plan.next();
        let fits = count <= SINK_ROOM - self.bytes.len();
        if planned || !fits {
            self.faults = self.faults.saturating_add(1);
            return Err(Failed);
        }
        // There is room for them since the sink was made.
        let _ = self.bytes.extend_from_slice(&bytes[..count]);
        Ok(count)
    }
}
