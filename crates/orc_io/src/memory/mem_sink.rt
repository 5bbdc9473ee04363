ghost use Rattle.std.specs.Prelude.{◌≡◌, ◌+◌, ◌<◌, ◌≤◌, ◌-◌, ◌↔◌, ◌⊎◌, [], Some, IfOk, IsErr, OnOk, OnErr, length, min, vec_len, vec_capacity};
ghost use Rattle.std.specs.Io.{WritesAtMost};
ghost use Rattle.std.specs.Io.KnownBytes.{WriteAppends};
ghost use Rattle.orc_io.specs.Causes.{Rose};
ghost use Rattle.orc_io.specs.Plans.{NextIsListed, CountsCall};

use crate::errors::Failed;
use crate::memory::fault_plan::FaultPlan;
use crate::sink::Sink;
use std::alloc::{AllocError, Global};

/// A sink in memory. It tells its bytes, and fails at the calls of `write` that it is made with, and
/// where it is full. The memory for all that it can hold is taken when it is made.
#[derive(Drop)]
pub struct MemSink {
    held: Vec<u8>,
    /// How many bytes it can hold.
    room: usize,
    pub plan: FaultPlan,
    ghost within: { vec_len held ≤ room },
    ghost reserved: { room ≤ vec_capacity held },
}

impl MemSink {
    /// An empty sink whose writes with these numbers fail, counted from 0, and which is full once it
    /// holds `room` bytes.
    pub fn new(alloc: Global, failing: Vec<u64>, room: usize) -> Result<MemSink, AllocError>
        ensures held { IfOk result (λ sink. ⟦<MemSink as Sink>⟧.held sink ≡ Some []) }
        ensures room { IfOk result (λ sink. sink.room ≡ room) }
        ensures failing { IfOk result (λ sink. sink.plan.failing.items ≡ failing.items) }
        ensures calls { IfOk result (λ sink. sink.plan.calls ≡ 0) }
        ensures faults { IfOk result (λ sink. ⟦<MemSink as Sink>⟧.faults sink ≡ 0) }
    {
        Ok(MemSink {
            held: Vec::with_capacity(alloc, room)?,
            room,
            plan: FaultPlan::new(failing),
        })
    }

    /// The bytes that it holds.
    pub fn bytes(&self) -> &[u8]
        ensures { ⟦<MemSink as Sink>⟧.held self.now ≡ Some result.now }
    {
        self.held.as_slice()
    }
}

impl Sink for MemSink {
    ghost held = { λ s. Some s.held.items };

    ghost faults = { λ s. s.plan.faults };

    /// Fails exactly where the number of the call is listed, or the sink is full and the piece isn't
    /// empty; else it takes all that it has room for.
    fn write(&mut self, bytes: &[u8]) -> Result<usize, Failed>
        ensures bound { WritesAtMost result bytes.now }
        ensures bytes { WriteAppends (⟦<MemSink as Sink>⟧.held self.old)
            (⟦<MemSink as Sink>⟧.held self.new) result bytes.now }
        ensures progress { IfOk result (λ taken. 0 < length bytes.now → 0 < taken) }
        ensures counted { self.old.plan.faults ≤ self.new.plan.faults }
        ensures once { self.new.plan.faults ≤ self.old.plan.faults + 1 }
        ensures passed { OnOk result (self.new.plan.faults ≡ self.old.plan.faults) }
        ensures failed { OnErr result (Rose self.old.plan.faults self.new.plan.faults) }

        ensures listed_or_full { IsErr result ↔ (NextIsListed self.old.plan ⊎
            ((0 < length bytes.now) × (vec_len self.old.held ≡ self.old.room))) }
        ensures taken { IfOk result (λ taken.
            taken ≡ min (self.old.room - vec_len self.old.held) (length bytes.now)) }
        ensures room { self.new.room ≡ self.old.room }
        ensures call { CountsCall self.old.plan self.new.plan }
    {
        self.plan.begin()?;
        let free = self.room - self.held.len();
        let count = free.min(bytes.len());
        if count == 0 && !bytes.is_empty() {
            return Err(self.plan.fail());
        }
        match self.held.extend_from_slice(&bytes[..count]) {
            Ok(()) => Ok(count),
            Err(_) => Err(self.plan.fail()),
        }
    }
}
