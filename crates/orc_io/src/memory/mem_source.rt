ghost use Rattle.std.specs.Prelude.{◌≡◌, ◌+◌, ◌≤◌, ◌↔◌, Some, IsErr, OnOk, OnErr};
ghost use Rattle.std.specs.Io.{ReadsAtMost};
ghost use Rattle.std.specs.Io.KnownBytes.{ReadConsumes};
ghost use Rattle.orc_io.specs.Causes.{Rose};
ghost use Rattle.orc_io.specs.Plans.{NextIsListed, CountsCall};

use crate::errors::Failed;
use crate::memory::fault_plan::FaultPlan;
use crate::memory::sure_source::SureSource;
use crate::source::Source;
use orc_ids::Bytes;

/// A source in memory. It tells its bytes, and fails at the calls of `read` that it is made with.
#[derive(Drop)]
pub struct MemSource {
    inner: SureSource,
    pub plan: FaultPlan,
}

impl MemSource {
    /// A source of these bytes, whose reads with these numbers fail, counted from 0.
    pub fn new(bytes: Bytes, failing: Vec<u64>) -> MemSource
        ensures left { ⟦<MemSource as Source>⟧.left result ≡ Some bytes }
        ensures failing { result.plan.failing.items ≡ failing.items }
        ensures calls { result.plan.calls ≡ 0 }
        ensures faults { ⟦<MemSource as Source>⟧.faults result ≡ 0 }
    {
        MemSource {
            inner: SureSource::new(bytes),
            plan: FaultPlan::new(failing),
        }
    }
}

impl Source for MemSource {
    ghost left = { λ s. ⟦<SureSource as Source>⟧.left s.inner };

    ghost faults = { λ s. s.plan.faults };

    /// Fails exactly where the number of the call is listed.
    fn read(&mut self, buf: &mut [u8]) -> Result<usize, Failed>
        ensures bound { ReadsAtMost result buf.new }
        ensures bytes { ReadConsumes (⟦<MemSource as Source>⟧.left self.old)
            (⟦<MemSource as Source>⟧.left self.new) result buf.new }
        ensures counted { self.old.plan.faults ≤ self.new.plan.faults }
        ensures once { self.new.plan.faults ≤ self.old.plan.faults + 1 }
        ensures passed { OnOk result (self.new.plan.faults ≡ self.old.plan.faults) }
        ensures failed { OnErr result (Rose self.old.plan.faults self.new.plan.faults) }

        ensures listed { IsErr result ↔ NextIsListed self.old.plan }
        ensures call { CountsCall self.old.plan self.new.plan }
    {
        self.plan.begin()?;
        self.inner.read(buf)
    }
}
