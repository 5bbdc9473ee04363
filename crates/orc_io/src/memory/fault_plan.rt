ghost use Rattle.std.specs.Prelude.{◌≡◌, ◌+◌, ◌≤◌, ◌↔◌, IsErr, OnOk, OnErr};
ghost use Rattle.orc_io.specs.Causes.{Rose};

use crate::errors::Failed;

/// Which calls of a form in memory fail, by their numbers, which count from 0.
#[derive(Drop)]
pub struct FaultPlan {
    /// The numbers of the calls that fail, in any order.
    pub failing: Vec<u64>,
    /// How many calls there were, and so the number of the next; it stops at the end of its type.
    pub calls: u64,
    /// How many faults there were; it stops at the end of its type.
    pub faults: u64,
}

impl FaultPlan {
    ghost use Rattle.orc_io.specs.Plans.{NextIsListed, CountsCall};

    /// No calls yet, and these numbers of calls that are to fail.
    pub fn new(failing: Vec<u64>) -> FaultPlan
        ensures failing { result.failing.items ≡ failing.items }
        ensures calls { result.calls ≡ 0 }
        ensures faults { result.faults ≡ 0 }
    {
        FaultPlan {
            failing,
            calls: 0,
            faults: 0,
        }
    }

    /// The next call begins: it fails exactly where its number is listed.
    pub fn begin(&mut self) -> Result<(), Failed>
        ensures listed { IsErr result ↔ NextIsListed self.old }
        ensures call { CountsCall self.old self.new }
        ensures passed { OnOk result (self.new.faults ≡ self.old.faults) }
        ensures counted { self.old.faults ≤ self.new.faults }
        ensures once { self.new.faults ≤ self.old.faults + 1 }
        ensures failed { OnErr result (Rose self.old.faults self.new.faults) }
    {
        let listed = self.failing.contains(&self.calls);
        self.calls = self.calls.saturating_add(1);
        if listed { Err(self.fail()) } else { Ok(()) }
    }

    /// A fault: the count rises, or stands at the end of its type.
    pub fn fail(&mut self) -> Failed
        ensures counted { self.old.faults ≤ self.new.faults }
        ensures once { self.new.faults ≤ self.old.faults + 1 }
        ensures failed { Rose self.old.faults self.new.faults }
        ensures calls { self.new.calls ≡ self.old.calls }
        ensures failing { self.new.failing.items ≡ self.old.failing.items }
    {
        self.faults = self.faults.saturating_add(1);
        Failed
    }
}
