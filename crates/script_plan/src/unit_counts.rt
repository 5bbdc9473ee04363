ghost use Rattle.std.specs.Prelude.{◌≡◌, ◌+◌, OnOk, IfOk};
ghost use Rattle.script_plan.specs.Counts.{no_units, with_absolutes, with_alias};

use orc_ids::UnitName;
use std::alloc::AllocError;

/// How many lines of each kind have a unit of their own, up to now. There are at most 2^32 - 1; where there is one
/// more, the answer is that of memory.
#[derive(Clone, Copy)]
pub(crate) struct UnitCounts {
    pub(crate) absolutes: u32,
    pub(crate) aliases: u32,
}

impl UnitCounts {
    /// Before the first line.
    pub(crate) fn new() -> UnitCounts
        ensures { result ≡ no_units }
    {
        UnitCounts {
            absolutes: 0,
            aliases: 0,
        }
    }

    /// The name of the unit of the next line of absolute symbols.
    pub(crate) fn next_absolute(&mut self) -> Result<UnitName, AllocError>
        ensures name { IfOk result (λ name. name ≡ UnitName.Absolute self.old.absolutes) }
        ensures counted { OnOk result (self.new ≡ with_absolutes self.old) }
    {
        let number = self.absolutes;
        self.absolutes = after(number)?;
        Ok(UnitName::Absolute(number))
    }

    /// The name of the unit of the next alias.
    pub(crate) fn next_alias(&mut self) -> Result<UnitName, AllocError>
        ensures name { IfOk result (λ name. name ≡ UnitName.Alias self.old.aliases) }
        ensures counted { OnOk result (self.new ≡ with_alias self.old) }
    {
        let number = self.aliases;
        self.aliases = after(number)?;
        Ok(UnitName::Alias(number))
    }
}

/// The next number.
fn after(number: u32) -> Result<u32, AllocError>
    ensures { IfOk result (λ next. next ≡ number + 1) }
{
    number.checked_add(1).ok_or(AllocError)
}
