ghost use Rattle.std.specs.Prelude.{◌≡◌, ◌<◌, ℕ, slice_index};
ghost use Rattle.rv_hart.specs.Parts.{hart_of};
ghost use Rattle.rv_hart.specs.Registers.{reg, with_reg};

/// A hart: the address of the instruction that is next, and the registers x0 to x31. What stands
/// at place 0 of `x` is never read.
#[derive(Clone, Copy, Debug)]
pub struct Hart {
    pub pc: u64,
    pub x: [u64; 32],
}

impl Hart {
    /// What a register holds.
    #[inline(always)]
    pub fn register(&self, r: u8) -> u64
        requires { r < 32 }
        ensures { result ≡ reg self.now r }
    {
        register(&self.x, r)
    }

    /// Writes a register, unless it is x0.
    #[inline(always)]
    pub fn set_register(&mut self, r: u8, value: u64)
        requires { r < 32 }
        ensures { self.new ≡ with_reg self.old r value }
    {
        set_register(&mut self.x, r, value);
    }
}

/// What a register holds.
#[tactic(auto, unfolding(crate::specs::Registers::reg))]
#[inline(always)]
pub(crate) fn register(x: &[u64; 32], r: u8) -> u64
    requires { r < 32 }
    ensures { (pc : ℕ) → result ≡ reg (hart_of pc x.now) r }
{
    if r == 0 { 0 } else { x[r as usize] }
}

/// What a register holds, where x0 is kept 0: its number isn't looked at.
#[inline(always)]
pub(crate) fn read_register(x: &[u64; 32], r: u8) -> u64
    requires named { r < 32 }
    requires zero { slice_index x.now 0 ≡ 0 }
    ensures { (pc : ℕ) → result ≡ reg (hart_of pc x.now) r }
{
    x[r as usize]
}

/// Writes a register, unless it is x0.
#[tactic(auto, unfolding(crate::specs::Registers::with_reg))]
#[inline(always)]
pub(crate) fn set_register(x: &mut [u64; 32], r: u8, value: u64)
    requires { r < 32 }
    ensures register { (pc : ℕ) → hart_of pc x.new ≡ with_reg (hart_of pc x.old) r value }
    ensures zero { slice_index x.new 0 ≡ slice_index x.old 0 }
{
    if r != 0 {
        x[r as usize] = value;
    }
}
