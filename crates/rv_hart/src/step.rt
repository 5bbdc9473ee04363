ghost use Rattle.std.specs.Prelude.{◌≡◌, ◌<◌, ◌*◌, ◌%◌, ◌⊎◌, ℕ, List, slice_index};
ghost use Rattle.rv_insn.specs.Flat.{insn_of, HasRegisters};
ghost use Rattle.rv_hart.specs.Fetched.{IsKnown};
ghost use Rattle.rv_hart.specs.Map.{read};
ghost use Rattle.rv_hart.specs.Parts.{hart_of};
ghost use Rattle.rv_hart.specs.Registers.{reg};
ghost use Rattle.rv_hart.specs.Step.{IsStep, row_of, passed, writes, jumps, loads, loads_signed, stores};

use crate::arithmetic::extended_bytes;
use crate::effect::Effect;
use crate::hart::{Hart, read_register, register, set_register};
use crate::memory::{Fetched, Memory};
use rv_insn::FlatInsn;

/// Why a hart could not do an instruction. `Misaligned` has the program counter or the target of a
/// jump, `Load` and `Store` the address that the instruction names.
#[derive(Clone, Copy, Debug, PartialEq, Eq)]
pub enum Cause {
    Fetch,
    Illegal(u32),
    Misaligned(u64),
    Load(u64),
    Store(u64),
    Break,
}

/// How a step ended: on to the next instruction, at a call to the host, or in a trap at an address.
#[derive(Clone, Copy, Debug, PartialEq, Eq)]
pub enum Step {
    Next,
    Ecall,
    Trap(u64, Cause),
}

impl Hart {
    /// Does one instruction. After a trap the hart and the memory are as they were; after `Ecall`
    /// the program counter still names the call.
    pub fn step<M: Memory>(&mut self, memory: &mut M) -> Step
        ensures { IsStep self.old (M.bytes memory.old) (record { hart = self.new; map = M.bytes memory.new; answer = result }) }
    {
        let pc = self.pc;
        if pc % 4 != 0 {
            return Step::Trap(pc, Cause::Misaligned(pc));
        }
        step_any(&mut self.pc, &mut self.x, memory)
    }
}

/// A step of an instruction that the memory knows, of a hart in two parts, so that a loop can hold
/// the program counter by itself. Registers are read without a look at their number, since place 0
/// has 0.
#[inline(always)]
pub fn step_known<M: Memory>(
    pc: &mut u64,
    x: &mut [u64; 32],
    memory: &mut M,
    insn: FlatInsn,
) -> Step
    requires zero { slice_index x.old 0 ≡ 0 }
    requires aligned { pc.old % 4 ≡ 0 }
    requires known { IsKnown (M.bytes memory.old) pc.old insn }
    ensures step { IsStep (hart_of pc.old x.old) (M.bytes memory.old) (record { hart = hart_of pc.new x.new; map = M.bytes memory.new; answer = result }) }
    ensures zero { slice_index x.new 0 ≡ 0 }
    ensures aligned { pc.new % 4 ≡ 0 }
{
    let (a, b) = (read_register(x, insn.rs1), read_register(x, insn.rs2));
    execute(pc, x, memory, insn, a, b)
}

/// A step whose instruction is looked for, by a call that is given no place of the caller's but the
/// registers: the hart in two parts again, with the program counter as a value.
#[inline(always)]
pub fn step_apart<M: Memory>(pc: &mut u64, x: &mut [u64; 32], memory: &mut M) -> Step
    requires { pc.old % 4 ≡ 0 }
    ensures step { IsStep (hart_of pc.old x.old) (M.bytes memory.old) (record { hart = hart_of pc.new x.new; map = M.bytes memory.new; answer = result }) }
    ensures zero { slice_index x.new 0 ≡ slice_index x.old 0 }
    ensures aligned { pc.new % 4 ≡ 0 }
{
    let (next, step) = step_from(*pc, x, memory);
    *pc = next;
    step
}

#[inline(never)]
fn step_from<M: Memory>(pc: u64, x: &mut [u64; 32], memory: &mut M) -> (u64, Step)
    requires { pc % 4 ≡ 0 }
    ensures step { IsStep (hart_of pc x.old) (M.bytes memory.old) (record { hart = hart_of result.0 x.new; map = M.bytes memory.new; answer = result.1 }) }
    ensures zero { slice_index x.new 0 ≡ slice_index x.old 0 }
    ensures aligned { result.0 % 4 ≡ 0 }
{
    let mut at = pc;
    let step = step_any(&mut at, x, memory);
    (at, step)
}

/// A step whose instruction is looked for, whatever stands at place 0 of the registers.
fn step_any<M: Memory>(pc: &mut u64, x: &mut [u64; 32], memory: &mut M) -> Step
    requires { pc.old % 4 ≡ 0 }
    ensures step { IsStep (hart_of pc.old x.old) (M.bytes memory.old) (record { hart = hart_of pc.new x.new; map = M.bytes memory.new; answer = result }) }
    ensures zero { slice_index x.new 0 ≡ slice_index x.old 0 }
    ensures aligned { pc.new % 4 ≡ 0 }
{
    let at = *pc;
    match memory.instruction(at) {
        Fetched::Known(insn) => {
            let (a, b) = (register(x, insn.rs1), register(x, insn.rs2));
            execute(pc, x, memory, insn, a, b)
        }
        Fetched::Illegal(word) => Step::Trap(at, Cause::Illegal(word)),
        Fetched::Unmapped => Step::Trap(at, Cause::Fetch),
    }
}

/// What is left of an instruction is done, with what its registers hold.
#[inline(always)]
fn execute<M: Memory>(
    pc: &mut u64,
    x: &mut [u64; 32],
    memory: &mut M,
    insn: FlatInsn,
    a: u64,
    b: u64,
) -> Step
    requires aligned { pc.old % 4 ≡ 0 }
    requires registers { HasRegisters insn }
    requires first { reg (hart_of pc.old x.old) insn.rs1 ≡ a }
    requires second { reg (hart_of pc.old x.old) insn.rs2 ≡ b }
    ensures row { row_of (insn_of insn) (hart_of pc.old x.old) (M.bytes memory.old) ≡ record { hart = hart_of pc.new x.new; map = M.bytes memory.new; answer = result } }
    ensures zero { slice_index x.new 0 ≡ slice_index x.old 0 }
    ensures aligned { pc.new % 4 ≡ 0 }
{
    let rd = insn.rd;
    match Effect::of_insn(insn, *pc, a, b) {
        Effect::Writes(value) => write(pc, x, rd, value),
        Effect::Passes => pass(pc),
        Effect::Goes(target) => jump(pc, x, 0, target),
        Effect::Links(target) => jump(pc, x, rd, target),
        Effect::Lb(at) => load_signed(pc, x, memory, rd, at, 1),
        Effect::Lh(at) => load_signed(pc, x, memory, rd, at, 2),
        Effect::Lw(at) => load_signed(pc, x, memory, rd, at, 4),
        Effect::Ld(at) => load(pc, x, memory, rd, at, 8),
        Effect::Lbu(at) => load(pc, x, memory, rd, at, 1),
        Effect::Lhu(at) => load(pc, x, memory, rd, at, 2),
        Effect::Lwu(at) => load(pc, x, memory, rd, at, 4),
        Effect::Sb(at, value) => store(pc, memory, at, 1, value),
        Effect::Sh(at, value) => store(pc, memory, at, 2, value),
        Effect::Sw(at, value) => store(pc, memory, at, 4, value),
        Effect::Sd(at, value) => store(pc, memory, at, 8, value),
        Effect::Calls => Step::Ecall,
        Effect::Breaks => Step::Trap(*pc, Cause::Break),
    }
}

#[inline(always)]
fn pass(pc: &mut u64) -> Step
    requires { pc.old % 4 ≡ 0 }
    ensures turn { (x : List ℕ) → passed (hart_of pc.old x) ≡ record { hart = hart_of pc.new x; answer = result } }
    ensures aligned { pc.new % 4 ≡ 0 }
{
    *pc = pc.wrapping_add(4);
    Step::Next
}

#[inline(always)]
fn write(pc: &mut u64, x: &mut [u64; 32], rd: u8, value: u64) -> Step
    requires named { rd < 32 }
    requires aligned { pc.old % 4 ≡ 0 }
    ensures turn { writes (hart_of pc.old x.old) rd value ≡ record { hart = hart_of pc.new x.new; answer = result } }
    ensures zero { slice_index x.new 0 ≡ slice_index x.old 0 }
    ensures aligned { pc.new % 4 ≡ 0 }
{
    set_register(x, rd, value);
    pass(pc)
}

#[inline(always)]
fn jump(pc: &mut u64, x: &mut [u64; 32], rd: u8, target: u64) -> Step
    requires named { rd < 32 }
    requires aligned { pc.old % 4 ≡ 0 }
    ensures turn { jumps (hart_of pc.old x.old) rd target ≡ record { hart = hart_of pc.new x.new; answer = result } }
    ensures zero { slice_index x.new 0 ≡ slice_index x.old 0 }
    ensures aligned { pc.new % 4 ≡ 0 }
{
    if target % 4 != 0 {
        return Step::Trap(*pc, Cause::Misaligned(target));
    }
    set_register(x, rd, pc.wrapping_add(4));
    *pc = target;
    Step::Next
}

#[inline(always)]
fn load<M: Memory>(pc: &mut u64, x: &mut [u64; 32], memory: &M, rd: u8, at: u64, width: u8) -> Step
    requires wide { (width ≡ 1) ⊎ (width ≡ 2) ⊎ (width ≡ 4) ⊎ (width ≡ 8) }
    requires named { rd < 32 }
    requires aligned { pc.old % 4 ≡ 0 }
    ensures turn { loads (hart_of pc.old x.old) rd at (read (M.bytes memory.now) at width) ≡ record { hart = hart_of pc.new x.new; answer = result } }
    ensures zero { slice_index x.new 0 ≡ slice_index x.old 0 }
    ensures aligned { pc.new % 4 ≡ 0 }
{
    match memory.load(at, width) {
        Some(value) => write(pc, x, rd, value),
        None => Step::Trap(*pc, Cause::Load(at)),
    }
}

#[inline(always)]
fn load_signed<M: Memory>(
    pc: &mut u64,
    x: &mut [u64; 32],
    memory: &M,
    rd: u8,
    at: u64,
    width: u8,
) -> Step
    requires wide { (width ≡ 1) ⊎ (width ≡ 2) ⊎ (width ≡ 4) }
    requires named { rd < 32 }
    requires aligned { pc.old % 4 ≡ 0 }
    ensures turn { loads_signed (hart_of pc.old x.old) rd at (8 * width) (read (M.bytes memory.now) at width) ≡ record { hart = hart_of pc.new x.new; answer = result } }
    ensures zero { slice_index x.new 0 ≡ slice_index x.old 0 }
    ensures aligned { pc.new % 4 ≡ 0 }
{
    match memory.load(at, width) {
        Some(value) => write(pc, x, rd, extended_bytes(value, width)),
        None => Step::Trap(*pc, Cause::Load(at)),
    }
}

#[inline(always)]
fn store<M: Memory>(pc: &mut u64, memory: &mut M, at: u64, width: u8, value: u64) -> Step
    requires wide { (width ≡ 1) ⊎ (width ≡ 2) ⊎ (width ≡ 4) ⊎ (width ≡ 8) }
    requires aligned { pc.old % 4 ≡ 0 }
    ensures turn { (x : List ℕ) → stores (hart_of pc.old x) (M.bytes memory.old) at width value (read (M.bytes memory.old) at width) ≡ record { hart = hart_of pc.new x; map = M.bytes memory.new; answer = result } }
    ensures aligned { pc.new % 4 ≡ 0 }
{
    if memory.store(at, width, value) {
        pass(pc)
    } else {
        Step::Trap(*pc, Cause::Store(at))
    }
}
