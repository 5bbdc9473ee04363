ghost use Rattle.std.specs.Prelude.{◌≡◌, ◌≤◌, ◌%◌, ◌==◌, length, slice_index, IfOk, if◌then◌else◌};
ghost use Rattle.code_memory.specs.Mapped.{byte_at};
ghost use Rattle.exec_run.specs.Host.{State, answered, write_call, called};
ghost use Rattle.exec_run.specs.Run.{start, RunsFrom};
ghost use Rattle.exec_run.specs.Start.{started};

use crate::host::{
    BAD_ADDRESS, BAD_DESCRIPTOR, EXIT, HOME, NO_CALL, OUTPUT_MAX, STACK_END, STDOUT, WRITE,
};
use crate::memory::RunMemory;
use crate::pieces::{append, has_bytes};
use crate::ran::RunEnd;
use code_memory::Image;
use rv_hart::{Cause, Hart, Step, step_apart, step_known};
use rv_insn::FlatInsn;
use std::alloc::{AllocError, Global};

/// A hart with its memory, and what it wrote.
#[derive(Drop)]
pub(crate) struct Machine<'a> {
    pub(crate) hart: Hart,
    pub(crate) memory: RunMemory<'a>,
    pub(crate) output: Vec<u8>,
}

impl<'a> Machine<'a> {
    ghost use Rattle.exec_run.specs.Machine.{state_of, state_at, IsCalled, IsWritten, IsPassed};
    ghost use Rattle.exec_run.specs.Decoded.{IsStill};

    /// A machine at the start of a run.
    pub(crate) fn new(
        alloc: Global,
        image: &'a Image,
        pc: u64,
        args: &[u64],
    ) -> Result<Machine<'a>, AllocError>
        requires { length args.now ≤ 8 }
        ensures { IfOk result (λ machine. state_of machine ≡ start (byte_at image.now) pc args.now) }
    {
        Ok(Machine {
            hart: first_hart(pc, args),
            memory: RunMemory::of_image(alloc, image)?,
            output: Vec::new(alloc),
        })
    }

    /// What the run wrote.
    pub(crate) fn into_output(self) -> Vec<u8>
        ensures { result.items ≡ self.entry.output.items }
    {
        let Machine { output, .. } = self;
        output
    }

    /// Runs up to the end, or until the fuel is spent. The program counter is held apart from the
    /// machine, and stands in it at calls alone.
    pub(crate) fn run(&mut self, fuel: u64) -> Result<RunEnd, AllocError>
        requires { slice_index self.old.hart.x 0 ≡ 0 }
        ensures { IfOk result (λ end. RunsFrom fuel (state_of self.old) end self.new.output.items) }
    {
        let mut pc = self.hart.pc;
        if pc % 4 != 0 {
            return Ok(misaligned_end(pc, fuel));
        }
        for _turn in 0..fuel {
            if let Some(end) = self.turn(&mut pc)? {
                return Ok(end);
            }
        }
        if pc != HOME {
            return Ok(RunEnd::OutOfFuel);
        }
        Ok(RunEnd::Exited(self.hart.register(10)))
    }

    /// Does one instruction, and the call to the host where it is one; or ends, at home. Where the
    /// instruction is kept, the program counter isn't home, since nothing is mapped there.
    #[inline(always)]
    fn turn(&mut self, pc: &mut u64) -> Result<Option<RunEnd>, AllocError>
        requires zero { slice_index self.old.hart.x 0 ≡ 0 }
        requires aligned { pc.old % 4 ≡ 0 }
        ensures passed { IfOk result (λ end. IsPassed (state_at pc.old self.old) end (state_at pc.new self.new)) }
        ensures zero { slice_index self.new.hart.x 0 ≡ 0 }
        ensures aligned { pc.new % 4 ≡ 0 }
    {
        match self.memory.kept(*pc) {
            Some(insn) => self.turn_known(pc, insn),
            None => self.turn_apart(pc),
        }
    }

    /// A turn of an instruction that is kept.
    #[inline(always)]
    fn turn_known(&mut self, pc: &mut u64, insn: FlatInsn) -> Result<Option<RunEnd>, AllocError>
        requires zero { slice_index self.old.hart.x 0 ≡ 0 }
        requires aligned { pc.old % 4 ≡ 0 }
        requires kept { IsStill self.old.memory pc.old insn }
        ensures passed { IfOk result (λ end. IsPassed (state_at pc.old self.old) end (state_at pc.new self.new)) }
        ensures zero { slice_index self.new.hart.x 0 ≡ 0 }
        ensures aligned { pc.new % 4 ≡ 0 }
    {
        match step_known(pc, &mut self.hart.x, &mut self.memory, insn) {
            Step::Next => Ok(None),
            Step::Trap(at, cause) => Ok(Some(RunEnd::Trap(at, cause))),
            Step::Ecall => self.call_at(pc),
        }
    }

    /// A turn of an instruction that isn't kept, or no turn, at home.
    #[inline(always)]
    fn turn_apart(&mut self, pc: &mut u64) -> Result<Option<RunEnd>, AllocError>
        requires zero { slice_index self.old.hart.x 0 ≡ 0 }
        requires aligned { pc.old % 4 ≡ 0 }
        ensures passed { IfOk result (λ end. IsPassed (state_at pc.old self.old) end (state_at pc.new self.new)) }
        ensures zero { slice_index self.new.hart.x 0 ≡ 0 }
        ensures aligned { pc.new % 4 ≡ 0 }
    {
        if *pc == HOME {
            return Ok(Some(RunEnd::Exited(self.hart.register(10))));
        }
        match step_apart(pc, &mut self.hart.x, &mut self.memory) {
            Step::Next => Ok(None),
            Step::Trap(at, cause) => Ok(Some(RunEnd::Trap(at, cause))),
            Step::Ecall => self.call_at(pc),
        }
    }

    /// The call of the instruction at a program counter.
    #[inline(always)]
    fn call_at(&mut self, pc: &mut u64) -> Result<Option<RunEnd>, AllocError>
        requires { pc.old % 4 ≡ 0 }
        ensures called { IfOk result (λ end. IsCalled (state_at pc.old self.old) end (state_at pc.new self.new)) }
        ensures zero { slice_index self.new.hart.x 0 ≡ slice_index self.old.hart.x 0 }
        ensures aligned { pc.new % 4 ≡ 0 }
    {
        self.hart.pc = *pc;
        let end = self.call()?;
        *pc = self.hart.pc;
        Ok(end)
    }

    /// The call to the host that the registers ask for.
    fn call(&mut self) -> Result<Option<RunEnd>, AllocError>
        ensures called { IfOk result (λ end. IsCalled (state_of self.old) end (state_of self.new)) }
        ensures zero { slice_index self.new.hart.x 0 ≡ slice_index self.old.hart.x 0 }
        ensures aligned { self.old.hart.pc % 4 ≡ 0 → self.new.hart.pc % 4 ≡ 0 }
    {
        let number = self.hart.register(17);
        if number == EXIT {
            return Ok(Some(RunEnd::Exited(self.hart.register(10))));
        }
        if number == WRITE {
            return self.write();
        }
        self.answer(NO_CALL);
        Ok(None)
    }

    /// The write that the registers ask for.
    fn write(&mut self) -> Result<Option<RunEnd>, AllocError>
        ensures written { IfOk result (λ end. IsWritten (state_of self.old) end (state_of self.new)) }
        ensures zero { slice_index self.new.hart.x 0 ≡ slice_index self.old.hart.x 0 }
        ensures aligned { self.old.hart.pc % 4 ≡ 0 → self.new.hart.pc % 4 ≡ 0 }
    {
        if self.hart.register(10) != STDOUT {
            self.answer(BAD_DESCRIPTOR);
            return Ok(None);
        }
        let from = self.hart.register(11);
        let count = self.hart.register(12);
        if !has_bytes(&self.memory, from, count) {
            self.answer(BAD_ADDRESS);
            return Ok(None);
        }
        if (self.output.len() as u64).saturating_add(count) > OUTPUT_MAX {
            return Ok(Some(RunEnd::OutputFull));
        }
        append(&self.memory, from, count, &mut self.output)?;
        self.answer(count);
        Ok(None)
    }

    /// The result of a call, and on to the next instruction.
    fn answer(&mut self, value: u64)
        ensures answered { state_of self.new ≡ answered (state_of self.old) value }
        ensures zero { slice_index self.new.hart.x 0 ≡ slice_index self.old.hart.x 0 }
        ensures aligned { self.old.hart.pc % 4 ≡ 0 → self.new.hart.pc % 4 ≡ 0 }
    {
        self.hart.set_register(10, value);
        self.hart.pc = self.hart.pc.wrapping_add(4);
    }
}

/// The hart that a run starts with.
fn first_hart(pc: u64, args: &[u64]) -> Hart
    requires { length args.now ≤ 8 }
    ensures { result ≡ started pc args.now }
{
    let mut x = [0; 32];
    x[1] = HOME;
    x[2] = STACK_END;
    x[10..10 + args.len()].copy_from_slice(args);
    Hart { pc, x }
}

/// How a run ends that begins where no instruction can stand.
fn misaligned_end(pc: u64, fuel: u64) -> RunEnd
    ensures { result ≡ (if fuel == 0 then RunEnd.OutOfFuel else RunEnd.Trap pc (Cause.Misaligned pc)) }
{
    if fuel == 0 {
        RunEnd::OutOfFuel
    } else {
        RunEnd::Trap(pc, Cause::Misaligned(pc))
    }
}
