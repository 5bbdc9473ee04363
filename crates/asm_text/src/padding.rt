ghost use Rattle.std.specs.Prelude.{◌≡◌, ◌≤◌, ◌<◌, ◌*◌, true, length, OnOk, IfOk};
ghost use Rattle.std.specs.List.{repeat};
ghost use Rattle.asm_text.specs.Known as known;
ghost use Rattle.asm_text.specs.Refusals as refusals;
ghost use Rattle.asm_text.specs.Said as want;

use crate::assembler::Assembler;
use crate::refusals::is_text;
use std::alloc::{AllocError, Global};

/// `nop`, the lowest byte first.
const NOP: [u8; 4] = [0x13, 0, 0, 0];

/// `R_RISCV_ALIGN`.
const ALIGN: u32 = 43;

/// So many times `nop`.
fn nops(alloc: Global, n: usize) -> Result<Vec<u8>, AllocError>
    ensures exact { IfOk result (λ bytes. bytes.items ≡ repeat n want.nop) }
    ensures len { IfOk result (λ bytes. length bytes.items ≡ n * 4) }
{
    NOP.repeat(alloc, n)
}

impl<'a> Assembler<'a> {
    /// The bytes of `.balign`: instructions in text, zeros elsewhere.
    fn put_padding(&mut self, n: u64) -> Result<(), AllocError>
        requires { refusals.takes_padding n self.old ≡ true }
        ensures { OnOk result (self.new ≡ want.here (want.padding_bytes n self.old) self.old) }
    {
        if !is_text(self.sections.current_kind()) {
            return self.sections.put_zeros(n);
        }
        let bytes = nops(self.alloc, n as usize / 4)?;
        self.sections.put_bytes(&bytes)
    }

    /// Where the linker may relax, ALIGN marks the padding.
    fn mark_padding(&mut self, n: u64) -> Result<(), AllocError>
        requires { n ≤ 4096 }
        ensures known { OnOk result (self.new ≡ want.marked_padding n self.old) }
        ensures size { OnOk result (known.size_here self.new ≡ known.size_here self.old) }
        ensures kind { OnOk result (known.kind_here self.new ≡ known.kind_here self.old) }
    {
        if is_text(self.sections.current_kind()) && self.relax {
            self.sections.put_patch(ALIGN, None, n as i64, false)?;
        }
        Ok(())
    }

    #[tactic(auto, unfolding(crate::specs::Said::padded))]
    fn pad(&mut self, n: u64) -> Result<(), AllocError>
        requires small { n ≤ 4096 }
        requires room { refusals.takes_padding n self.old ≡ true }
        ensures { OnOk result (self.new ≡ want.padded n self.old) }
    {
        if n == 0 {
            return Ok(());
        }
        self.mark_padding(n)?;
        self.put_padding(n)
    }

    /// `.balign`
    pub fn put_align(&mut self, align: u64) -> Result<(), AllocError>
        requires positive { 0 < align }
        requires small { align ≤ 4096 }
        requires room { refusals.takes_padding (refusals.padding align self.old) self.old ≡ true }
        ensures { OnOk result (self.new ≡ want.aligned_next align self.old) }
    {
        let n = self.padding(align);
        self.pad(n)?;
        self.sections.raise(align);
        Ok(())
    }
}
