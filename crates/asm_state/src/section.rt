ghost use Rattle.std.specs.Prelude.{◌≡◌, ◌+◌, ◌≤◌, length, OnOk, false, All};
ghost use Rattle.rv_insn.specs.Range.{InRange};
ghost use Rattle.asm_state.specs.declared.section.Code.{Code as CodeSeen};
ghost use Rattle.asm_state.specs.Sections as want;

use asm_lines::SectionKind;
use rv_insn::Insn;
use std::alloc::{AllocError, Global};
use std::marker::Model;

/// The label that a branch or a jump goes to, if it is filled in.
#[derive(Clone, Copy)]
pub struct Target {
    /// The symbol's number.
    pub symbol: u32,
    /// The number of the branch's line.
    pub line: u32,
}

/// An instruction and its place.
#[derive(Clone, Copy)]
pub struct Code {
    pub at: u64,
    pub insn: Insn,
    pub target: Option<Target>,
}

/// A relocation and its place; `symbol` is none for symbol 0, and one that `fills` stands only where the
/// branch of its place isn't filled in.
#[derive(Clone, Copy)]
pub struct Patch {
    pub at: u64,
    pub kind: u32,
    pub symbol: Option<u32>,
    pub addend: i64,
    pub fills: bool,
}

/// A section in the making. Contracts see the record `Made`.
#[derive(Drop)]
pub struct Making {
    kind: SectionKind,
    align: u64,
    size: u64,
    bytes: Vec<u8>,
    code: Vec<Code>,
    patches: Vec<Patch>,
}

impl Model for Making {
    ghost use Rattle.asm_state.specs.Sections.{Made, IsMade};

    ghost Value = { Made };

    ghost view = { λ m. record {
      kind = m.kind;
      align = m.align;
      size = m.size;
      bytes = m.bytes.items;
      code = m.code.items;
      patches = m.patches.items;
    } };

    ghost invariant = { λ m. IsMade (record {
      kind = m.kind;
      align = m.align;
      size = m.size;
      bytes = m.bytes.items;
      code = m.code.items;
      patches = m.patches.items;
    }) };
}

impl Making {
    /// A section without bytes; takes no memory.
    pub fn new(alloc: Global, kind: SectionKind, align: u64) -> Making
        ensures { result ≡ want.fresh kind align }
    {
        Making {
            kind,
            align,
            size: 0,
            bytes: Vec::new(alloc),
            code: Vec::new(alloc),
            patches: Vec::new(alloc),
        }
    }

    pub fn kind(&self) -> SectionKind
        ensures { result ≡ self.now.kind }
    {
        self.kind
    }

    pub fn align(&self) -> u64
        ensures { result ≡ self.now.align }
    {
        self.align
    }

    pub fn size(&self) -> u64
        ensures exact { result ≡ self.now.size }
        ensures small { result ≤ want.largest }
    {
        self.size
    }

    pub fn bytes(&self) -> &[u8]
        ensures exact { result.now ≡ self.now.bytes }
        ensures sized { want.is_bss self.now.kind ≡ false → self.now.size ≡ length result.now }
    {
        self.bytes.as_slice()
    }

    pub fn code(&self) -> &[Code]
        ensures exact { result.now ≡ self.now.code }
        ensures in_range { All (λ (c : CodeSeen). InRange c.insn) result.now }
        ensures placed { want.StandIn 0 result.now (length self.now.bytes) }
    {
        self.code.as_slice()
    }

    pub fn patches(&self) -> &[Patch]
        ensures { result.now ≡ self.now.patches }
    {
        self.patches.as_slice()
    }

    pub fn raise(&mut self, align: u64)
        ensures { self.new ≡ want.raised align self.old }
    {
        self.align = align.max(self.align);
    }

    pub fn put_bytes(&mut self, bytes: &[u8]) -> Result<(), AllocError>
        requires kind { want.is_bss self.old.kind ≡ false }
        requires room { self.old.size + length bytes.now ≤ want.largest }
        ensures { OnOk result (self.new ≡ want.with_bytes bytes.now self.old) }
    {
        self.bytes.extend_from_slice(bytes)?;
        self.size += bytes.len() as u64;
        Ok(())
    }

    pub fn put_zeros(&mut self, n: u64) -> Result<(), AllocError>
        requires room { self.old.size + n ≤ want.largest }
        ensures { OnOk result (self.new ≡ want.with_zeros n self.old) }
    {
        if is_bss(self.kind) {
            self.size += n;
            return Ok(());
        }
        self.bytes.resize(self.bytes.len() + n as usize, 0)?;
        self.size += n;
        Ok(())
    }

    pub fn put_code(&mut self, insn: Insn, target: Option<Target>) -> Result<(), AllocError>
        requires kind { want.is_bss self.old.kind ≡ false }
        requires room { self.old.size + 4 ≤ want.largest }
        requires range { InRange insn }
        ensures { OnOk result (self.new ≡ want.with_code insn target self.old) }
    {
        let at = self.size;
        self.code.push(Code { at, insn, target })?;
        match self.bytes.extend_from_slice(&[0, 0, 0, 0]) {
            Ok(()) => {
                self.size += 4;
                Ok(())
            }
            Err(e) => {
                self.code.pop();
                Err(e)
            }
        }
    }

    pub fn put_patch(
        &mut self,
        kind: u32,
        symbol: Option<u32>,
        addend: i64,
        fills: bool,
    ) -> Result<(), AllocError>
        ensures { OnOk result (self.new ≡ want.with_patch kind symbol addend fills self.old) }
    {
        self.patches.push(Patch {
            at: self.size,
            kind,
            symbol,
            addend,
            fills,
        })?;
        Ok(())
    }
}

/// Whether a section has zeros alone, which aren't in the file.
pub fn is_bss(kind: SectionKind) -> bool
    ensures { result ≡ want.is_bss kind }
{
    match kind {
        SectionKind::Bss => true,
        SectionKind::Text | SectionKind::Data | SectionKind::ReadOnly => false,
    }
}
