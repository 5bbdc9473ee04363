ghost use Rattle.std.specs.Prelude.{◌≡◌, ◌≤◌, ◌<◌, ◌+◌, ◌*◌, ◌^◌, true, length, OnOk, IfOk};
ghost use Rattle.std.specs.List.{list_all};
ghost use Rattle.orc_words.specs.Bits.{low_of, fits_bits};
ghost use Rattle.asm_lines.specs.Directives.{item_fits};
ghost use Rattle.asm_lines.specs.Statements.{fits_either};
ghost use Rattle.asm_text.specs.Bounds.{IsWidth};
ghost use Rattle.asm_text.specs.Known as known;
ghost use Rattle.asm_text.specs.Refusals.{takes_bytes};
ghost use Rattle.asm_text.specs.Said as want;

use crate::assembler::Assembler;
use asm_lines::{Item, Reference};
use std::alloc::AllocError;

/// The low 64 bits of a number, as two's complement has them.
fn low_bits(n: i128) -> u64
    requires { fits_either 64 n ≡ true }
    ensures { result ≡ low_of 64 n }
{
    if n < 0 {
        (n as i64).cast_unsigned()
    } else {
        n as u64
    }
}

/// The relocation of an address of four or eight bytes.
fn address_kind(width: u8) -> u32
    ensures { result ≡ want.address_kind width }
{
    if width == 4 { 1 } else { 2 }
}

impl<'a> Assembler<'a> {
    /// A number, the lowest byte first.
    #[tactic(auto, unfolding(crate::specs::Said::number_bytes))]
    fn put_number(&mut self, width: u8, n: i128) -> Result<(), AllocError>
        requires width { IsWidth width }
        requires fits { fits_either (8 * width) n ≡ true }
        requires room { takes_bytes width self.old ≡ true }
        ensures known { OnOk result (self.new ≡ want.here (want.with_number width n) self.old) }
        ensures size { OnOk result (known.size_here self.new ≡ known.size_here self.old + width) }
        ensures kind { OnOk result (known.kind_here self.new ≡ known.kind_here self.old) }
    {
        let bytes = low_bits(n).to_le_bytes();
        self.sections.put_bytes(&bytes[..width as usize])
    }

    /// An address, which its relocation writes.
    #[tactic(auto, using(crate::proofs::Sizes::zeros_size, crate::proofs::Sizes::zeros_kind))]
    fn put_address(&mut self, width: u8, reference: &Reference<'a>) -> Result<(), AllocError>
        requires fits { fits_bits 64 reference.now.addend ≡ true }
        requires room { takes_bytes width self.old ≡ true }
        ensures known { OnOk result (self.new ≡ want.with_address width reference.now self.old) }
        ensures size { OnOk result (known.size_here self.new ≡ known.size_here self.old + width) }
        ensures kind { OnOk result (known.kind_here self.new ≡ known.kind_here self.old) }
    {
        let addend = reference.addend as i64;
        self.put_relocation(
            address_kind(width),
            reference.symbol.as_slice(),
            addend,
            false,
        )?;
        self.sections.put_zeros(width as u64)
    }

    #[tactic(auto, unfolding(crate::specs::Said::with_item))]
    fn put_item(&mut self, width: u8, item: &Item<'a>) -> Result<(), AllocError>
        requires width { IsWidth width }
        requires fits { item_fits width item.now ≡ true }
        requires room { takes_bytes width self.old ≡ true }
        ensures known { OnOk result (self.new ≡ want.with_item width item.now self.old) }
        ensures size { OnOk result (known.size_here self.new ≡ known.size_here self.old + width) }
        ensures kind { OnOk result (known.kind_here self.new ≡ known.kind_here self.old) }
    {
        match item {
            Item::Number(n) => self.put_number(width, *n),
            Item::Address(reference) => self.put_address(width, reference),
        }
    }

    /// `.byte`, `.half`, `.word` and `.dword`.
    pub fn put_items(&mut self, width: u8, items: &[Item<'a>]) -> Result<(), AllocError>
        requires width { IsWidth width }
        requires fits { list_all (item_fits width) items.now ≡ true }
        requires room { takes_bytes (width * length items.now) self.old ≡ true }
        ensures { OnOk result (self.new ≡ want.with_items width items.now self.old) }
    {
        for item in items {
            self.put_item(width, item)?;
        }
        Ok(())
    }
}
