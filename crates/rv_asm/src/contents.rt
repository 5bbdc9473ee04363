ghost use Rattle.std.specs.Prelude.{◌≡◌, ◌+◌, ◌≤◌, ℕ, false, All, None, length, slice_index, IfOk, if◌then◌else◌};
ghost use Rattle.orc_words.specs.Numbers.{with_number};
ghost use Rattle.rv_insn.specs.Range.{InRange};
ghost use Rattle.asm_state.specs.Sections.{StandIn, is_bss};
ghost use Rattle.asm_state.specs.declared.section.Code.{Code as CodeSeen};
ghost use Rattle.rv_asm.specs.Branches.{far_line, first_far_in, filled};
ghost use Rattle.rv_asm.specs.Sections as want;

use crate::filling::filled;
use asm_state::{Code, Making, SymbolBook, is_bss};
use orc_ids::Bytes;
use orc_words::put_le;
use rv_insn::encode;
use shared_bytes::SharedBytes;
use std::alloc::{AllocError, Global};

/// Puts the word of an instruction at its place.
fn put_word(symbols: &SymbolBook, section: u32, code: &Code, bytes: &mut [u8])
    requires range { InRange code.now.insn }
    requires near { far_line symbols.now section code.now ≡ None }
    requires inside { code.now.at + 4 ≤ length bytes.old }
    ensures len { length bytes.new ≡ length bytes.old }
    ensures word { (word : ℕ) × want.IsWord (filled symbols.now section code.now) word × (slice_index bytes.new ≡ with_number 4 code.now.at word (slice_index bytes.old)) }
{
    let insn = filled(symbols, section, code);
    put_le(bytes, code.at as usize, 4, encode(&insn) as u64);
}

/// Puts the words of instructions at their places.
fn put_words(symbols: &SymbolBook, section: u32, codes: &[Code], bytes: &mut [u8])
    requires range { All (λ (c : CodeSeen). InRange c.insn) codes.now }
    requires near { first_far_in symbols.now section codes.now ≡ None }
    requires inside { StandIn 0 codes.now (length bytes.old) }
    ensures len { length bytes.new ≡ length bytes.old }
    ensures encoded { want.Encoded symbols.now section codes.now (slice_index bytes.old) (slice_index bytes.new) }
{
    for code in codes {
        put_word(symbols, section, code, bytes);
    }
}

fn encoded(
    alloc: Global,
    symbols: &SymbolBook,
    section: u32,
    made: &Making,
) -> Result<SharedBytes, AllocError>
    requires { first_far_in symbols.now section made.now.code ≡ None }
    ensures exact { IfOk result (λ bytes. want.IsContents symbols.now section made.now bytes) }
    ensures sized { is_bss made.now.kind ≡ false → IfOk result (λ bytes. length bytes ≡ made.now.size) }
{
    let mut bytes = made.bytes().to_vec(alloc)?;
    put_words(symbols, section, made.code(), bytes.as_mut_slice());
    SharedBytes::from_bytes(alloc, Bytes::from_vec(bytes))
}

/// The bytes of a section in the file.
pub(crate) fn contents(
    alloc: Global,
    symbols: &SymbolBook,
    section: u32,
    made: &Making,
) -> Result<SharedBytes, AllocError>
    requires { first_far_in symbols.now section made.now.code ≡ None }
    ensures exact { IfOk result (λ bytes. want.Holds symbols.now section made.now bytes) }
    ensures sized { IfOk result (λ bytes. length bytes ≡ (if is_bss made.now.kind then 0 else made.now.size)) }
{
    if is_bss(made.kind()) {
        return Ok(SharedBytes::empty());
    }
    encoded(alloc, symbols, section, made)
}
