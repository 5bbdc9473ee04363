//! The object of a function.
ghost use Rattle.std.specs.Prelude.{◌≡◌, ◌++◌, ◌<◌, ◌≤◌, ◌^◌, ◌∷◌, [], IfOk, OnOk};
ghost use Rattle.elf_write.specs.Bytes.{number_bytes};
ghost use Rattle.elf_write.specs.Canonical.{Canonical};
ghost use Rattle.elf_read.specs.Symbols.{symbol_zero};
ghost use Rattle.generated_objects.specs.Objects.{code, defined, function_name, generated_object, linked_object, lone_object, object_calling, text_section};

use crate::rings::next;
use elf_read::{ElfObject, Reloc, Relocs, Section, Sections, SymPlace, Symbol, Symbols};
use link_model::kinds::CALL_PLT;
use orc_ids::Bytes;
use shared_bytes::SharedBytes;
use std::alloc::{AllocError, Global};
use text_parts::put_numbered;

/// `SHT_PROGBITS`.
const PROGBITS: u32 = 1;

/// `SHF_ALLOC` and `SHF_EXECINSTR`.
const CODE: u64 = 6;

/// Where the words of the tail call begin.
pub(crate) const CALL_AT: u64 = 8;

/// How many bytes the code has.
pub(crate) const CODE_SIZE: u64 = 24;

/// `STB_GLOBAL`.
const GLOBAL: u8 = 1;

/// `beq a0, zero, +16`, which leads to the last two words.
const BRANCH: u32 = 0x0005_0863;

/// `addi a0, a0, -1`.
const COUNT_DOWN: u32 = 0xFFF5_0513;

/// `auipc t1, 0` and `jalr zero, 0(t1)`, which a linker completes.
const TAIL: [u32; 2] = [0x0000_0317, 0x0003_0067];

/// `addi a0, zero, 0`.
const LOAD: u32 = 0x513;

/// `ret`.
const RETURN: u32 = 0x0000_8067;

/// The name of function `k`.
fn name_of(alloc: Global, k: u32) -> Result<SharedBytes, AllocError>
    ensures { IfOk result (λ name. name ≡ function_name k) }
{
    let mut text = Vec::new(alloc);
    put_numbered(&mut text, b"f", k)?;
    SharedBytes::from_bytes(alloc, Bytes::from_vec(text))
}

/// A word in little-endian order.
#[tactic(auto, unfolding(elf_write::specs::Bytes::number_bytes))]
fn put_word(code: &mut Vec<u8>, word: u32) -> Result<(), AllocError>
    ensures { OnOk result (code.new.items ≡ code.old.items ++ number_bytes 4 word) }
{
    code.extend_from_slice(&[
        (word % 256) as u8,
        (word / 256 % 256) as u8,
        (word / 256 / 256 % 256) as u8,
        (word / 256 / 256 / 256 % 256) as u8,
    ])
}

/// The code of function `k`.
pub(crate) fn code(alloc: Global, k: u32) -> Result<SharedBytes, AllocError>
    ensures { IfOk result (λ bytes. bytes ≡ code k) }
{
    let mut code = Vec::with_capacity(alloc, CODE_SIZE as usize)?;
    put_word(&mut code, BRANCH)?;
    put_word(&mut code, COUNT_DOWN)?;
    put_word(&mut code, TAIL[0])?;
    put_word(&mut code, TAIL[1])?;
    put_word(&mut code, (k % 256) * 0x0010_0000 + LOAD)?;
    put_word(&mut code, RETURN)?;
    SharedBytes::from_bytes(alloc, Bytes::from_vec(code))
}

/// The one section, in which the symbol of this number is called.
fn text_section(alloc: Global, symbol: u32, k: u32) -> Result<Section, AllocError>
    ensures { IfOk result (λ section. section ≡ text_section symbol k) }
{
    let mut relocs = Vec::new(alloc);
    relocs.push(Reloc {
        at: CALL_AT,
        kind: CALL_PLT,
        symbol,
        addend: 0,
    })?;
    Ok(Section {
        name: SharedBytes::copy_of(alloc, b".text")?,
        kind: PROGBITS,
        flags: CODE,
        align: 4,
        size: CODE_SIZE,
        bytes: code(alloc, k)?,
        relocs: Relocs::from_vec(relocs),
    })
}

/// Symbol 0 is empty.
fn symbol_zero() -> Symbol
    ensures { result ≡ symbol_zero }
{
    Symbol {
        name: SharedBytes::empty(),
        bind: 0,
        kind: 0,
        vis: 0,
        place: SymPlace::Abs,
        value: 0,
        size: 0,
    }
}

/// The global symbol of function `k`, at its start or in another object.
fn function_symbol(alloc: Global, k: u32, place: SymPlace) -> Result<Symbol, AllocError>
    ensures { IfOk result (λ symbol. symbol ≡ record (defined k) { place = place }) }
{
    Ok(Symbol {
        name: name_of(alloc, k)?,
        bind: GLOBAL,
        kind: 0,
        vis: 0,
        place,
        value: 0,
        size: 0,
    })
}

/// An object of these.
fn object(section: Section, alloc: Global, symbols: Vec<Symbol>) -> Result<ElfObject, AllocError>
    ensures { IfOk result (λ object. object ≡ record { sections = section ∷ []; symbols = symbols.items }) }
{
    let mut sections = Vec::with_capacity(alloc, 1)?;
    sections.push(section)?;
    Ok(ElfObject {
        sections: Sections::from_vec(sections),
        symbols: Symbols::from_vec(symbols),
    })
}

/// The object of function `k`, which calls itself.
fn lone_object(alloc: Global, k: u32) -> Result<ElfObject, AllocError>
    ensures { IfOk result (λ object. object ≡ lone_object k) }
{
    let mut symbols = Vec::with_capacity(alloc, 2)?;
    symbols.push(symbol_zero())?;
    symbols.push(function_symbol(alloc, k, SymPlace::In(0))?)?;
    object(text_section(alloc, 1, k)?, alloc, symbols)
}

/// The object of function `k`, which calls one of another object.
fn linked_object(alloc: Global, callee: u32, k: u32) -> Result<ElfObject, AllocError>
    ensures { IfOk result (λ object. object ≡ linked_object callee k) }
{
    let mut symbols = Vec::with_capacity(alloc, 3)?;
    symbols.push(symbol_zero())?;
    symbols.push(function_symbol(alloc, k, SymPlace::In(0))?)?;
    symbols.push(function_symbol(alloc, callee, SymPlace::Undef)?)?;
    object(text_section(alloc, 2, k)?, alloc, symbols)
}

/// The object of function `k`, which calls this one.
fn object_calling(alloc: Global, callee: u32, k: u32) -> Result<ElfObject, AllocError>
    ensures { IfOk result (λ object. object ≡ object_calling callee k) }
{
    if callee == k {
        lone_object(alloc, k)
    } else {
        linked_object(alloc, callee, k)
    }
}

/// The object of function number `k` of `n`, whose numbers count from 0.
#[tactic(auto, using(crate::proofs::Canonicals::generated_canonical))]
pub fn object_of(alloc: Global, n: u32, k: u32) -> Result<ElfObject, AllocError>
    requires { k < n }
    ensures exact { IfOk result (λ object. object ≡ generated_object n k) }
    ensures canonical { IfOk result (λ object. Canonical object) }
{
    object_calling(alloc, next(n, k), k)
}
