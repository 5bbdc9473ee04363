ghost use Rattle.std.specs.Prelude.{◌≡◌, ◌<◌, ◌^◌, ◌*◌, IfOk, true};
ghost use Rattle.orc_words.specs.Bits.{fits_bits, low_of, signed_of};
ghost use Rattle.asm_lines.specs.Instructions as want;
ghost use Rattle.asm_lines.specs.Statements.{fixup_of, is_short};

use crate::name::Name;
use crate::statement::{AsmWhy, Fixup};
use crate::values::{Operand, Part, Reference};
use link_model::kinds::{GOT_HI20, HI20, LO12_I, LO12_S, PCREL_HI20, PCREL_LO12_I, PCREL_LO12_S};
use orc_words::{fits_signed, sign_extend};

/// The most bytes that a symbol has.
const LONGEST_NAME: usize = 4096;

pub(crate) fn is_short(symbol: &Name) -> bool
    ensures { result ≡ is_short symbol.now }
{
    symbol.as_slice().len() <= LONGEST_NAME
}

/// The relocation against a symbol.
pub(crate) fn fixup_of(kind: u32, reference: Reference<'_>) -> Result<Fixup<'_>, AsmWhy>
    ensures { result ≡ fixup_of kind reference.entry }
{
    let Reference { symbol, addend } = reference;
    if !fits_signed::<64>(addend) {
        return Err(AsmWhy::Number);
    }
    if !is_short(&symbol) {
        return Err(AsmWhy::Name);
    }
    Ok(Fixup {
        kind,
        symbol,
        addend: addend as i64,
    })
}

/// The relocation of a low part, in an instruction that stores or in one that doesn't.
fn low_kind(store: bool, part: Part) -> u32
    ensures { result ≡ want.low_kind store part }
{
    match part {
        Part::PcrelLo => if store { PCREL_LO12_S } else { PCREL_LO12_I },
        Part::Hi | Part::Lo | Part::PcrelHi | Part::GotPcrelHi => plain_low_kind(store),
    }
}

fn plain_low_kind(store: bool) -> u32
    ensures { result ≡ want.low_kind store Part.Lo }
{
    if store { LO12_S } else { LO12_I }
}

fn high_kind(part: Part) -> u32
    ensures { result ≡ want.high_kind part }
{
    match part {
        Part::Hi => HI20,
        Part::PcrelHi => PCREL_HI20,
        Part::Lo | Part::PcrelLo | Part::GotPcrelHi => GOT_HI20,
    }
}

/// The immediate of twelve bits of an operand, and its relocation.
#[tactic(auto, unfolding(crate::specs::Instructions::low_value))]
pub(crate) fn low_value(
    store: bool,
    operand: Operand<'_>,
) -> Result<(i64, Option<Fixup<'_>>), AsmWhy>
    ensures exact { result ≡ want.low_value store operand.entry }
    ensures in_range { IfOk result (λ v. fits_bits 12 v.0 ≡ true) }
{
    match operand {
        Operand::Number(n) => Ok((low_number(n)?, None)),
        Operand::Address(part, reference) => {
            let fixup = fixup_of(low_kind(store, part), reference)?;
            Ok((0, Some(fixup)))
        }
    }
}

fn low_number(n: i128) -> Result<i64, AsmWhy>
    ensures exact { result ≡ want.low_number n }
    ensures in_range { IfOk result (λ imm. fits_bits 12 imm ≡ true) }
{
    if !fits_signed::<12>(n) {
        return Err(AsmWhy::Number);
    }
    Ok(n as i64)
}

/// The number of an upper part of twenty bits.
fn high_number(n: i128) -> Result<i64, AsmWhy>
    ensures exact { result ≡ want.high_number n }
    ensures in_range { IfOk result (λ imm. fits_bits 32 imm ≡ true) }
    ensures upper { IfOk result (λ imm. low_of 12 imm ≡ 0) }
{
    if n < 0 || n >= 1 << 20 {
        return Err(AsmWhy::Number);
    }
    Ok(upper_part(n as u64))
}

/// Twenty bits above twelve zero bits, as a signed number.
fn upper_part(n: u64) -> i64
    requires { n < 2 ^ 20 }
    ensures exact { result ≡ signed_of 32 (n * 4096) }
    ensures in_range { fits_bits 32 result ≡ true }
    ensures upper { low_of 12 result ≡ 0 }
{
    sign_extend::<32>(n * 4096)
}

/// The upper part of an operand, and its relocation.
#[tactic(auto, unfolding(crate::specs::Instructions::high_value))]
pub(crate) fn high_value(operand: Operand<'_>) -> Result<(i64, Option<Fixup<'_>>), AsmWhy>
    ensures exact { result ≡ want.high_value operand.entry }
    ensures in_range { IfOk result (λ v. fits_bits 32 v.0 ≡ true) }
    ensures upper { IfOk result (λ v. low_of 12 v.0 ≡ 0) }
{
    match operand {
        Operand::Number(n) => Ok((high_number(n)?, None)),
        Operand::Address(part, reference) => {
            let fixup = fixup_of(high_kind(part), reference)?;
            Ok((0, Some(fixup)))
        }
    }
}
