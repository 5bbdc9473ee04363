ghost use Rattle.std.specs.Prelude.{◌≡◌, ◌<◌, IfSome};
ghost use Rattle.asm_lines.specs.Instructions as want;
ghost use Rattle.asm_lines.specs.Numbers.{number_of};
ghost use Rattle.asm_lines.specs.Pieces.{pieces_of, ending};
ghost use Rattle.asm_lines.specs.Values.{label_of, low_of, high_of, based_of};

use crate::numbers::number_of;
use crate::pieces::Pieces;
use crate::registers::register_of;
use crate::values::{Operand, Reference, based_of, high_of, label_of, low_of};

/// The value that was read, if no operand is left.
pub(crate) fn ended<T: Drop>(mut pieces: Pieces, value: T) -> Option<T>
    ensures { result ≡ ending value pieces.entry }
{
    match pieces.next() {
        None => Some(value),
        Some(_) => None,
    }
}

#[tactic(auto, unfolding(crate::specs::Instructions::three_registers))]
pub(crate) fn three_registers(text: &[u8]) -> Option<(u8, u8, u8)>
    ensures exact { result ≡ want.three_registers (pieces_of text.now) }
    ensures registers { IfSome result (λ p. (p.0 < 32) × (p.1 < 32) × (p.2 < 32)) }
{
    let mut pieces = Pieces::new(text);
    let rd = register_of(pieces.next()?)?;
    let rs1 = register_of(pieces.next()?)?;
    let rs2 = register_of(pieces.next()?)?;
    ended(pieces, (rd, rs1, rs2))
}

#[tactic(auto, unfolding(crate::specs::Instructions::two_registers_and))]
pub(crate) fn two_registers_and_low(text: &[u8]) -> Option<(u8, u8, Operand<'_>)>
    ensures exact { result ≡ want.two_registers_and low_of (pieces_of text.now) }
    ensures registers { IfSome result (λ p. (p.0 < 32) × (p.1 < 32)) }
{
    let mut pieces = Pieces::new(text);
    let rd = register_of(pieces.next()?)?;
    let rs1 = register_of(pieces.next()?)?;
    let low = low_of(pieces.next()?)?;
    ended(pieces, (rd, rs1, low))
}

#[tactic(auto, unfolding(crate::specs::Instructions::two_registers_and))]
pub(crate) fn two_registers_and_number(text: &[u8]) -> Option<(u8, u8, i128)>
    ensures exact { result ≡ want.two_registers_and number_of (pieces_of text.now) }
    ensures registers { IfSome result (λ p. (p.0 < 32) × (p.1 < 32)) }
{
    let mut pieces = Pieces::new(text);
    let rd = register_of(pieces.next()?)?;
    let rs1 = register_of(pieces.next()?)?;
    let amount = number_of(pieces.next()?)?;
    ended(pieces, (rd, rs1, amount))
}

#[tactic(auto, unfolding(crate::specs::Instructions::two_registers_and))]
pub(crate) fn two_registers_and_label(text: &[u8]) -> Option<(u8, u8, Reference<'_>)>
    ensures exact { result ≡ want.two_registers_and label_of (pieces_of text.now) }
    ensures registers { IfSome result (λ p. (p.0 < 32) × (p.1 < 32)) }
{
    let mut pieces = Pieces::new(text);
    let rs1 = register_of(pieces.next()?)?;
    let rs2 = register_of(pieces.next()?)?;
    let label = label_of(pieces.next()?)?;
    ended(pieces, (rs1, rs2, label))
}

#[tactic(auto, unfolding(crate::specs::Instructions::register_and))]
pub(crate) fn register_and_based(text: &[u8]) -> Option<(u8, (Operand<'_>, u8))>
    ensures exact { result ≡ want.register_and based_of (pieces_of text.now) }
    ensures registers { IfSome result (λ p. (p.0 < 32) × (p.1.1 < 32)) }
{
    let mut pieces = Pieces::new(text);
    let r = register_of(pieces.next()?)?;
    let based = based_of(pieces.next()?)?;
    ended(pieces, (r, based))
}

#[tactic(auto, unfolding(crate::specs::Instructions::register_and))]
pub(crate) fn register_and_high(text: &[u8]) -> Option<(u8, Operand<'_>)>
    ensures exact { result ≡ want.register_and high_of (pieces_of text.now) }
    ensures registers { IfSome result (λ p. p.0 < 32) }
{
    let mut pieces = Pieces::new(text);
    let rd = register_of(pieces.next()?)?;
    let high = high_of(pieces.next()?)?;
    ended(pieces, (rd, high))
}

#[tactic(auto, unfolding(crate::specs::Instructions::register_and))]
pub(crate) fn register_and_label(text: &[u8]) -> Option<(u8, Reference<'_>)>
    ensures exact { result ≡ want.register_and label_of (pieces_of text.now) }
    ensures registers { IfSome result (λ p. p.0 < 32) }
{
    let mut pieces = Pieces::new(text);
    let rd = register_of(pieces.next()?)?;
    let label = label_of(pieces.next()?)?;
    ended(pieces, (rd, label))
}

#[tactic(auto, unfolding(crate::specs::Instructions::two_registers))]
pub(crate) fn two_registers(text: &[u8]) -> Option<(u8, u8)>
    ensures exact { result ≡ want.two_registers (pieces_of text.now) }
    ensures registers { IfSome result (λ p. (p.0 < 32) × (p.1 < 32)) }
{
    let mut pieces = Pieces::new(text);
    let rd = register_of(pieces.next()?)?;
    let rs = register_of(pieces.next()?)?;
    ended(pieces, (rd, rs))
}

#[tactic(auto, unfolding(crate::specs::Instructions::one_label))]
pub(crate) fn one_label(text: &[u8]) -> Option<Reference<'_>>
    ensures { result ≡ want.one_label (pieces_of text.now) }
{
    let mut pieces = Pieces::new(text);
    let label = label_of(pieces.next()?)?;
    ended(pieces, label)
}

/// rd, N(rs1) or rd, rs1, N.
#[tactic(auto, unfolding(crate::specs::Instructions::jalr_operands))]
pub(crate) fn jalr_operands(text: &[u8]) -> Option<(u8, u8, Operand<'_>)>
    ensures exact { result ≡ want.jalr_operands (pieces_of text.now) }
    ensures registers { IfSome result (λ p. (p.0 < 32) × (p.1 < 32)) }
{
    match register_and_based(text) {
        None => two_registers_and_low(text),
        Some((rd, (low, rs1))) => Some((rd, rs1, low)),
    }
}
