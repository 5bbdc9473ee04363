ghost use Rattle.std.specs.Prelude.{◌≡◌, ◌+◌, ◌<◌, ◌≤◌, MatchOption, IfSome, None, Some, length};
ghost use Rattle.asm_lines.specs.Numbers.{number_of};
ghost use Rattle.asm_lines.specs.Values as want;

use crate::name::Name;
use crate::numbers::number_of;
use crate::registers::register_of;
use crate::words::{after_blanks, after_place, before_blanks, is_symbol, len_before, trimmed};

/// Which part of an address an operand stands for (RISC-V Assembly Programmer's Manual, "Assembler
/// Relocation Functions").
#[derive(Clone, Copy)]
pub enum Part {
    Hi,
    Lo,
    PcrelHi,
    PcrelLo,
    GotPcrelHi,
}

/// A symbol and a number that is added to its address.
#[derive(Drop)]
pub struct Reference<'a> {
    pub symbol: Name<'a>,
    pub addend: i128,
}

/// An operand that stands for a value.
#[derive(Drop)]
pub enum Operand<'a> {
    Number(i128),
    Address(Part, Reference<'a>),
}

/// S+N.
#[tactic(auto, unfolding(crate::specs::Values::sum_of))]
fn sum_of(text: &[u8]) -> Option<Reference<'_>>
    ensures { result ≡ want.sum_of text.now }
{
    let n = len_before(text, b'+');
    if !is_symbol(&text[..n]) {
        return None;
    }
    let addend = number_of(after_place(text, n))?;
    Some(Reference {
        symbol: Name::new(&text[..n]),
        addend,
    })
}

/// The opposite of the number that a text is.
fn opposite_of(text: &[u8]) -> Option<i128>
    ensures { result ≡ want.opposite_of (number_of text.now) }
{
    match number_of(text) {
        None => None,
        Some(n) => Some(-n),
    }
}

/// S-N.
#[tactic(auto, unfolding(crate::specs::Values::difference_of))]
pub(crate) fn difference_of(text: &[u8]) -> Option<Reference<'_>>
    ensures { result ≡ want.difference_of text.now }
{
    let n = len_before(text, b'-');
    if !is_symbol(&text[..n]) {
        return None;
    }
    let addend = opposite_of(after_place(text, n))?;
    Some(Reference {
        symbol: Name::new(&text[..n]),
        addend,
    })
}

/// S or S+N.
#[tactic(auto, unfolding(crate::specs::Values::reference_of))]
pub(crate) fn reference_of(text: &[u8]) -> Option<Reference<'_>>
    ensures { result ≡ want.reference_of text.now }
{
    match label_of(text) {
        None => sum_of(text),
        Some(reference) => Some(reference),
    }
}

/// A symbol alone.
pub(crate) fn label_of(text: &[u8]) -> Option<Reference<'_>>
    ensures { result ≡ want.label_of text.now }
{
    is_symbol(text).then_some(Reference {
        symbol: Name::new(text),
        addend: 0,
    })
}

/// What stands between a pair of parentheses that are the first and the last byte.
#[tactic(auto, unfolding(crate::specs::Values::enclosed))]
fn enclosed(text: &[u8]) -> Option<&[u8]>
    ensures { MatchOption result (want.enclosed text.now ≡ None) (λ inner. want.enclosed text.now ≡ Some inner.now) }
{
    match text {
        [b'(', inner @ .., b')'] => Some(trimmed(inner)),
        _ => None,
    }
}

#[tactic(auto, unfolding(crate::specs::Values::part_named))]
fn part_named(name: &[u8]) -> Option<Part>
    ensures { result ≡ want.part_named name.now }
{
    if name == b"hi".as_slice() {
        Some(Part::Hi)
    } else if name == b"lo".as_slice() {
        Some(Part::Lo)
    } else if name == b"pcrel_hi".as_slice() {
        Some(Part::PcrelHi)
    } else if name == b"pcrel_lo".as_slice() {
        Some(Part::PcrelLo)
    } else if name == b"got_pcrel_hi".as_slice() {
        Some(Part::GotPcrelHi)
    } else {
        None
    }
}

/// What a part takes: `%pcrel_lo` a label, the others S or S+N.
fn part_reference(part: Part, inner: &[u8]) -> Option<Reference<'_>>
    ensures { result ≡ want.part_reference part inner.now }
{
    match part {
        Part::PcrelLo => label_of(inner),
        Part::Hi | Part::Lo | Part::PcrelHi | Part::GotPcrelHi => reference_of(inner),
    }
}

/// NAME(S+N), as it stands after the percent sign.
#[tactic(auto, unfolding(crate::specs::Values::part_of))]
fn part_of(text: &[u8]) -> Option<Operand<'_>>
    ensures { result ≡ want.part_of text.now }
{
    let n = len_before(text, b'(');
    let part = part_named(before_blanks(&text[..n]))?;
    let inner = enclosed(&text[n..])?;
    Some(Operand::Address(part, part_reference(part, inner)?))
}

fn numbered(number: Option<i128>) -> Option<Operand<'static>>
    ensures { result ≡ want.numbered number }
{
    match number {
        None => None,
        Some(n) => Some(Operand::Number(n)),
    }
}

/// A number or a part of an address.
#[tactic(auto, unfolding(crate::specs::Values::operand_of))]
fn operand_of(text: &[u8]) -> Option<Operand<'_>>
    ensures { result ≡ want.operand_of text.now }
{
    match text {
        [] => None,
        [b'%', part @ ..] => part_of(part),
        _ => numbered(number_of(text)),
    }
}

fn is_low(part: Part) -> bool
    ensures { result ≡ want.is_low part }
{
    match part {
        Part::Lo | Part::PcrelLo => true,
        Part::Hi | Part::PcrelHi | Part::GotPcrelHi => false,
    }
}

/// What a place of twelve bits takes: a number, `%lo` or `%pcrel_lo`.
#[tactic(auto, unfolding(crate::specs::Values::low_of))]
pub(crate) fn low_of(text: &[u8]) -> Option<Operand<'_>>
    ensures { result ≡ want.low_of text.now }
{
    match operand_of(text)? {
        Operand::Number(n) => Some(Operand::Number(n)),
        Operand::Address(part, reference) => {
            is_low(part).then_some(Operand::Address(part, reference))
        }
    }
}

/// What the place of an upper part takes: a number, `%hi`, `%pcrel_hi` or `%got_pcrel_hi`.
#[tactic(auto, unfolding(crate::specs::Values::high_of))]
pub(crate) fn high_of(text: &[u8]) -> Option<Operand<'_>>
    ensures { result ≡ want.high_of text.now }
{
    match operand_of(text)? {
        Operand::Number(n) => Some(Operand::Number(n)),
        Operand::Address(part, reference) => {
            (!is_low(part)).then_some(Operand::Address(part, reference))
        }
    }
}

/// How many bytes stand before the parenthesis of the register.
fn base_at(text: &[u8]) -> usize
    ensures exact { result ≡ want.base_at text.now }
    ensures inside { result ≤ length text.now + 1 }
{
    match text {
        [b'%', ..] => len_before(text, b')') + 1,
        _ => len_before(text, b'('),
    }
}

/// N(register).
#[tactic(auto, unfolding(crate::specs::Values::based_of))]
pub(crate) fn based_of(text: &[u8]) -> Option<(Operand<'_>, u8)>
    ensures exact { result ≡ want.based_of text.now }
    ensures register { IfSome result (λ p. p.1 < 32) }
{
    let n = base_at(text).min(text.len());
    let low = low_of(before_blanks(&text[..n]))?;
    let base = register_of(enclosed(after_blanks(&text[n..]))?)?;
    Some((low, base))
}
