ghost use Rattle.std.specs.Prelude.{◌≡◌, ◌<◌, ◌^◌, length};
ghost use Rattle.rv_asm.specs.Branches as want;

use crate::filling::distance;
use asm_state::{Code, Making, SymbolBook, Target, is_far};
use rv_insn::Insn;

/// The lesser of two line numbers.
fn lesser(line: Option<u32>, other: Option<u32>) -> Option<u32>
    ensures { result ≡ want.lesser line other }
{
    match (line, other) {
        (None, other) => other,
        (Some(line), None) => Some(line),
        (Some(line), Some(other)) => Some(line.min(other)),
    }
}

fn far_target(
    symbols: &SymbolBook,
    section: u32,
    at: u64,
    insn: Insn,
    target: Option<Target>,
) -> Option<u32>
    ensures { result ≡ want.far_target symbols.now section at insn target }
{
    match target {
        None => None,
        Some(target) => is_far(insn, distance(symbols, section, at, target.symbol)).then_some(
            target.line,
        ),
    }
}

/// The line of a branch whose label is too far.
#[tactic(auto, unfolding(crate::specs::Branches::far_line))]
fn far_line(symbols: &SymbolBook, section: u32, code: &Code) -> Option<u32>
    ensures { result ≡ want.far_line symbols.now section code.now }
{
    far_target(symbols, section, code.at, code.insn, code.target)
}

/// The first line with such a branch, among instructions of a section.
#[tactic(auto, using(crate::proofs::Firsts::lesser_assoc, crate::proofs::Firsts::lesser_none))]
fn first_far_in(symbols: &SymbolBook, section: u32, codes: &[Code]) -> Option<u32>
    ensures { result ≡ want.first_far_in symbols.now section codes.now }
{
    let mut first = None;
    for code in codes {
        first = lesser(first, far_line(symbols, section, code));
    }
    first
}

/// The first line with a branch whose label is too far.
#[tactic(auto, using(crate::proofs::Firsts::lesser_assoc, crate::proofs::Firsts::lesser_none))]
pub(crate) fn first_far(symbols: &SymbolBook, made: &[Making]) -> Option<u32>
    requires { length made.now < 2 ^ 32 }
    ensures { result ≡ want.first_far_from symbols.now 0 made.now }
{
    let mut first = None;
    for section in 0..made.len() {
        let line = first_far_in(symbols, section as u32, made[section].code());
        first = lesser(first, line);
    }
    first
}
