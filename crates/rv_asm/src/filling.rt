ghost use Rattle.std.specs.Prelude.{◌≡◌, None, Some, false, true};
ghost use Rattle.asm_state.specs.Reach as reach;
ghost use Rattle.orc_words.specs.Bits.{fits_bits};
ghost use Rattle.rv_insn.specs.Range.{InRange};
ghost use Rattle.rv_asm.specs.Branches as want;

use crate::order::marks_of;
use asm_state::{Code, Patch, SymbolBook, Target, distance_to};
use rv_insn::Insn;

/// How far a symbol is from a place of a section, where it is a local label of that section.
#[tactic(auto, unfolding(crate::specs::Branches::distance))]
pub(crate) fn distance(symbols: &SymbolBook, section: u32, at: u64, symbol: u32) -> Option<i128>
    ensures { result ≡ want.distance symbols.now section at symbol }
{
    distance_to(section, at, marks_of(symbols, symbol))
}

/// A branch or a jump that goes so far.
fn with_distance(imm: i64, insn: Insn) -> Insn
    requires range { InRange insn }
    requires reached { reach.reaches insn imm ≡ true }
    ensures exact { result ≡ want.with_distance imm insn }
    ensures range { InRange result }
{
    match insn {
        Insn::Beq { rs1, rs2, .. } => Insn::Beq { rs1, rs2, imm },
        Insn::Bne { rs1, rs2, .. } => Insn::Bne { rs1, rs2, imm },
        Insn::Blt { rs1, rs2, .. } => Insn::Blt { rs1, rs2, imm },
        Insn::Bge { rs1, rs2, .. } => Insn::Bge { rs1, rs2, imm },
        Insn::Bltu { rs1, rs2, .. } => Insn::Bltu { rs1, rs2, imm },
        Insn::Bgeu { rs1, rs2, .. } => Insn::Bgeu { rs1, rs2, imm },
        Insn::Jal { rd, .. } => Insn::Jal { rd, imm },
        _ => insn,
    }
}

/// A distance that a jump can go, in fewer bits.
fn narrow(distance: i128) -> i64
    requires { fits_bits 21 distance ≡ true }
    ensures { result ≡ distance }
{
    distance as i64
}

/// The distance that a branch or a jump goes.
#[tactic(auto, using(crate::proofs::Ranges::jump_fits, crate::proofs::Ranges::branch_fits), unfolding(asm_state::specs::Reach::reaches))]
fn reached(insn: Insn, distance: i128) -> i64
    requires { reach.reaches insn distance ≡ true }
    ensures { result ≡ distance }
{
    match insn {
        Insn::Jal { .. } => narrow(distance),
        _ => narrow(distance),
    }
}

#[tactic(auto, using(crate::proofs::Ranges::casts))]
fn gone(distance: i128, insn: Insn) -> Insn
    requires range { InRange insn }
    requires near { reach.reaches insn distance ≡ true }
    ensures exact { result ≡ want.with_distance distance insn }
    ensures range { InRange result }
{
    with_distance(reached(insn, distance), insn)
}

fn going(distance: Option<i128>, insn: Insn) -> Insn
    requires range { InRange insn }
    requires near { reach.is_far insn distance ≡ false }
    ensures exact { result ≡ want.going distance insn }
    ensures range { InRange result }
{
    match distance {
        None => insn,
        Some(distance) => gone(distance, insn),
    }
}

fn targeted(symbols: &SymbolBook, section: u32, at: u64, insn: Insn, target: Target) -> Insn
    requires range { InRange insn }
    requires near { want.far_target symbols.now section at insn (Some target) ≡ None }
    ensures exact { result ≡ want.going (want.distance symbols.now section at target.symbol) insn }
    ensures range { InRange result }
{
    going(distance(symbols, section, at, target.symbol), insn)
}

/// The instruction as it stands in its section.
#[tactic(auto, unfolding(crate::specs::Branches::filled, crate::specs::Branches::far_line))]
pub(crate) fn filled(symbols: &SymbolBook, section: u32, code: &Code) -> Insn
    requires range { InRange code.now.insn }
    requires near { want.far_line symbols.now section code.now ≡ None }
    ensures exact { result ≡ want.filled symbols.now section code.now }
    ensures range { InRange result }
{
    match code.target {
        None => code.insn,
        Some(target) => targeted(symbols, section, code.at, code.insn, target),
    }
}

fn patch_distance(symbols: &SymbolBook, section: u32, at: u64, symbol: Option<u32>) -> Option<i128>
    ensures { result ≡ want.patch_distance symbols.now section at symbol }
{
    match symbol {
        None => None,
        Some(symbol) => distance(symbols, section, at, symbol),
    }
}

/// Whether a relocation is the one of a branch that is filled in.
#[tactic(auto, unfolding(crate::specs::Branches::is_filled))]
pub(crate) fn is_filled(symbols: &SymbolBook, section: u32, patch: &Patch) -> bool
    ensures { result ≡ want.is_filled symbols.now section patch.now }
{
    patch.fills && patch_distance(symbols, section, patch.at, patch.symbol).is_some()
}
