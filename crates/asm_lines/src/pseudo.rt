ghost use Rattle.std.specs.Prelude.{◌≡◌, ◌<◌, ◌+◌, ◌*◌, IfOk, IfSome};
ghost use Rattle.asm_lines.specs.Instructions as want;
ghost use Rattle.asm_lines.specs.Statements.{Encodable};
ghost use Rattle.rv_insn.specs.Range.{InRange, RangeFence};

use crate::fence::fence_operands;
use crate::immediates::{fixup_of, is_short, low_value};
use crate::operands::{ended, jalr_operands, one_label, register_and_label, two_registers};
use crate::pieces::Pieces;
use crate::statement::{AsmWhy, Statement};
use link_model::kinds::JAL;
use rv_insn::Insn;

/// jal rd, S.
#[tactic(auto, unfolding(crate::specs::Instructions::jal_statement))]
fn jal_statement(text: &[u8]) -> Result<Statement<'_>, AsmWhy>
    ensures exact { result ≡ want.jal_statement text.now }
    ensures encodable { IfOk result Encodable }
{
    let (rd, label) = register_and_label(text).ok_or(AsmWhy::Operands)?;
    let fixup = fixup_of(JAL, label)?;
    Ok(Statement::Code {
        insn: Insn::Jal { rd, imm: 0 },
        fixup: Some(fixup),
    })
}

/// jalr rd, N(rs1) or jalr rd, rs1, N.
#[tactic(auto, unfolding(crate::specs::Instructions::jalr_statement))]
fn jalr_statement(text: &[u8]) -> Result<Statement<'_>, AsmWhy>
    ensures exact { result ≡ want.jalr_statement text.now }
    ensures encodable { IfOk result Encodable }
{
    let (rd, rs1, low) = jalr_operands(text).ok_or(AsmWhy::Operands)?;
    let (imm, fixup) = low_value(false, low)?;
    Ok(Statement::Code {
        insn: Insn::Jalr { rd, rs1, imm },
        fixup,
    })
}

/// The word of a fence (RISC-V unprivileged manual, "Memory Ordering Instructions").
fn fence_word(before: u32, after: u32) -> u32
    requires before { before < 16 }
    requires after { after < 16 }
    ensures exact { result ≡ before * 0x1000000 + after * 0x100000 + 15 }
    ensures in_range { RangeFence result 0x0F 0 }
{
    before * 0x100_0000 + after * 0x10_0000 + 0x0F
}

#[tactic(auto, unfolding(crate::specs::Instructions::fence_statement))]
fn fence_statement(text: &[u8]) -> Result<Statement<'_>, AsmWhy>
    ensures exact { result ≡ want.fence_statement text.now }
    ensures encodable { IfOk result Encodable }
{
    let (before, after) = fence_operands(text).ok_or(AsmWhy::Operands)?;
    Ok(Statement::Code {
        insn: Insn::Fence {
            word: fence_word(before, after),
        },
        fixup: None,
    })
}

/// mv rd, rs.
#[tactic(auto, unfolding(crate::specs::Instructions::mv_statement))]
fn mv_statement(text: &[u8]) -> Result<Statement<'_>, AsmWhy>
    ensures exact { result ≡ want.mv_statement text.now }
    ensures encodable { IfOk result Encodable }
{
    let (rd, rs1) = two_registers(text).ok_or(AsmWhy::Operands)?;
    Ok(Statement::Code {
        insn: Insn::Addi { rd, rs1, imm: 0 },
        fixup: None,
    })
}

/// j S.
#[tactic(auto, unfolding(crate::specs::Instructions::j_statement))]
fn j_statement(text: &[u8]) -> Result<Statement<'_>, AsmWhy>
    ensures exact { result ≡ want.j_statement text.now }
    ensures encodable { IfOk result Encodable }
{
    let label = one_label(text).ok_or(AsmWhy::Operands)?;
    let fixup = fixup_of(JAL, label)?;
    Ok(Statement::Code {
        insn: Insn::Jal { rd: 0, imm: 0 },
        fixup: Some(fixup),
    })
}

/// call S, which goes by way of ra and links there, or tail S, by way of t1.
#[tactic(auto, unfolding(crate::specs::Instructions::call_statement))]
fn call_statement(way: u8, link: u8, text: &[u8]) -> Result<Statement<'_>, AsmWhy>
    requires way { way < 32 }
    requires link { link < 32 }
    ensures exact { result ≡ want.call_statement way link text.now }
    ensures encodable { IfOk result Encodable }
{
    let label = one_label(text).ok_or(AsmWhy::Operands)?;
    if !is_short(&label.symbol) {
        return Err(AsmWhy::Name);
    }
    Ok(Statement::Call {
        first: Insn::Auipc { rd: way, imm: 0 },
        second: Insn::Jalr {
            rd: link,
            rs1: way,
            imm: 0,
        },
        symbol: label.symbol,
    })
}

/// The instruction of a word that takes no operands.
#[tactic(auto, unfolding(crate::specs::Instructions::bare_insn))]
fn bare_insn(word: &[u8]) -> Option<Insn>
    ensures exact { result ≡ want.bare_insn word.now }
    ensures in_range { IfSome result InRange }
{
    if word == b"ecall".as_slice() {
        Some(Insn::Ecall)
    } else if word == b"ebreak".as_slice() {
        Some(Insn::Ebreak)
    } else if word == b"nop".as_slice() {
        Some(Insn::Addi {
            rd: 0,
            rs1: 0,
            imm: 0,
        })
    } else if word == b"ret".as_slice() {
        Some(Insn::Jalr {
            rd: 0,
            rs1: 1,
            imm: 0,
        })
    } else {
        None
    }
}

#[tactic(auto, unfolding(crate::specs::Instructions::bare_statement))]
fn bare_statement<'a>(word: &[u8], text: &'a [u8]) -> Result<Statement<'a>, AsmWhy>
    ensures exact { result ≡ want.bare_statement word.now text.now }
    ensures encodable { IfOk result Encodable }
{
    let insn = bare_insn(word).ok_or(AsmWhy::Word)?;
    let insn = ended(Pieces::new(text), insn).ok_or(AsmWhy::Operands)?;
    Ok(Statement::Code { insn, fixup: None })
}

/// The statement of a word that stands for itself: one instruction or a pseudo-instruction.
#[tactic(auto, unfolding(crate::specs::Instructions::pseudo_statement))]
pub(crate) fn pseudo_statement<'a>(word: &[u8], text: &'a [u8]) -> Result<Statement<'a>, AsmWhy>
    ensures exact { result ≡ want.pseudo_statement word.now text.now }
    ensures encodable { IfOk result Encodable }
{
    if word == b"jal".as_slice() {
        jal_statement(text)
    } else if word == b"jalr".as_slice() {
        jalr_statement(text)
    } else if word == b"fence".as_slice() {
        fence_statement(text)
    } else if word == b"mv".as_slice() {
        mv_statement(text)
    } else if word == b"j".as_slice() {
        j_statement(text)
    } else if word == b"call".as_slice() {
        call_statement(1, 1, text)
    } else if word == b"tail".as_slice() {
        call_statement(6, 0, text)
    } else {
        bare_statement(word, text)
    }
}
