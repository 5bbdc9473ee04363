ghost use Rattle.std.specs.Prelude.{◌≡◌, ◌≤◌, IfOk, IfSome, true};
ghost use Rattle.asm_lines.specs.Insns.{op_insn_of, op_32_insn_of, imm_insn_of, shift_insn_of, shift_32_insn_of, load_insn_of, store_insn_of, branch_insn_of, upper_insn_of};
ghost use Rattle.asm_lines.specs.Instructions as want;
ghost use Rattle.asm_lines.specs.Statements.{Encodable};
ghost use Rattle.rv_insn.specs.Range.{InRange, is_number};

use crate::immediates::{fixup_of, high_value, low_value};
use crate::insns::{
    branch_insn, imm_insn, is_branch, is_imm, is_load, is_op, is_op_32, is_shift, is_shift_32,
    is_store, is_upper, load_insn, op_32_insn, op_insn, shift_32_insn, shift_insn, store_insn,
    upper_insn,
};
use crate::operands::{
    register_and_based, register_and_high, three_registers, two_registers_and_label,
    two_registers_and_low, two_registers_and_number,
};
use crate::pseudo::pseudo_statement;
use crate::statement::{AsmWhy, Fixup, Statement};
use link_model::kinds::BRANCH;
use rv_insn::Insn;

/// The statement of an instruction and its relocation; none of a word that names no instruction.
pub(crate) fn worded(insn: Option<Insn>, fixup: Option<Fixup<'_>>) -> Result<Statement<'_>, AsmWhy>
    requires { IfSome insn InRange }
    ensures exact { result ≡ want.worded insn fixup.entry }
    ensures encodable { IfOk result Encodable }
{
    match insn {
        None => Err(AsmWhy::Word),
        Some(insn) => Ok(Statement::Code { insn, fixup }),
    }
}

/// The amount of a shift.
fn amount_of(amount: i128, bits: u32) -> Result<i64, AsmWhy>
    requires { bits ≤ 6 }
    ensures exact { result ≡ want.amount_number bits amount }
    ensures in_range { IfOk result (λ n. is_number bits n ≡ true) }
{
    if amount < 0 || amount >= 1 << bits {
        return Err(AsmWhy::Number);
    }
    Ok(amount as i64)
}

/// The statement of three registers, on 64 bits.
#[tactic(auto, unfolding(crate::specs::Instructions::three_registers_statement))]
pub(crate) fn op_statement<'a>(word: &[u8], text: &'a [u8]) -> Result<Statement<'a>, AsmWhy>
    ensures exact { result ≡ want.three_registers_statement (op_insn_of word.now) text.now }
    ensures encodable { IfOk result Encodable }
{
    let (rd, rs1, rs2) = three_registers(text).ok_or(AsmWhy::Operands)?;
    worded(op_insn(word, rd, rs1, rs2), None)
}

/// The statement of three registers, on 32 bits.
#[tactic(auto, unfolding(crate::specs::Instructions::three_registers_statement))]
pub(crate) fn op_32_statement<'a>(word: &[u8], text: &'a [u8]) -> Result<Statement<'a>, AsmWhy>
    ensures exact { result ≡ want.three_registers_statement (op_32_insn_of word.now) text.now }
    ensures encodable { IfOk result Encodable }
{
    let (rd, rs1, rs2) = three_registers(text).ok_or(AsmWhy::Operands)?;
    worded(op_32_insn(word, rd, rs1, rs2), None)
}

/// The statement of two registers and a low part.
#[tactic(auto, unfolding(crate::specs::Instructions::immediate_statement))]
pub(crate) fn imm_statement<'a>(word: &[u8], text: &'a [u8]) -> Result<Statement<'a>, AsmWhy>
    ensures exact { result ≡ want.immediate_statement (imm_insn_of word.now) text.now }
    ensures encodable { IfOk result Encodable }
{
    let (rd, rs1, low) = two_registers_and_low(text).ok_or(AsmWhy::Operands)?;
    let (imm, fixup) = low_value(false, low)?;
    worded(imm_insn(word, rd, rs1, imm), fixup)
}

/// The statement of two registers and an amount below 64.
#[tactic(auto, unfolding(crate::specs::Instructions::shift_statement))]
pub(crate) fn shift_statement<'a>(word: &[u8], text: &'a [u8]) -> Result<Statement<'a>, AsmWhy>
    ensures exact { result ≡ want.shift_statement 6 (shift_insn_of word.now) text.now }
    ensures encodable { IfOk result Encodable }
{
    let (rd, rs1, amount) = two_registers_and_number(text).ok_or(AsmWhy::Operands)?;
    let amount = amount_of(amount, 6)?;
    worded(shift_insn(word, rd, rs1, amount), None)
}

/// The statement of two registers and an amount below 32.
#[tactic(auto, unfolding(crate::specs::Instructions::shift_statement))]
pub(crate) fn shift_32_statement<'a>(word: &[u8], text: &'a [u8]) -> Result<Statement<'a>, AsmWhy>
    ensures exact { result ≡ want.shift_statement 5 (shift_32_insn_of word.now) text.now }
    ensures encodable { IfOk result Encodable }
{
    let (rd, rs1, amount) = two_registers_and_number(text).ok_or(AsmWhy::Operands)?;
    let amount = amount_of(amount, 5)?;
    worded(shift_32_insn(word, rd, rs1, amount), None)
}

/// The statement of a load.
#[tactic(auto, unfolding(crate::specs::Instructions::load_statement))]
pub(crate) fn load_statement<'a>(word: &[u8], text: &'a [u8]) -> Result<Statement<'a>, AsmWhy>
    ensures exact { result ≡ want.load_statement (load_insn_of word.now) text.now }
    ensures encodable { IfOk result Encodable }
{
    let (rd, (low, rs1)) = register_and_based(text).ok_or(AsmWhy::Operands)?;
    let (imm, fixup) = low_value(false, low)?;
    worded(load_insn(word, rd, rs1, imm), fixup)
}

/// The statement of a store.
#[tactic(auto, unfolding(crate::specs::Instructions::store_statement))]
pub(crate) fn store_statement<'a>(word: &[u8], text: &'a [u8]) -> Result<Statement<'a>, AsmWhy>
    ensures exact { result ≡ want.store_statement (store_insn_of word.now) text.now }
    ensures encodable { IfOk result Encodable }
{
    let (rs2, (low, rs1)) = register_and_based(text).ok_or(AsmWhy::Operands)?;
    let (imm, fixup) = low_value(true, low)?;
    worded(store_insn(word, rs1, rs2, imm), fixup)
}

/// The statement of a branch.
#[tactic(auto, unfolding(crate::specs::Instructions::branch_statement))]
pub(crate) fn branch_statement<'a>(word: &[u8], text: &'a [u8]) -> Result<Statement<'a>, AsmWhy>
    ensures exact { result ≡ want.branch_statement (branch_insn_of word.now) text.now }
    ensures encodable { IfOk result Encodable }
{
    let (rs1, rs2, label) = two_registers_and_label(text).ok_or(AsmWhy::Operands)?;
    let fixup = fixup_of(BRANCH, label)?;
    worded(branch_insn(word, rs1, rs2), Some(fixup))
}

/// The statement of an upper part.
#[tactic(auto, unfolding(crate::specs::Instructions::upper_statement))]
pub(crate) fn upper_statement<'a>(word: &[u8], text: &'a [u8]) -> Result<Statement<'a>, AsmWhy>
    ensures exact { result ≡ want.upper_statement (upper_insn_of word.now) text.now }
    ensures encodable { IfOk result Encodable }
{
    let (rd, high) = register_and_high(text).ok_or(AsmWhy::Operands)?;
    let (imm, fixup) = high_value(high)?;
    worded(upper_insn(word, rd, imm), fixup)
}

/// The statement of an instruction's or a pseudo-instruction's word and its operands.
#[tactic(auto, unfolding(crate::specs::Instructions::instruction_of))]
pub(crate) fn instruction_of<'a>(word: &[u8], text: &'a [u8]) -> Result<Statement<'a>, AsmWhy>
    ensures exact { result ≡ want.instruction_of word.now text.now }
    ensures encodable { IfOk result Encodable }
{
    if is_op(word) {
        return op_statement(word, text);
    }
    if is_op_32(word) {
        return op_32_statement(word, text);
    }
    if is_imm(word) {
        return imm_statement(word, text);
    }
    if is_shift(word) {
        return shift_statement(word, text);
    }
    if is_shift_32(word) {
        return shift_32_statement(word, text);
    }
    if is_load(word) {
        return load_statement(word, text);
    }
    if is_store(word) {
        return store_statement(word, text);
    }
    if is_branch(word) {
        return branch_statement(word, text);
    }
    if is_upper(word) {
        return upper_statement(word, text);
    }
    pseudo_statement(word, text)
}
