ghost use Rattle.asm_lines.specs.Statements.{Encodable};

use asm_lines::{AsmWhy, LineError, SectionKind, Statement, statement_of_line};
use rv_insn::encode;
use std::alloc::Global;

/// The instruction's word, where the statement is one without a relocation.
fn word_of(statement: &Statement<'_>) -> Option<u32>
    requires { Encodable statement.now }
{
    match statement {
        Statement::Code { insn, fixup } => {
            if fixup.is_some() {
                return None;
            }
            Some(encode(insn))
        }
        _ => None,
    }
}

/// The line is an instruction of this word.
fn is_word(alloc: Global, line: &str, word: u32) -> bool {
    match statement_of_line(alloc, line.as_bytes()) {
        Ok(statement) => word_of(&statement) == Some(word),
        Err(_) => false,
    }
}

/// The number of the first line that is no instruction of its word, if there is one.
fn first_other(alloc: Global, rows: &[(&str, u32)]) -> Option<usize> {
    for (number, (line, word)) in rows.iter().enumerate() {
        if !is_word(alloc, line, *word) {
            return Some(number);
        }
    }
    None
}

#[test]
fn arithmetic(rt: HostRuntime) {
    let rows = [
        ("addi a0, a1, -5", 0xffb5_8513),
        ("  lui t0, 0x12345", 0x1234_52b7),
        ("auipc s0, 0", 0x0000_0417),
        ("mul a0, a1, a2", 0x02c5_8533),
        ("remuw s11, s10, s9", 0x039d_7dbb),
    ];
    assert_eq!(rt; first_other(rt.alloc(), &rows), None);
}

#[test]
fn shifts_and_memory(rt: HostRuntime) {
    let rows = [
        ("slli a0, a0, 63", 0x03f5_1513),
        ("sraiw a0, a1, 31", 0x41f5_d51b),
        ("ld a0, 8(sp)", 0x0081_3503),
        ("sd ra, -8(sp)", 0xfe11_3c23),
        ("lbu t6, 2047(a7)", 0x7ff8_cf83),
    ];
    assert_eq!(rt; first_other(rt.alloc(), &rows), None);
}

#[test]
fn the_rest_and_pseudo_instructions(rt: HostRuntime) {
    let rows = [
        ("ecall", 0x73),
        ("ret", 0x8067),
        ("main: nop # nothing", 0x13),
        ("mv a0, a1", 0x0005_8513),
        ("fence r, rw", 0x0230_000f),
    ];
    assert_eq!(rt; first_other(rt.alloc(), &rows), None);
}

/// The line is refused for this reason.
fn is_refused(alloc: Global, line: &str, why: AsmWhy) -> bool {
    match statement_of_line(alloc, line.as_bytes()) {
        Ok(_) => false,
        Err(error) => error == LineError::Bad(why),
    }
}

/// The number of the first line that isn't refused for its reason, if there is one.
fn first_accepted(alloc: Global, rows: &[(&str, AsmWhy)]) -> Option<usize> {
    for (number, (line, why)) in rows.iter().enumerate() {
        if !is_refused(alloc, line, *why) {
            return Some(number);
        }
    }
    None
}

#[test]
fn bad_lines_have_their_reasons(rt: HostRuntime) {
    let rows = [
        ("frob a0", AsmWhy::Word),
        ("addi a0, a1", AsmWhy::Operands),
        ("addi a0, a1, 2048", AsmWhy::Number),
        (".balign 3", AsmWhy::Number),
        (".section .strange", AsmWhy::Section),
    ];
    assert_eq!(rt; first_accepted(rt.alloc(), &rows), None);
}

/// What kind of section a statement begins.
fn section_of(statement: &Statement<'_>) -> Option<SectionKind> {
    match statement {
        Statement::Section { name: _, kind } => Some(*kind),
        _ => None,
    }
}

/// How many bytes a statement leaves zero.
fn zeros_of(statement: &Statement<'_>) -> Option<u64> {
    match statement {
        Statement::Zero(size) => Some(*size),
        _ => None,
    }
}

/// The line begins a section of this kind.
fn begins_section(alloc: Global, line: &str, kind: SectionKind) -> bool {
    match statement_of_line(alloc, line.as_bytes()) {
        Ok(statement) => section_of(&statement) == Some(kind),
        Err(_) => false,
    }
}

/// The line leaves so many bytes zero.
fn leaves_zeros(alloc: Global, line: &str, size: u64) -> bool {
    match statement_of_line(alloc, line.as_bytes()) {
        Ok(statement) => zeros_of(&statement) == Some(size),
        Err(_) => false,
    }
}

#[test]
fn directives(rt: HostRuntime) {
    assert!(rt; begins_section(rt.alloc(), ".section .rodata.str", SectionKind::ReadOnly));
    assert!(rt; leaves_zeros(rt.alloc(), "buf: .zero 0x10", 16));
}
