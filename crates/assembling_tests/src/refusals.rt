use asm_lines::AsmWhy;
use rv_asm::{AsmError, assemble};
use std::alloc::Global;
use std::process::Abort;

/// The line of this number is the first that is refused, for this reason.
fn is_refused(alloc: Global, text: &str, line: u32, why: AsmWhy) -> bool {
    match assemble(alloc, text.as_bytes()) {
        Ok(_) => false,
        Err(error) => error == AsmError::BadLine(line, why),
    }
}

/// Each text is refused at its line, for its reason.
fn expect_refused(rt: &impl Abort, alloc: Global, rows: &[(&str, u32, AsmWhy)]) {
    for (text, line, why) in rows {
        assert!(rt; is_refused(alloc, text, *line, *why), "{text}");
    }
}

#[test]
fn each_reason(rt: HostRuntime) {
    let rows = [
        ("frob a0\n", 1, AsmWhy::Word),
        ("nop\naddi a0, a1\n", 2, AsmWhy::Operands),
        ("addi a0, a1, 2048", 1, AsmWhy::Number),
        ("x: nop\n\nx: nop\n", 3, AsmWhy::Label),
        ("x:\n.comm x, 8, 8\n", 2, AsmWhy::Name),
        (".section .other\n", 1, AsmWhy::Section),
    ];
    expect_refused(&rt, rt.alloc(), &rows);
}

#[test]
fn far_branches(rt: HostRuntime) {
    let rows = [
        (
            "x: nop\n.zero 4096\nbeq a0, a1, x\nfrob\n",
            3,
            AsmWhy::Number,
        ),
        ("beq a0, a1, x\n.zero 4096\nx: nop\n", 1, AsmWhy::Number),
        // the label stands after the line that is refused by itself
        ("beq a0, a1, x\n.zero 4096\nfrob\nx: nop\n", 3, AsmWhy::Word),
    ];
    expect_refused(&rt, rt.alloc(), &rows);
}
