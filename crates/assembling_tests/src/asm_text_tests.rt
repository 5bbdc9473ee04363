use asm_lines::AsmWhy;
use asm_text::{BadLine, read_text};
use std::alloc::Global;

/// The line at which reading ends.
fn bad_line(alloc: Global, text: &str) -> Option<BadLine> {
    match read_text(alloc, text.as_bytes()) {
        Ok(reading) => reading.bad,
        Err(_) => None,
    }
}

/// The line of this number is the first that is refused, for this reason.
fn is_refused(alloc: Global, text: &str, line: u32, why: AsmWhy) -> bool {
    bad_line(alloc, text) == Some(BadLine { line, why })
}

/// The number of the first text that isn't refused at its line for its reason, if there is one.
fn first_accepted(alloc: Global, rows: &[(&str, u32, AsmWhy)]) -> Option<usize> {
    for (number, (text, line, why)) in rows.iter().enumerate() {
        if !is_refused(alloc, text, *line, *why) {
            return Some(number);
        }
    }
    None
}

#[test]
fn first_bad_lines(rt: HostRuntime) {
    let rows = [
        ("frob a0\n", 1, AsmWhy::Word),
        ("nop\n\naddi a0, a1\nfrob", 3, AsmWhy::Operands),
        (".byte 256", 1, AsmWhy::Number),
        ("x: nop\nx: nop\n", 2, AsmWhy::Label),
        ("x: nop\n.comm x, 8, 8\n", 2, AsmWhy::Name),
    ];
    assert_eq!(rt; first_accepted(rt.alloc(), &rows), None);
}

#[test]
fn what_a_section_takes(rt: HostRuntime) {
    let rows = [
        (".bss\nnop\n", 2, AsmWhy::Section),
        (".byte 1\n.balign 4\n", 2, AsmWhy::Section),
        (".bss\n.zero 0x1000000\n.zero 1\n", 3, AsmWhy::Section),
        (".bss\nx: .zero 0x2000\nbeq a0, a1, x\n", 3, AsmWhy::Number),
    ];
    assert_eq!(rt; first_accepted(rt.alloc(), &rows), None);
}

/// No line of the text is refused, and this is what it says: so many symbols, these labels and so many sections.
fn says(alloc: Global, text: &str, symbols: usize, labels: &[u32], sections: usize) -> bool {
    let Ok(reading) = read_text(alloc, text.as_bytes()) else {
        return false;
    };
    let known = &reading.known;
    reading.bad.is_none()
        && known.symbols.len() == symbols
        && known.symbols.labels() == labels
        && known.sections.made().len() == sections
}

#[test]
fn a_good_text(rt: HostRuntime) {
    let text =
        ".text\n.globl main\nmain: addi a0, zero, 1\n.L1: auipc a1, %pcrel_hi(msg)\n.section .rodata\nmsg: .ascii \"hello\\n\"\n";
    assert!(rt; says(rt.alloc(), text, 3, &[0, 1, 2], 2));
}
