//! Words from an assembler of the field, a format each.
mod registers;

use rv_insn::{Illegal, Insn, decode, encode};

/// What an instruction is called, with its numbers in the order of its fields and then zeros, where it is one of
/// these tests.
fn named(insn: Insn) -> Option<(&'static str, i64, i64, i64)> {
    match insn {
        Insn::Addi { rd, rs1, imm } => Some(("addi", i64::from(rd), i64::from(rs1), imm)),
        Insn::Srai { rd, rs1, amount } => Some(("srai", i64::from(rd), i64::from(rs1), amount)),
        Insn::Sraiw { rd, rs1, amount } => Some(("sraiw", i64::from(rd), i64::from(rs1), amount)),
        Insn::Sd { rs1, rs2, imm } => Some(("sd", i64::from(rs1), i64::from(rs2), imm)),
        Insn::Bgeu { rs1, rs2, imm } => Some(("bgeu", i64::from(rs1), i64::from(rs2), imm)),
        Insn::Jalr { rd, rs1, imm } => Some(("jalr", i64::from(rd), i64::from(rs1), imm)),
        Insn::Lui { rd, imm } => Some(("lui", i64::from(rd), imm, 0)),
        Insn::Jal { rd, imm } => Some(("jal", i64::from(rd), imm, 0)),
        Insn::Fence { word } => Some(("fence", i64::from(word), 0, 0)),
        Insn::Ebreak => Some(("ebreak", 0, 0, 0)),
        Insn::Sub { rd, rs1, rs2 } => {
            Some(("sub", i64::from(rd), i64::from(rs1), i64::from(rs2)))
        }
        Insn::Remuw { rd, rs1, rs2 } => {
            Some(("remuw", i64::from(rd), i64::from(rs1), i64::from(rs2)))
        }
        _ => None,
    }
}

/// A word, what its instruction is called, and that one's numbers.
type Row<'a> = (u32, &'a str, i64, i64, i64);

/// The word is decoded to the row's instruction, which is encoded to the word.
fn is_word_of((word, name, first, second, third): Row<'_>) -> bool {
    let Ok(insn) = decode(word) else {
        return false;
    };
    let Some((found, a, b, c)) = named(insn) else {
        return false;
    };
    found == name && a == first && b == second && c == third && encode(&insn) == word
}

/// The number of the first row whose word is another instruction's, if there is one.
fn first_wrong(rows: &[Row<'_>]) -> Option<usize> {
    for (number, row) in rows.iter().enumerate() {
        if !is_word_of(*row) {
            return Some(number);
        }
    }
    None
}

#[test]
fn decodes_assembled_words(rt: HostRuntime) {
    let rows = [
        (0x0205_8593, "addi", 11, 11, 32),
        (0x4020_8FB3, "sub", 31, 1, 2),
        (0x0252_71BB, "remuw", 3, 4, 5),
        (0x43F4_5393, "srai", 7, 8, 63),
        (0x41F4_539B, "sraiw", 7, 8, 31),
        (0x7EB6_3FA3, "sd", 12, 11, 2047),
        (0x0310_000F, "fence", 0x0310_000F, 0, 0),
        (0x0010_0073, "ebreak", 0, 0, 0),
    ];
    assert_eq!(rt; first_wrong(&rows), None);
    assert!(rt; matches!(decode(0), Err(Illegal)));
}

#[test]
fn encodes_to_assembled_words(rt: HostRuntime) {
    let rows = [
        (0x80E6_F063, "bgeu", 13, 14, -4096),
        (0xFFFF_F7B7, "lui", 15, -4096, 0),
        (0x8000_08EF, "jal", 17, -1_048_576, 0),
        (0xFFF9_8967, "jalr", 18, 19, -1),
        (0x41F4_539B, "sraiw", 7, 8, 31),
    ];
    assert_eq!(rt; first_wrong(&rows), None);
}
