use elf_read::{Reloc, Section, SymPlace, Symbol};
use elf_write::write_object;
use rv_asm::assemble;
use sample_objects::HELLO;
use std::alloc::Global;
use std::process::Abort;
use std::test::Fail;

/// A symbol that is made.
#[derive(Clone, Copy)]
struct SymbolRow<'a> {
    name: &'a [u8],
    bind: u8,
    vis: u8,
    place: SymPlace,
    value: u64,
}

/// An object that is made: the bytes and relocations of its first section, and its first symbols behind
/// number 0.
#[derive(Clone, Copy)]
struct ObjectRow<'a> {
    text: &'a [u8],
    relocs: &'a [Reloc],
    symbols: &'a [SymbolRow<'a>],
}

/// A relocation that is made.
fn reloc(at: u64, kind: u32, symbol: u32, addend: i64) -> Reloc {
    Reloc {
        at,
        kind,
        symbol,
        addend,
    }
}

/// A symbol that is made.
fn symbol(name: &[u8], bind: u8, vis: u8, place: SymPlace, value: u64) -> SymbolRow<'_> {
    SymbolRow {
        name,
        bind,
        vis,
        place,
        value,
    }
}

/// The first section has these bytes and relocations.
fn is_first(sections: &[Section], row: &ObjectRow<'_>) -> bool {
    match sections {
        [first, ..] => {
            first.bytes.as_slice() == row.text && first.relocs.as_slice() == row.relocs
        }
        [] => false,
    }
}

/// The symbol has this name, binding, visibility, place and value.
fn is_symbol(symbol: &Symbol, row: &SymbolRow<'_>) -> bool {
    symbol.name.as_slice() == row.name
        && symbol.bind == row.bind
        && symbol.vis == row.vis
        && symbol.place == row.place
        && symbol.value == row.value
}

/// The number of the first symbol that is not that of the table, whose first row is symbol 1.
fn other_symbol(symbols: &[Symbol], rows: &[SymbolRow<'_>]) -> Option<usize> {
    for (number, (symbol, row)) in symbols.iter().skip(1).zip(rows).enumerate() {
        if !is_symbol(symbol, row) {
            return Some(number.wrapping_add(1));
        }
    }
    if symbols.len() > rows.len() {
        None
    } else {
        Some(symbols.len())
    }
}

/// What an assembled text has that is not that of the table.
fn difference(alloc: Global, source: &str, row: &ObjectRow<'_>) -> Result<Option<usize>, Fail> {
    let object = assemble(alloc, source.as_bytes())?;
    if is_first(object.sections.as_slice(), row) {
        Ok(other_symbol(object.symbols.as_slice(), row.symbols))
    } else {
        Ok(Some(0))
    }
}

/// The object of a text is that of the table. Number 0 stands for another section, each other number for that
/// symbol.
fn expect(rt: &impl Abort, alloc: Global, source: &str, row: &ObjectRow<'_>) -> Result<(), Fail> {
    assert_eq!(rt; difference(alloc, source, row)?, None);
    Ok(())
}

/// The file of an assembled text has these bytes.
fn is_file(alloc: Global, source: &str, file: &[u8]) -> Result<bool, Fail> {
    let object = assemble(alloc, source.as_bytes())?;
    let written = write_object(alloc, &object)?;
    Ok(written.as_slice() == file)
}

#[test]
fn hello(rt: HostRuntime) -> Result<(), Fail> {
    let text =
        ".text\n.globl main\nmain: addi a0, zero, 1\n.L1: auipc a1, %pcrel_hi(msg)\naddi a1, a1, %pcrel_lo(.L1)\naddi a2, zero, 6\naddi a7, zero, 64\necall\naddi a0, zero, 0\naddi a7, zero, 93\necall\n.section .rodata\nmsg: .ascii \"hello\\n\"\n";
    assert!(rt; is_file(rt.alloc(), text, &HELLO)?);
    Ok(())
}

#[test]
fn a_tail_and_a_function(rt: HostRuntime) -> Result<(), Fail> {
    let text = ".globl main\nmain: tail f\n.globl g\ng: addi a0, zero, 7\nret\n";
    let row = ObjectRow {
        text: &[
            0x17, 0x03, 0, 0, 0x67, 0, 0x03, 0, 0x13, 0x05, 0x70, 0, 0x67, 0x80, 0, 0,
        ],
        relocs: &[reloc(0, 19, 2, 0)],
        symbols: &[
            symbol(b"main", 1, 0, SymPlace::In(0), 0),
            symbol(b"f", 1, 0, SymPlace::Undef, 0),
            symbol(b"g", 1, 0, SymPlace::In(0), 8),
        ],
    };
    expect(&rt, rt.alloc(), text, &row)
}

#[test]
fn weak_and_hidden(rt: HostRuntime) -> Result<(), Fail> {
    let text = ".globl h\n.hidden h\nh: ret\n.weak f\nf: ret\n.weak w\n.comm c, 24, 8\n";
    let row = ObjectRow {
        text: &[0x67, 0x80, 0, 0, 0x67, 0x80, 0, 0],
        relocs: &[],
        symbols: &[
            symbol(b"h", 1, 2, SymPlace::In(0), 0),
            symbol(b"f", 2, 0, SymPlace::In(0), 4),
            symbol(b"w", 2, 0, SymPlace::Undef, 0),
            symbol(b"c", 1, 0, SymPlace::Common, 8),
        ],
    };
    expect(&rt, rt.alloc(), text, &row)
}

/// What GNU as makes of this text, whose branch it fills in.
#[test]
fn a_branch_filled_in(rt: HostRuntime) -> Result<(), Fail> {
    let text =
        ".weak w\n.globl main\nmain: auipc a0, %pcrel_hi(w)\naddi a0, a0, %pcrel_lo(main)\nbeq a0, zero, skip\ncall w\nskip: addi a0, zero, 9\nret\n";
    let row = ObjectRow {
        text: &[
            0x17, 0x05, 0, 0, 0x13, 0x05, 0x05, 0, 0x63, 0x06, 0x05, 0, 0x97, 0, 0, 0, 0xe7, 0x80,
            0, 0, 0x13, 0x05, 0x90, 0, 0x67, 0x80, 0, 0,
        ],
        relocs: &[reloc(0, 23, 2, 0), reloc(4, 24, 3, 0), reloc(12, 19, 2, 0)],
        symbols: &[
            symbol(b"skip", 0, 0, SymPlace::In(0), 20),
            symbol(b"w", 2, 0, SymPlace::Undef, 0),
            symbol(b"main", 1, 0, SymPlace::In(0), 0),
        ],
    };
    expect(&rt, rt.alloc(), text, &row)
}

#[test]
fn padding_left_to_the_linker(rt: HostRuntime) -> Result<(), Fail> {
    let text =
        ".option relax\n.globl main\nmain: addi a0, zero, 1\naddi a0, a0, 1\n.balign 16\nj fin\nfin: ret\n";
    let row = ObjectRow {
        text: &[
            0x13, 0x05, 0x10, 0, 0x13, 0x05, 0x15, 0, // the two before
            0x13, 0, 0, 0, 0x13, 0, 0, 0, 0x13, 0, 0, 0, // padding
            0x6f, 0, 0, 0, 0x67, 0x80, 0, 0,
        ],
        relocs: &[reloc(8, 43, 0, 12), reloc(20, 17, 1, 0)],
        symbols: &[],
    };
    expect(&rt, rt.alloc(), text, &row)
}

/// How many sections and symbols the object of a text has.
fn counts(alloc: Global, text: &str) -> Result<(usize, usize), Fail> {
    let object = assemble(alloc, text.as_bytes())?;
    Ok((
        object.sections.as_slice().len(),
        object.symbols.as_slice().len(),
    ))
}

#[test]
fn memory_is_enough_for_any_number_of_lines(rt: HostRuntime) -> Result<(), Fail> {
    let rows = [
        ("", (0, 1)),
        ("# nothing", (0, 1)),
        ("nop", (1, 1)),
        ("main: nop\n\nmain2: ret\n.data\n.byte 1\n", (2, 3)),
        (
            ".data\nx: .ascii \"\"\n.zero 0\n.byte 1\n.word 1, 2, 3\n",
            (1, 2),
        ),
    ];
    for (text, wanted) in rows {
        assert_eq!(rt; counts(rt.alloc(), text)?, wanted, "{text}");
    }
    Ok(())
}
