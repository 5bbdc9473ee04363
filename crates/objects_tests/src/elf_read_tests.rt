mod shared;

use elf_read::{ElfError, ElfObject, Section, SymPlace, Symbol, read_object};
use sample_objects::HELLO;
use std::alloc::{AllocError, Global};
use std::process::Abort;
use std::test::Fail;

/// A section that is read.
#[derive(Clone, Copy)]
struct SectionRow<'a> {
    name: &'a [u8],
    bytes: &'a [u8],
    relocs: usize,
}

/// The object that bytes are, or why they are none.
fn read(alloc: Global, bytes: &[u8]) -> Result<ElfObject, ElfError> {
    read_object(alloc, bytes)
}

/// The section is that of the table.
fn is_section(section: &Section, row: &SectionRow<'_>) -> bool {
    section.name.as_slice() == row.name
        && section.bytes.as_slice() == row.bytes
        && section.relocs.as_slice().len() == row.relocs
}

/// The number of the first section that is not that of the table.
fn other_section(object: &ElfObject, rows: &[SectionRow<'_>]) -> Option<usize> {
    let sections = object.sections.as_slice();
    for (number, (section, row)) in sections.iter().zip(rows).enumerate() {
        if !is_section(section, row) {
            return Some(number);
        }
    }
    if sections.len() == rows.len() {
        None
    } else {
        Some(rows.len())
    }
}

/// The number of the first section of a file that is not one of `examples/hello.s`.
fn other_in_hello(object: &ElfObject) -> Option<usize> {
    let rows = [
        SectionRow {
            name: b".text",
            bytes: &HELLO[64..100],
            relocs: 2,
        },
        SectionRow {
            name: b".rodata",
            bytes: b"hello\n",
            relocs: 0,
        },
    ];
    other_section(object, &rows)
}

/// The last of four symbols is `main`, in the first section.
fn is_main_last(symbols: &[Symbol]) -> bool {
    match symbols {
        [_, _, _, main] => main.name.as_slice() == b"main".as_slice()
            && main.place == SymPlace::In(0),
        _ => false,
    }
}

/// What is answered to the file with one byte changed.
fn changed(alloc: Global, at: usize, value: u8) -> Result<Option<ElfError>, AllocError> {
    let mut bytes = HELLO.to_vec(alloc)?;
    if let Some(byte) = bytes.get_mut(at) {
        *byte = value;
    }
    Ok(read(alloc, bytes.as_slice()).err())
}

/// The file with one byte changed is answered as the table says: a byte's place, its value, the answer.
fn expect(
    rt: &impl Abort,
    alloc: Global,
    rows: &[(usize, u8, Option<ElfError>)],
) -> Result<(), Fail> {
    for (at, value, answer) in rows {
        assert_eq!(rt;
            changed(alloc, *at, *value)?,
            *answer,
            "byte {at} as {value}"
        );
    }
    Ok(())
}

#[test]
fn reads_the_file(rt: HostRuntime) -> Result<(), Fail> {
    let object = read(rt.alloc(), &HELLO)?;
    assert_eq!(rt; other_in_hello(&object), None);
    assert!(rt; is_main_last(object.symbols.as_slice()));
    Ok(())
}

#[test]
fn refuses_a_file_that_is_cut(rt: HostRuntime) {
    for (len, place) in [(0, 0), (15, 15), (63, 63), (64, 328), (400, 400)] {
        let answer = read(rt.alloc(), &HELLO[..len]).err();
        assert_eq!(rt; answer, Some(ElfError::Short(place)), "at {len}");
    }
}

#[test]
fn refuses_a_changed_byte(rt: HostRuntime) -> Result<(), Fail> {
    let rows = [
        (4, 1, Some(ElfError::NotClass64)),
        (48, 5, Some(ElfError::BadFlags(5))),
        (440, 3, Some(ElfError::BadTable(1))),
        (480, 0x40, Some(ElfError::Overlap(2))),
        (240, 0x25, Some(ElfError::BadSymbol(3))),
        (124, 9, Some(ElfError::BadLink(3))),
    ];
    expect(&rt, rt.alloc(), &rows)
}

/// The file with the contents of its two sections in the other order.
fn swapped(alloc: Global) -> Result<Vec<u8>, AllocError> {
    let mut bytes = HELLO.to_vec(alloc)?;
    bytes[64..70].copy_from_slice(&HELLO[104..110]);
    bytes[72..108].copy_from_slice(&HELLO[64..100]);
    bytes[416] = 72;
    bytes[480] = 64;
    Ok(bytes)
}

#[test]
fn reads_sections_in_falling_order(rt: HostRuntime) -> Result<(), Fail> {
    let object = read(rt.alloc(), swapped(rt.alloc())?.as_slice())?;
    assert_eq!(rt; other_in_hello(&object), None);
    Ok(())
}

#[test]
fn refuses_a_section_that_takes_a_taken_byte(rt: HostRuntime) -> Result<(), Fail> {
    let rows = [
        // The last byte of the header, and the first of the section table.
        (416, 63, Some(ElfError::Overlap(1))),
        (744, 57, Some(ElfError::Overlap(6))),
        (744, 56, None),
        // The second section over the last byte of the first one, and over the first byte of the third.
        (480, 99, Some(ElfError::Overlap(2))),
        (480, 100, None),
        (480, 106, None),
        (480, 107, Some(ElfError::Overlap(3))),
    ];
    expect(&rt, rt.alloc(), &rows)
}

#[test]
fn numbers_its_errors(rt: HostRuntime) {
    for (error, number) in [(ElfError::Short(0), 1), (ElfError::NoMemory, 13)] {
        assert_eq!(rt; error.number(), number);
    }
}
