//! Objects whose names share bytes.
use elf_read::{ElfError, ElfObject, Section, Symbol, read_object, read_shared};
use shared_bytes::SharedBytes;
use std::alloc::{AllocError, Global};
use std::test::Fail;

const PROGBITS: u32 = 1;

const SYMTAB: u32 = 2;

const STRTAB: u32 = 3;

const ALLOC: u64 = 2;

const ABSOLUTE: u16 = 0xfff1;

/// A file that is made: the bytes of its sections, and their headers.
#[derive(Drop)]
struct FileMaker {
    contents: Vec<u8>,
    headers: Vec<u8>,
    count: u16,
}

/// Adds numbers of 8 bytes.
fn put_words(bytes: &mut Vec<u8>, words: &[u64]) -> Result<(), AllocError> {
    for word in words {
        bytes.extend_from_slice(&word.to_le_bytes())?;
    }
    Ok(())
}

/// All parts, one behind another.
fn joined(alloc: Global, parts: &[&[u8]]) -> Result<Vec<u8>, AllocError> {
    let mut bytes = Vec::new(alloc);
    for part in parts {
        bytes.extend_from_slice(part)?;
    }
    Ok(bytes)
}

impl FileMaker {
    /// No section but number 0.
    fn new(alloc: Global) -> Result<FileMaker, AllocError> {
        Ok(FileMaker {
            contents: Vec::new(alloc),
            headers: vec![in alloc; 0; 64]?,
            count: 1,
        })
    }

    /// Adds a section; its name begins at byte 1 of the name table.
    fn put(&mut self, kind: u32, flags: u64, link: u32, contents: &[u8]) -> Result<(), AllocError> {
        let names = (u64::from(kind) << 32) | 1;
        let offset = (self.contents.len() as u64).wrapping_add(64);
        let size = contents.len() as u64;
        let entry_size: u64 = if kind == SYMTAB { 24 } else { 0 };
        let header = [
            names,
            flags,
            0,
            offset,
            size,
            u64::from(link),
            1,
            entry_size,
        ];
        put_words(&mut self.headers, &header)?;
        self.contents.extend_from_slice(contents)?;
        self.count = self.count.wrapping_add(1);
        Ok(())
    }

    /// The file, whose first section has the names of the sections.
    fn file(&self, alloc: Global) -> Result<Vec<u8>, AllocError> {
        let table = (self.contents.len() as u64).wrapping_add(64);
        let parts = [
            b"\x7fELF\x02\x01\x01\0\0\0\0\0\0\0\0\0".as_slice(),
            &[1, 0, 243, 0, 1, 0, 0, 0],
            &[0; 16],
            &table.to_le_bytes(),
            &[0, 0, 0, 0, 64, 0, 0, 0, 0, 0, 64, 0],
            &self.count.to_le_bytes(),
            &[1, 0],
            self.contents.as_slice(),
            self.headers.as_slice(),
        ];
        joined(alloc, &parts)
    }
}

/// A string table with the empty name and one of so many bytes.
fn one_name(alloc: Global, len: usize) -> Result<Vec<u8>, AllocError> {
    let mut strings = vec![in alloc; 0]?;
    strings.resize(len.saturating_add(1), b'n')?;
    strings.push(0)?;
    Ok(strings)
}

/// The entry of symbol 0, and of local symbols with value 0 whose names begin at these places.
fn symbol_table(alloc: Global, names: &[u32]) -> Result<Vec<u8>, AllocError> {
    let mut table = vec![in alloc; 0; 24]?;
    for name in names {
        let place = u64::from(*name) | (u64::from(ABSOLUTE) << 48);
        put_words(&mut table, &[place, 0, 0])?;
    }
    Ok(table)
}

/// The object that a file is, or why it is none.
fn read(alloc: Global, file: &FileMaker) -> Result<Result<ElfObject, ElfError>, AllocError> {
    let file = file.file(alloc)?;
    Ok(read_object(alloc, file.as_slice()))
}

/// An object of so many sections that share a name of so many bytes.
fn with_sections(alloc: Global, count: u32, len: usize) -> Result<ElfObject, Fail> {
    let mut file = FileMaker::new(alloc)?;
    file.put(STRTAB, 0, 0, one_name(alloc, len)?.as_slice())?;
    for _ in 0..count {
        file.put(PROGBITS, ALLOC, 0, &[])?;
    }
    Ok(read(alloc, &file)??)
}

/// An object of symbols whose names begin at these places of a name of so many bytes.
fn with_symbols(
    alloc: Global,
    places: &[u32],
    len: usize,
) -> Result<Result<ElfObject, ElfError>, AllocError> {
    let mut file = FileMaker::new(alloc)?;
    file.put(STRTAB, 0, 0, one_name(alloc, len)?.as_slice())?;
    file.put(SYMTAB, 0, 1, symbol_table(alloc, places)?.as_slice())?;
    read(alloc, &file)
}

/// Each section has a name of so many bytes, the first of which is `n`.
fn are_named(sections: &[Section], len: usize) -> bool {
    for section in sections {
        if section.name.len() != len || section.name.as_slice().first() != Some(&b'n') {
            return false;
        }
    }
    true
}

/// How many bytes the name has that begins at a place of the table of `one_name`.
fn length_at(place: u32, len: usize) -> usize {
    if place == 0 {
        0
    } else {
        len.wrapping_add(1).saturating_sub(place as usize)
    }
}

/// The number of the first symbol whose name is not as long as its place says.
fn other_name(symbols: &[Symbol], places: &[u32], len: usize) -> Option<usize> {
    if symbols.len() != places.len() {
        return Some(places.len());
    }
    for (number, (symbol, place)) in symbols.iter().zip(places).enumerate() {
        if symbol.name.len() != length_at(*place, len) {
            return Some(number);
        }
    }
    None
}

/// An object of symbols is read whose names begin at these places; the number of the first, behind symbol 0,
/// whose name is not as long as its place says.
fn other_symbol(alloc: Global, places: &[u32], len: usize) -> Result<Option<usize>, Fail> {
    let object = with_symbols(alloc, places, len)??;
    match object.symbols.as_slice() {
        [none, symbols @ ..] if none.name.is_empty() => Ok(other_name(symbols, places, len)),
        _ => Err(Fail::from("another symbol 0")),
    }
}

#[test]
fn reads_sections_that_share_a_name(rt: HostRuntime) -> Result<(), Fail> {
    let object = with_sections(rt.alloc(), 40, 1 << 20)?;
    assert_eq!(rt; object.sections.as_slice().len(), 40);
    assert!(rt; are_named(object.sections.as_slice(), 1 << 20));
    Ok(())
}

#[test]
fn reads_symbols_that_share_a_name(rt: HostRuntime) -> Result<(), Fail> {
    assert_eq!(rt; other_symbol(rt.alloc(), &[1; 2000], 4096)?, None);
    Ok(())
}

#[test]
fn reads_names_that_are_ends_of_another(rt: HostRuntime) -> Result<(), Fail> {
    let places: Vec<u32> = (0..202).collect(rt.alloc())?;
    assert_eq!(rt; other_symbol(rt.alloc(), places.as_slice(), 200)?, None);
    Ok(())
}

#[test]
fn refuses_a_name_that_is_too_long_or_has_no_end(rt: HostRuntime) -> Result<(), Fail> {
    let long = with_symbols(rt.alloc(), &[2, 1], 4097)?;
    assert_eq!(rt; long.err(), Some(ElfError::BadSymbol(2)));
    let past = with_symbols(rt.alloc(), &[201, 202], 200)?;
    assert_eq!(rt; past.err(), Some(ElfError::BadSymbol(2)));
    Ok(())
}

/// How many sections and symbols an object of so many sections has.
fn counts(alloc: Global, count: u32, len: usize) -> Result<(usize, usize), Fail> {
    let object = with_sections(alloc, count, len)?;
    Ok((
        object.sections.as_slice().len(),
        object.symbols.as_slice().len(),
    ))
}

#[test]
fn memory_is_enough_for_any_number_of_sections(rt: HostRuntime) -> Result<(), Fail> {
    for count in [0, 1, 2] {
        for len in [0, 1, 8] {
            assert_eq!(rt; counts(rt.alloc(), count, len)?, (count as usize, 1));
        }
    }
    Ok(())
}

#[test]
fn memory_is_enough_for_any_number_of_symbols(rt: HostRuntime) -> Result<(), Fail> {
    for places in [[].as_slice(), &[1], &[0, 1]] {
        assert_eq!(rt; other_symbol(rt.alloc(), places, 1)?, None);
    }
    Ok(())
}

/// What is read of a file of two sections, which is let go.
fn read_and_let_go(alloc: Global) -> Result<ElfObject, Fail> {
    let mut maker = FileMaker::new(alloc)?;
    maker.put(STRTAB, 0, 0, one_name(alloc, 1)?.as_slice())?;
    maker.put(PROGBITS, ALLOC, 0, &[1; 4096])?;
    maker.put(PROGBITS, ALLOC, 0, &[2; 8])?;
    let file = SharedBytes::copy_of(alloc, maker.file(alloc)?.as_slice())?;
    let object = read_shared(alloc, &file)?;
    drop(file);
    Ok(object)
}

/// The contents of the two sections, of which one lies in the file and the other is a copy.
fn are_contents(sections: &[Section]) -> bool {
    match sections {
        [large, small] => large.bytes.as_slice() == [1; 4096].as_slice()
            && small.bytes.as_slice() == [2; 8].as_slice(),
        _ => false,
    }
}

#[test]
fn contents_outlive_the_file(rt: HostRuntime) -> Result<(), Fail> {
    let object = read_and_let_go(rt.alloc())?;
    assert!(rt; are_contents(object.sections.as_slice()));
    Ok(())
}
