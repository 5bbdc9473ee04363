//! The files of these tests.

mod common;

use common::COMMON;
use elf_write::write_object;
use orc_ids::Bytes;
use rv_asm::assemble;
use sample_objects::HELLO;
use std::alloc::{AllocError, Global};
use std::test::Fail;

/// The files of a call.
#[derive(Clone, Copy)]
pub enum Files {
    Nothing,
    /// One file: its name, and what is in it.
    One(&'static str, Content),
    /// `OBJECTS`.
    Objects,
    /// `LENGTHS`.
    Lengths,
}

/// What is in a file.
#[derive(Clone, Copy)]
pub enum Content {
    Bytes(&'static [u8]),
    /// The object that an assembly text is.
    Object(&'static str),
    /// `hello.o` with some bytes changed: the place of each, and its value.
    Changed(&'static [(usize, u8)]),
    /// `hello.o` with some words of `.text` replaced: the number of each, and its value.
    Patched(&'static [(u8, u32)]),
    /// So many bytes: those of `hello.o`, and zeros after them.
    Sized(usize),
    /// So many spaces.
    Spaces(usize),
    /// The program of `hello.o`, and what assemblers commonly add.
    Common,
}

/// A file's name, and what is in it.
type File = (&'static str, Content);

/// The objects of these tests, and `no.o`, which is none.
const OBJECTS: [File; 16] = [
    // two that call each other
    (
        "a.o",
        Content::Object(".globl main\nmain: tail f\n.globl g\ng: addi a0, zero, 7\nret\n"),
    ),
    ("b.o", Content::Object(".globl f\nf: tail g\n")),
    // one that needs the next, and so on to a name that is nowhere
    ("p.o", Content::Object(".globl main\nmain: tail f\n")),
    ("q.o", Content::Object(".globl f\nf: tail h\n")),
    ("r.o", Content::Object(".globl h\nh: tail nosuch\n")),
    // one of two blocks
    (
        "two.o",
        Content::Object(".globl m\nm: tail f\n.section .rodata\n.globl t\nt: .word 5\n"),
    ),
    // three that need nothing
    (
        "k.o",
        Content::Object(".globl k\nk: addi a0, zero, 3\nret\n"),
    ),
    (
        "m.o",
        Content::Object(".globl m\nm: addi a0, zero, 5\nret\n"),
    ),
    (
        "lib.o",
        Content::Object(".globl f\nf: addi a0, zero, 5\nret\n"),
    ),
    // a weak definition, and a strong one of its name
    (
        "w.o",
        Content::Object(".globl main\nmain: tail f\n.weak f\nf: addi a0, zero, 1\nret\n"),
    ),
    (
        "s.o",
        Content::Object(".globl f\nf: addi a0, zero, 2\nret\n"),
    ),
    // a hidden name
    (
        "x.o",
        Content::Object(
            ".globl h\n.hidden h\nh: addi a0, zero, 4\nret\n.globl main\nmain: tail h\n",
        ),
    ),
    // weak references to a name that is nowhere: a jump, and one that is looked at first
    ("j.o", Content::Object(".weak w\n.globl main\nmain: j w\n")),
    (
        "n.o",
        Content::Object(
            ".weak w\n.globl main\nmain: auipc a0, %pcrel_hi(w)\naddi a0, a0, %pcrel_lo(main)\nbeq a0, zero, skip\ncall w\nskip: addi a0, zero, 9\nret\n",
        ),
    ),
    // a common symbol
    (
        "c.o",
        Content::Object(
            ".globl main\nmain: lui a0, %hi(v)\naddi a0, a0, %lo(v)\nlw a0, 0(a0)\nret\n.comm v, 8, 8\n",
        ),
    ),
    ("no.o", Content::Bytes(b"no object")),
];

/// Files of so many bytes, each of which is named by their number.
const LENGTHS: [File; 6] = [
    ("0", Content::Sized(0)),
    ("15", Content::Sized(15)),
    ("63", Content::Sized(63)),
    ("64", Content::Sized(64)),
    ("400", Content::Sized(400)),
    ("long", Content::Sized(16_777_217)),
];

/// What files are put to.
pub trait Shelf {
    /// Puts a file under its name.
    fn place(&mut self, alloc: Global, name: &str, bytes: Bytes) -> Result<(), AllocError>;
}

/// Puts files under their names.
pub fn put_files<S: Shelf>(alloc: Global, shelf: &mut S, files: Files) -> Result<(), Fail> {
    match files {
        Files::Nothing => Ok(()),
        Files::One(name, content) => put_file(alloc, shelf, name, content),
        Files::Objects => put_each(alloc, shelf, &OBJECTS),
        Files::Lengths => put_each(alloc, shelf, &LENGTHS),
    }
}

/// Puts each file of a list under its name.
fn put_each<S: Shelf>(alloc: Global, shelf: &mut S, files: &[File]) -> Result<(), Fail> {
    for &(name, content) in files {
        put_file(alloc, shelf, name, content)?;
    }
    Ok(())
}

/// Puts a file under its name.
fn put_file<S: Shelf>(
    alloc: Global,
    shelf: &mut S,
    name: &str,
    content: Content,
) -> Result<(), Fail> {
    let bytes = bytes_of(alloc, content)?;
    Ok(shelf.place(alloc, name, bytes)?)
}

/// The bytes of a file.
fn bytes_of(alloc: Global, content: Content) -> Result<Bytes, Fail> {
    match content {
        Content::Bytes(bytes) => Ok(Bytes::copy_of(alloc, bytes)?),
        Content::Object(text) => assembled(alloc, text),
        Content::Changed(changes) => Ok(changed(alloc, changes)?),
        Content::Patched(patches) => Ok(patched(alloc, patches)?),
        Content::Sized(count) => sized(alloc, count),
        Content::Spaces(count) => spaces(alloc, count),
        Content::Common => Ok(Bytes::copy_of(alloc, COMMON.as_slice())?),
    }
}

/// The file of the object that an assembly text is.
fn assembled(alloc: Global, text: &str) -> Result<Bytes, Fail> {
    let object = assemble(alloc, text.as_bytes())?;
    Ok(write_object(alloc, &object)?)
}

/// The bytes of `hello.o` with some changed.
fn changed(alloc: Global, changes: &[(usize, u8)]) -> Result<Bytes, AllocError> {
    let mut bytes = HELLO.to_vec(alloc)?;
    for &(at, value) in changes {
        put(&mut bytes, at, value);
    }
    Ok(Bytes::from_vec(bytes))
}

/// The bytes of `hello.o` with some words of `.text` replaced.
fn patched(alloc: Global, patches: &[(u8, u32)]) -> Result<Bytes, AllocError> {
    let mut bytes = HELLO.to_vec(alloc)?;
    for &(place, word) in patches {
        put_word(&mut bytes, place, word);
    }
    Ok(Bytes::from_vec(bytes))
}

/// Puts a byte at its place, if there is such a place.
fn put(bytes: &mut Vec<u8>, at: usize, value: u8) {
    if let Some(to) = bytes.get_mut(at) {
        *to = value;
    }
}

/// Puts the four bytes of a word of `.text`, the lowest first.
fn put_word(bytes: &mut Vec<u8>, place: u8, word: u32) {
    let at = 64 + 4 * usize::from(place);
    let [first, second, third, fourth] = word.to_le_bytes();
    put(bytes, at, first);
    put(bytes, at + 1, second);
    put(bytes, at + 2, third);
    put(bytes, at + 3, fourth);
}

/// So many bytes of `hello.o`, with zeros after them.
fn sized(alloc: Global, count: usize) -> Result<Bytes, Fail> {
    let mut bytes = HELLO.to_vec(alloc)?;
    bytes.resize(count, 0)?;
    Ok(Bytes::from_vec(bytes))
}

/// So many spaces.
fn spaces(alloc: Global, count: usize) -> Result<Bytes, Fail> {
    let mut bytes = Vec::new(alloc);
    bytes.resize(count, b' ')?;
    Ok(Bytes::from_vec(bytes))
}
