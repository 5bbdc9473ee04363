//! Assemblies of one file.

use super::calls::{Call, Faults, NO_FAULTS, Reads};
use super::contents::{Content, Files};
use super::expected::Expected;
use super::outside::{Outside, SureOutside};
use super::playing::{expect, expect_each, expect_over, make_quietly};
use orc_ids::Bytes;
use orc_io::OpenGate;
use sample_objects::HELLO;
use std::random::RandomSource;
use std::sync::Wait;
use std::test::Fail;
use std::thread::Threads;

/// `examples/hello.s`.
const HELLO_TEXT: &[u8] = b".text
.globl main
main: addi a0, zero, 1
.L1: auipc a1, %pcrel_hi(msg)
addi a1, a1, %pcrel_lo(.L1)
addi a2, zero, 6
addi a7, zero, 64
ecall
addi a0, zero, 0
addi a7, zero, 93
ecall
.section .rodata
msg: .ascii \"hello\\n\"
";

/// The assembly of `t.s`, which has `examples/hello.s`. It doesn't read the source.
const ASSEMBLY: Call = Call {
    words: &["orc", "as", "t.s"],
    source: "unread",
    files: Files::One("t.s", Content::Bytes(HELLO_TEXT)),
    faults: NO_FAULTS,
    notes: &[],
    out: Expected::Bytes(b""),
    log: Expected::Bytes(b"end done\n"),
    status: 0,
    reads: Reads::FilesAlone,
};

/// What is written for it is the object of another assembler.
static WRITTEN: Call = Call {
    out: Expected::Hello(HELLO.len()),
    ..ASSEMBLY
};

#[test]
fn hello(rt: HostRuntime) -> Result<(), Fail> {
    expect(&rt, &WRITTEN)
}

/// The run of an object that was written, whose output has just the room that it needs.
static RUN: Call = Call {
    words: &["orc", "run", "t.o"],
    faults: Faults {
        out_room: 6,
        ..NO_FAULTS
    },
    out: Expected::Bytes(b"hello\n"),
    log: Expected::LastLine(b"end exited 0\n"),
    ..ASSEMBLY
};

/// The object that is written for `examples/hello.s`.
fn written<R: Threads + Wait + Sync + RandomSource + AllocGlobal>(rt: &R) -> Result<Bytes, Fail> {
    let alloc = rt.alloc();
    let mut outside = SureOutside::new(alloc, &ASSEMBLY)?;
    make_quietly(rt, &ASSEMBLY, &mut outside)?;
    Ok(Bytes::copy_of(alloc, outside.out.bytes().unwrap_or(b""))?)
}

/// What is written runs.
#[test]
fn an_object_that_was_written_runs(rt: HostRuntime) -> Result<(), Fail> {
    let alloc = rt.alloc();
    let object = written(&rt)?;
    let mut outside = Outside::new(alloc, &RUN)?;
    outside.files.put(alloc, "t.o", object)?;
    expect_over(&rt, &RUN, outside, &OpenGate)
}

/// An assembly of a text whose first line is bad.
const BAD_LINE: Call = Call {
    log: Expected::Bytes(b"end asm refused 1 word\n"),
    status: 115,
    ..ASSEMBLY
};

/// For each reason a text whose first bad line is refused for it.
static REFUSED: [Call; 8] = [
    Call {
        files: Files::One("t.s", Content::Bytes(b"frob a0\n")),
        ..BAD_LINE
    },
    Call {
        files: Files::One("t.s", Content::Bytes(b"frob a0")),
        ..BAD_LINE
    },
    Call {
        files: Files::One("t.s", Content::Bytes(b"x: nop\n\nx: nop\n")),
        log: Expected::Bytes(b"end asm refused 3 label\n"),
        ..BAD_LINE
    },
    Call {
        files: Files::One("t.s", Content::Bytes(b"nop\naddi a0, a1\n")),
        log: Expected::Bytes(b"end asm refused 2 operands\n"),
        ..BAD_LINE
    },
    Call {
        files: Files::One("t.s", Content::Bytes(b"addi a0, a1, 2048\n")),
        log: Expected::Bytes(b"end asm refused 1 number\n"),
        ..BAD_LINE
    },
    Call {
        files: Files::One("t.s", Content::Bytes(b"x:\n.comm x, 8, 8\n")),
        log: Expected::Bytes(b"end asm refused 2 name\n"),
        ..BAD_LINE
    },
    Call {
        files: Files::One("t.s", Content::Bytes(b".section .other\n")),
        log: Expected::Bytes(b"end asm refused 1 section\n"),
        ..BAD_LINE
    },
    // a branch is judged with the labels of the whole text
    Call {
        files: Files::One(
            "t.s",
            Content::Bytes(b"nop\nbeq a0, a1, x\n.zero 4096\nx: nop\n"),
        ),
        log: Expected::Bytes(b"end asm refused 2 number\n"),
        ..BAD_LINE
    },
];

#[test]
fn the_first_bad_line(rt: HostRuntime) -> Result<(), Fail> {
    expect_each(&rt, &REFUSED)
}

/// A file that is missing, and one that can't be read.
static UNREAD: [Call; 2] = [
    Call {
        words: &["orc", "as", "nofile.s"],
        log: Expected::Bytes(b"end file fault 0\n"),
        status: 102,
        ..ASSEMBLY
    },
    Call {
        faults: Faults {
            files: Some(0),
            ..NO_FAULTS
        },
        log: Expected::Bytes(b"end file fault 0\n"),
        status: 102,
        ..ASSEMBLY
    },
];

#[test]
fn a_file_that_fails(rt: HostRuntime) -> Result<(), Fail> {
    expect_each(&rt, &UNREAD)
}

/// A text of one byte more than is read.
static TOO_LONG: Call = Call {
    files: Files::One("t.s", Content::Spaces(16_777_217)),
    log: Expected::Bytes(b"end too long 0\n"),
    status: 106,
    ..ASSEMBLY
};

#[test]
fn a_file_of_more_than_16_mib(rt: HostRuntime) -> Result<(), Fail> {
    expect(&rt, &TOO_LONG)
}

/// Sinks with room for some first bytes, and a log that can't be written.
static UNWRITTEN: [Call; 3] = [
    Call {
        faults: Faults {
            out_room: 10,
            ..NO_FAULTS
        },
        out: Expected::Hello(10),
        log: Expected::Bytes(b""),
        status: 103,
        ..ASSEMBLY
    },
    Call {
        faults: Faults {
            log_room: 5,
            ..NO_FAULTS
        },
        out: Expected::Hello(HELLO.len()),
        log: Expected::Bytes(b"end d"),
        status: 103,
        ..ASSEMBLY
    },
    // whatever was found before
    Call {
        files: Files::One("t.s", Content::Bytes(b"frob\n")),
        faults: Faults {
            log: Some(0),
            ..NO_FAULTS
        },
        log: Expected::Bytes(b""),
        status: 103,
        ..ASSEMBLY
    },
];

#[test]
fn a_write_that_fails(rt: HostRuntime) -> Result<(), Fail> {
    expect_each(&rt, &UNWRITTEN)
}

/// Words that don't fit.
const REFUSED_WORDS: Call = Call {
    log: Expected::Bytes(b"end usage bad words\n"),
    status: 100,
    ..ASSEMBLY
};

/// No file, two files, and an option of another command.
static BAD_WORDS: [Call; 3] = [
    Call {
        words: &["orc", "as"],
        ..REFUSED_WORDS
    },
    Call {
        words: &["orc", "as", "t.s", "t.s"],
        ..REFUSED_WORDS
    },
    Call {
        words: &["orc", "as", "t.s", "--workers", "0"],
        ..REFUSED_WORDS
    },
];

#[test]
fn words_that_dont_fit(rt: HostRuntime) -> Result<(), Fail> {
    expect_each(&rt, &BAD_WORDS)
}
