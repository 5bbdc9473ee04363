//! Sessions of generated objects. The counts of the worked ones were found by hand.

use super::calls::{Call, Faults, NO_FAULTS, Reads};
use super::contents::Files;
use super::expected::Expected;
use super::playing::{expect, expect_each};
use std::test::Fail;

/// What sessions come to.
const EIGHT: &[u8] = b"objects 8
heads 1
sum 7
removed 3
found 1
failed 4
missing 3
";

/// What the session of a thousand objects comes to.
const THOUSAND: &[u8] = b"objects 1000
heads 71
sum 8876
removed 334
found 331
failed 335
missing 334
";

/// What the session of one object comes to.
const ONE: &[u8] = b"objects 1
heads 0
sum 0
removed 1
found 0
failed 0
missing 1
";

/// The session of eight objects. It reads nothing.
const GENERATION: Call = Call {
    words: &["orc", "gen", "8"],
    source: "unread",
    files: Files::Nothing,
    faults: NO_FAULTS,
    notes: &[],
    out: Expected::Bytes(EIGHT),
    log: Expected::Bytes(b"end done\n"),
    status: 0,
    reads: Reads::Nothing,
};

#[test]
fn eight_objects(rt: HostRuntime) -> Result<(), Fail> {
    expect(&rt, &GENERATION)
}

/// The session of a thousand objects.
static OF_A_THOUSAND: Call = Call {
    words: &["orc", "gen", "1000"],
    out: Expected::Bytes(THOUSAND),
    ..GENERATION
};

#[test]
fn a_thousand_objects(rt: HostRuntime) -> Result<(), Fail> {
    expect(&rt, &OF_A_THOUSAND)
}

/// The session of one object.
static OF_ONE: Call = Call {
    words: &["orc", "gen", "1"],
    out: Expected::Bytes(ONE),
    ..GENERATION
};

#[test]
fn one_object(rt: HostRuntime) -> Result<(), Fail> {
    expect(&rt, &OF_ONE)
}

/// An output with room for the first bytes, and a log that can't be written.
static UNWRITTEN: [Call; 2] = [
    Call {
        faults: Faults {
            out_room: 9,
            ..NO_FAULTS
        },
        out: Expected::Bytes(b"objects 8"),
        log: Expected::Bytes(b""),
        status: 103,
        ..GENERATION
    },
    Call {
        faults: Faults {
            log: Some(0),
            ..NO_FAULTS
        },
        log: Expected::Bytes(b""),
        status: 103,
        ..GENERATION
    },
];

#[test]
fn a_write_that_fails(rt: HostRuntime) -> Result<(), Fail> {
    expect_each(&rt, &UNWRITTEN)
}

/// Words that don't fit.
const BAD_WORDS: Call = Call {
    out: Expected::Bytes(b""),
    log: Expected::Bytes(b"end usage bad words\n"),
    status: 100,
    ..GENERATION
};

/// A number that is out of range, or isn't plain.
const BAD_NUMBER: Call = Call {
    log: Expected::Bytes(b"end usage bad number\n"),
    ..BAD_WORDS
};

/// Numbers of objects that are refused.
static REFUSED: [Call; 6] = [
    Call {
        words: &["orc", "gen"],
        ..BAD_WORDS
    },
    Call {
        words: &["orc", "gen", "8", "8"],
        ..BAD_WORDS
    },
    Call {
        words: &["orc", "gen", "8", "--fuel", "1"],
        ..BAD_WORDS
    },
    Call {
        words: &["orc", "gen", "0"],
        ..BAD_NUMBER
    },
    Call {
        words: &["orc", "gen", "4097"],
        ..BAD_NUMBER
    },
    Call {
        words: &["orc", "gen", "08"],
        ..BAD_NUMBER
    },
];

#[test]
fn words_that_dont_fit(rt: HostRuntime) -> Result<(), Fail> {
    expect_each(&rt, &REFUSED)
}
