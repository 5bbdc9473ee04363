//! An outside that fails.

use super::{CYCLE, CYCLE_TEXT, SESSION};
use crate::tests::calls::{Call, Faults, NO_FAULTS};
use crate::tests::expected::Expected;
use crate::tests::playing::expect_each;
use std::test::Fail;

/// The script can't be read.
const UNREAD: Call = Call {
    source: CYCLE,
    log: Expected::Bytes(b"end read fault\n"),
    status: 101,
    ..SESSION
};

/// The first read of the script fails, or the next.
static SOURCE_FAULTS: [Call; 2] = [
    Call {
        faults: Faults {
            source: Some(0),
            ..NO_FAULTS
        },
        ..UNREAD
    },
    // the second read is the one that would find the end
    Call {
        faults: Faults {
            source: Some(1),
            ..NO_FAULTS
        },
        ..UNREAD
    },
];

#[test]
fn a_read_of_the_source_fails(rt: HostRuntime) -> Result<(), Fail> {
    expect_each(&rt, &SOURCE_FAULTS)
}

/// The first file can't be read, or the next.
static FILE_FAULTS: [Call; 2] = [
    Call {
        source: CYCLE,
        faults: Faults {
            files: Some(0),
            ..NO_FAULTS
        },
        log: Expected::Bytes(b"end file fault 0\n"),
        status: 102,
        ..SESSION
    },
    Call {
        source: CYCLE,
        faults: Faults {
            files: Some(1),
            ..NO_FAULTS
        },
        log: Expected::Bytes(b"end file fault 1\n"),
        status: 102,
        ..SESSION
    },
];

#[test]
fn a_read_of_a_file_fails(rt: HostRuntime) -> Result<(), Fail> {
    expect_each(&rt, &FILE_FAULTS)
}

/// Something can't be written, and so no end line is.
const UNWRITTEN: Call = Call {
    source: CYCLE,
    log: Expected::Bytes(b""),
    status: 103,
    ..SESSION
};

/// The output is full, or its first write fails.
static OUT_FAULTS: [Call; 2] = [
    Call {
        faults: Faults {
            out_room: 10,
            ..NO_FAULTS
        },
        out: Expected::Bytes(b"1 s0 dylib"),
        ..UNWRITTEN
    },
    Call {
        faults: Faults {
            out: Some(0),
            ..NO_FAULTS
        },
        ..UNWRITTEN
    },
];

#[test]
fn a_write_on_out_fails(rt: HostRuntime) -> Result<(), Fail> {
    expect_each(&rt, &OUT_FAULTS)
}

/// The log is full, or its first write fails.
static LOG_FAULTS: [Call; 2] = [
    Call {
        faults: Faults {
            log_room: 3,
            ..NO_FAULTS
        },
        out: Expected::Text(CYCLE_TEXT),
        log: Expected::Bytes(b"end"),
        ..UNWRITTEN
    },
    // whatever was found before
    Call {
        source: "frob\n",
        faults: Faults {
            log: Some(0),
            ..NO_FAULTS
        },
        ..UNWRITTEN
    },
];

#[test]
fn a_write_on_log_fails(rt: HostRuntime) -> Result<(), Fail> {
    expect_each(&rt, &LOG_FAULTS)
}
