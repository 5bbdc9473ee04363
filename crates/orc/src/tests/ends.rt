//! The status that the program ends with is that of its call. The gate runs `main` itself on two objects, and wants the status 8.

use super::calls::{Call, Reads};
use super::contents::{Content, Files};
use super::expected::Expected;
use super::playing::expect_exit;
use super::run::RUN;
use super::session::SESSION;
use std::test::Fail;

/// Runs that exit with one code and another, a session, one whose script is refused, and words that don't fit.
static CALLS: [Call; 6] = [
    RUN,
    Call {
        words: &["orc", "run", "a.o", "b.o"],
        files: Files::Objects,
        out: Expected::Bytes(b""),
        log: Expected::LastLine(b"end exited 7\n"),
        status: 7,
        ..RUN
    },
    Call {
        words: &["orc", "run", "f.o"],
        files: Files::One(
            "f.o",
            Content::Object(".globl main\nmain: addi a0, zero, 255\nret\n"),
        ),
        out: Expected::Bytes(b""),
        log: Expected::LastLine(b"end exited 255\n"),
        status: 255,
        ..RUN
    },
    SESSION,
    Call {
        source: "nothing\n",
        log: Expected::Bytes(b"end script refused 1 word\n"),
        status: 104,
        ..SESSION
    },
    Call {
        words: &["orc", "run"],
        out: Expected::Bytes(b""),
        log: Expected::Bytes(b"end usage bad words\n"),
        status: 100,
        reads: Reads::Nothing,
        ..RUN
    },
];

#[test]
fn the_program_ends_with_the_status_of_its_call(rt: HostRuntime) -> Result<(), Fail> {
    for call in &CALLS {
        expect_exit(&rt, call)?;
    }
    Ok(())
}
