//! Scripts that are not taken in, and files that aren't.

use super::SESSION;
use crate::tests::calls::Call;
use crate::tests::expected::Expected;
use crate::tests::playing::expect_each;
use std::test::Fail;

/// Scripts, and files, that are not taken in.
static REFUSALS: [Call; 11] = [
    Call {
        source: "client\nlookup ready main:all main\n",
        log: Expected::Bytes(b"end script refused 2 unknown\n"),
        status: 104,
        ..SESSION
    },
    Call {
        source: "frob\n",
        log: Expected::Bytes(b"end script refused 1 word\n"),
        status: 104,
        ..SESSION
    },
    Call {
        source: "# skipped\n\ndylib main \n",
        log: Expected::Bytes(b"end script refused 3 bytes\n"),
        status: 104,
        ..SESSION
    },
    Call {
        source: "dylib main\nclient\nrun main 08\n",
        log: Expected::Bytes(b"end script refused 3 number\n"),
        status: 104,
        ..SESSION
    },
    // there are no notes
    Call {
        source: "dylib main\nclient\nwatch ready main:all main\n",
        log: Expected::Bytes(b"end script refused 3 nonote\n"),
        status: 104,
        ..SESSION
    },
    Call {
        source: "dylib main\ntracker main t\nobject main t nofile.o\n",
        log: Expected::Bytes(b"end file fault 0\n"),
        status: 102,
        ..SESSION
    },
    // a file has its number by its first mention, in the line of a client too
    Call {
        source: "dylib main\ntracker main t\nobject main t a.o\nobject main t a.o\nclient\ndefine main t nofile.o\n",
        log: Expected::Bytes(b"end file fault 1\n"),
        status: 102,
        ..SESSION
    },
    Call {
        source: "dylib main\ntracker main t\nobject main t no.o\n",
        log: Expected::Bytes(b"end object refused 0 e1 9\n"),
        status: 105,
        ..SESSION
    },
    Call {
        source: "dylib main\ntracker main t\nobject main t a.o\ngenerator main t no.o\n",
        log: Expected::Bytes(b"end object refused 1 e1 9\n"),
        status: 105,
        ..SESSION
    },
    // the first file that isn't taken in counts
    Call {
        source: "dylib main\ntracker main t\nobject main t no.o\nobject main t nofile.o\n",
        log: Expected::Bytes(b"end object refused 0 e1 9\n"),
        status: 105,
        ..SESSION
    },
    // the script is judged before its files
    Call {
        source: "dylib main\ntracker main t\nobject main t nofile.o\nfrob\n",
        log: Expected::Bytes(b"end script refused 4 word\n"),
        status: 104,
        ..SESSION
    },
];

#[test]
fn scripts_without_a_session(rt: HostRuntime) -> Result<(), Fail> {
    expect_each(&rt, &REFUSALS)
}

/// Words that don't fit, with a script that doesn't either.
const BAD_WORDS: Call = Call {
    source: "frob\n",
    log: Expected::Bytes(b"end usage bad words\n"),
    status: 100,
    ..SESSION
};

/// Numbers of workers that are refused, and words that don't fit.
static WORDS: [Call; 4] = [
    Call {
        words: &["orc", "session", "--workers", "17"],
        log: Expected::Bytes(b"end usage bad number\n"),
        ..BAD_WORDS
    },
    Call {
        words: &["orc", "session", "--workers", "08"],
        log: Expected::Bytes(b"end usage bad number\n"),
        ..BAD_WORDS
    },
    Call {
        words: &["orc", "session", "--workers"],
        ..BAD_WORDS
    },
    Call {
        words: &["orc", "session", "a.o"],
        ..BAD_WORDS
    },
];

#[test]
fn words_are_judged_before_the_script(rt: HostRuntime) -> Result<(), Fail> {
    expect_each(&rt, &WORDS)
}
