//! Scripts and their sessions.

mod faults;
mod full_journals;
mod peeks;
mod refusals;
mod rows;
mod threads;
mod units;
mod watches;

use super::calls::{Call, NO_FAULTS, Reads};
use super::contents::Files;
use super::expected::Expected;
use super::playing::expect;
use std::process::Abort;
use std::random::RandomSource;
use std::sync::Wait;
use std::test::Fail;
use std::thread::Threads;

/// The session of the empty script, with no workers and no notes.
pub const SESSION: Call = Call {
    words: &["orc", "session"],
    source: "",
    files: Files::Objects,
    faults: NO_FAULTS,
    notes: &[],
    out: Expected::Bytes(b""),
    log: Expected::Bytes(b"end done\n"),
    status: 0,
    reads: Reads::SourceAndFiles,
};

/// The script of two objects that call each other.
const CYCLE: &str = "dylib main
tracker main t
object main t a.o
object main t b.o
client
lookup ready main:all main
run main 1000
";

/// Its text: nothing is ready after the first emission, and all is after the second.
const CYCLE_TEXT: &str = "1 s0 dylib main = made d0
2 s0 tracker d0 = tracker t0
3 s0 define d0 t0 o0 = defined u0 i0 2
4 s0 define d0 t0 o1 = defined u1 i2 1
5 s1 ask d0:all ready main = pending q0
6 s1 take = start u0
7 s1 place u0 48 16 = placed 10000000
8 s1 resolve u0 = resolved
9 s1 link u0 = pending q1
10 s1 take = start u1
11 s1 place u1 32 16 = placed 10000030
12 s1 resolve u1 = resolved
13 s1 link u1 = done q2
14 s1 take = finish u0 bound i2
15 s1 emit u0 i0,i1:i2 = emitted
16 s1 take = finish u1 bound i1
17 s1 emit u1 i2:i1 = emitted
18 s1 collect q0 = found 17 i0@10000000
19 s1 image = image
c1 l1 found main@10000000
c1 l2 exited 7 -
";

/// The session of a script is done with this text.
fn expect_text<R: Threads + Wait + Sync + RandomSource + Abort + AllocGlobal>(
    rt: &R,
    script: &'static str,
    text: &'static str,
) -> Result<(), Fail> {
    expect(
        rt,
        &Call {
            source: script,
            out: Expected::Text(text),
            ..SESSION
        },
    )
}

/// The same where a part of the text is left open: its journal has these entries, and these are its results.
fn expect_results<R: Threads + Wait + Sync + RandomSource + Abort + AllocGlobal>(
    rt: &R,
    script: &'static str,
    entries: &'static str,
    results: &'static str,
) -> Result<(), Fail> {
    expect(
        rt,
        &Call {
            source: script,
            out: Expected::Results { entries, results },
            ..SESSION
        },
    )
}
