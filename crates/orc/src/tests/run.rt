//! Runs of one object.

mod objects;

use super::calls::{Call, Faults, NO_FAULTS, Reads};
use super::contents::{Content, Files};
use super::expected::Expected;
use super::outside::SureOutside;
use super::playing::{expect_each, expect_each_surely, expect_sized, expect_surely, make_quietly};
use std::random::RandomSource;
use std::sync::Wait;
use std::test::Fail;
use std::thread::Threads;

/// A run of `hello.o`. It is handed two notes, which are told nothing, and doesn't read the source.
pub const RUN: Call = Call {
    words: &["orc", "run", "hello.o"],
    source: "unread",
    files: Files::One("hello.o", Content::Changed(&[])),
    faults: NO_FAULTS,
    notes: &[None, None],
    out: Expected::Bytes(b"hello\n"),
    log: Expected::LastLine(b"end exited 0\n"),
    status: 0,
    reads: Reads::FilesAlone,
};

/// What the session of `hello.o` and its run write on the log.
const HELLO_LOG: &[u8] = b"\
1 s0 dylib main = made d0
2 s0 tracker d0 = tracker t0
3 s0 define d0 t0 o0 = defined u0 i0 1
4 s1 ask d0:all ready main = pending q0
5 s1 take = start u0
6 s1 place u0 48 16 = placed 10000000
7 s1 resolve u0 = resolved
8 s1 link u0 = done q1
9 s1 take = finish u0 bound
10 s1 emit u0 i0: = emitted
11 s1 collect q0 = found 10 i0@10000000
12 s1 image = image
end exited 0
";

/// A run whose whole log is looked at.
static LOGGED: Call = Call {
    log: Expected::Bytes(HELLO_LOG),
    ..RUN
};

#[test]
fn the_journal_of_a_run(rt: HostRuntime) -> Result<(), Fail> {
    expect_surely(&rt, &LOGGED)
}

/// The same where the entry isn't there.
const MISSING_LOG: &[u8] = b"\
1 s0 dylib main = made d0
2 s0 tracker d0 = tracker t0
3 s0 define d0 t0 o0 = defined u0 i0 1
4 s1 ask d0:all ready nosuch = missing nosuch
end missing nosuch
";

/// A run whose entry isn't there.
static MISSING: Call = Call {
    words: &["orc", "run", "hello.o", "--entry", "nosuch"],
    out: Expected::Bytes(b""),
    log: Expected::Bytes(MISSING_LOG),
    status: 107,
    ..RUN
};

#[test]
fn the_journal_of_a_missing_entry(rt: HostRuntime) -> Result<(), Fail> {
    expect_surely(&rt, &MISSING)
}

/// The journal of a run where it has five places: a take that hands a unit out keeps a second one.
const FIVE_LOG: &[u8] = b"\
1 s0 dylib main = made d0
2 s0 tracker d0 = tracker t0
3 s0 define d0 t0 o0 = defined u0 i0 1
4 s1 ask d0:all ready main = pending q0
end journal full 4
";

/// The run whose journal has five places.
static OF_FIVE: Call = Call {
    out: Expected::Bytes(b""),
    log: Expected::Bytes(FIVE_LOG),
    status: 113,
    ..RUN
};

#[test]
fn a_journal_of_five_is_full_at_the_take(rt: HostRuntime) -> Result<(), Fail> {
    expect_sized::<_, 5>(&rt, &OF_FIVE)
}

/// The same where it has eleven: there is no place for the image.
const ELEVEN_LOG: &[u8] = b"\
1 s0 dylib main = made d0
2 s0 tracker d0 = tracker t0
3 s0 define d0 t0 o0 = defined u0 i0 1
4 s1 ask d0:all ready main = pending q0
5 s1 take = start u0
6 s1 place u0 48 16 = placed 10000000
7 s1 resolve u0 = resolved
8 s1 link u0 = done q1
9 s1 take = finish u0 bound
10 s1 emit u0 i0: = emitted
11 s1 collect q0 = found 10 i0@10000000
end journal full 11
";

/// The run whose journal has eleven places.
static OF_ELEVEN: Call = Call {
    out: Expected::Bytes(b""),
    log: Expected::Bytes(ELEVEN_LOG),
    status: 113,
    ..RUN
};

#[test]
fn a_journal_of_eleven_is_full_at_the_image(rt: HostRuntime) -> Result<(), Fail> {
    expect_sized::<_, 11>(&rt, &OF_ELEVEN)
}

#[test]
fn a_journal_of_twelve_has_a_whole_run(rt: HostRuntime) -> Result<(), Fail> {
    expect_sized::<_, 12>(&rt, &LOGGED)
}

/// The run of a copy of `hello.o` that traps before anything is written.
const TRAPPED: Call = Call {
    words: &["orc", "run", "p.o"],
    out: Expected::Bytes(b""),
    status: 110,
    ..RUN
};

/// Copies with some words of `.text` replaced.
static RUNS: [Call; 12] = [
    Call {
        files: Files::One("p.o", Content::Patched(&[])),
        out: Expected::Length(6),
        log: Expected::LastLine(b"end exited 0\n"),
        status: 0,
        ..TRAPPED
    },
    Call {
        files: Files::One("p.o", Content::Patched(&[(0, 0xFFFF_FFFF)])),
        log: Expected::LastLine(b"end trap 10000000 illegal ffffffff\n"),
        ..TRAPPED
    },
    Call {
        files: Files::One("p.o", Content::Patched(&[(0, 0x0010_0073)])),
        log: Expected::LastLine(b"end trap 10000000 break\n"),
        ..TRAPPED
    },
    // jalr zero, 0(zero), and jal zero by 2
    Call {
        files: Files::One("p.o", Content::Patched(&[(0, 0x0000_0067)])),
        log: Expected::LastLine(b"end trap 0 fetch\n"),
        ..TRAPPED
    },
    Call {
        files: Files::One("p.o", Content::Patched(&[(0, 0x0020_006F)])),
        log: Expected::LastLine(b"end trap 10000000 misaligned 10000002\n"),
        ..TRAPPED
    },
    // lbu a0, 0(zero), and sb zero, 0(zero)
    Call {
        files: Files::One("p.o", Content::Patched(&[(0, 0x0000_4503)])),
        log: Expected::LastLine(b"end trap 10000000 load 0\n"),
        ..TRAPPED
    },
    Call {
        files: Files::One("p.o", Content::Patched(&[(0, 0x0000_0023)])),
        log: Expected::LastLine(b"end trap 10000000 store 0\n"),
        ..TRAPPED
    },
    // a write to descriptor 2, one from address 32, and call 5; the result is the exit code
    Call {
        files: Files::One("p.o", Content::Patched(&[(0, 0x0020_0513), (6, 0x13)])),
        log: Expected::LastLine(b"end exited 18446744073709551607\n"),
        status: 247,
        ..TRAPPED
    },
    Call {
        files: Files::One("p.o", Content::Patched(&[(2, 0x0000_0593), (6, 0x13)])),
        log: Expected::LastLine(b"end exited 18446744073709551602\n"),
        status: 242,
        ..TRAPPED
    },
    Call {
        files: Files::One("p.o", Content::Patched(&[(4, 0x0050_0893), (6, 0x13)])),
        log: Expected::LastLine(b"end exited 18446744073709551578\n"),
        status: 218,
        ..TRAPPED
    },
    // jal zero, 0
    Call {
        files: Files::One("p.o", Content::Patched(&[(0, 0x0000_006F)])),
        log: Expected::LastLine(b"end out of fuel\n"),
        status: 111,
        ..TRAPPED
    },
    // writes of 2,047 bytes below the stack pointer, without end
    Call {
        files: Files::One(
            "p.o",
            Content::Patched(&[
                (2, 0x0000_0013),
                (3, 0x8001_0593),
                (4, 0x7FF0_0613),
                (5, 0x0400_0893),
                (6, 0x0000_0073),
                (7, 0x0010_0513),
                (8, 0xFF9F_F06F),
            ]),
        ),
        out: Expected::Length(1_048_064),
        log: Expected::LastLine(b"end output full\n"),
        status: 112,
        ..TRAPPED
    },
];

#[test]
fn patched_copies_end_as_their_words_say(rt: HostRuntime) -> Result<(), Fail> {
    expect_each_surely(&rt, &RUNS)
}

/// The call of words that don't fit. What is written is not looked at.
const BAD_WORDS: Call = Call {
    out: Expected::Anything,
    log: Expected::LastLine(b"end usage bad words\n"),
    status: 100,
    ..RUN
};

/// Words and files that fit, or don't.
static CALLS: [Call; 15] = [
    Call {
        words: &["orc", "run", "hello.o", "--entry", "main"],
        log: Expected::LastLine(b"end exited 0\n"),
        status: 0,
        ..BAD_WORDS
    },
    Call {
        words: &["orc", "run", "hello.o", "--entry", "nosuch"],
        log: Expected::LastLine(b"end missing nosuch\n"),
        status: 107,
        ..BAD_WORDS
    },
    // a local symbol is no entry
    Call {
        words: &["orc", "run", "hello.o", "--entry", "msg"],
        log: Expected::LastLine(b"end missing msg\n"),
        status: 107,
        ..BAD_WORDS
    },
    Call {
        words: &["orc", "run", "nofile.o"],
        log: Expected::LastLine(b"end file fault 0\n"),
        status: 102,
        ..BAD_WORDS
    },
    Call {
        words: &["orc"],
        log: Expected::LastLine(b"end usage no command\n"),
        ..BAD_WORDS
    },
    Call {
        words: &["orc", "frob"],
        log: Expected::LastLine(b"end usage unknown command\n"),
        ..BAD_WORDS
    },
    Call {
        words: &["orc", "session", "hello.o"],
        ..BAD_WORDS
    },
    Call {
        words: &["orc", "session"],
        log: Expected::LastLine(b"end script refused 1 word\n"),
        status: 104,
        reads: Reads::SourceAndFiles,
        ..BAD_WORDS
    },
    Call {
        words: &["orc", "run"],
        ..BAD_WORDS
    },
    Call {
        words: &["orc", "run", "--help"],
        ..BAD_WORDS
    },
    Call {
        words: &["orc", "run", "hello.o", "--entry", ""],
        ..BAD_WORDS
    },
    Call {
        words: &[
            "orc",
            "run",
            "--fuel=9",
            "--entry=main",
            "--workers",
            "3",
            "hello.o",
        ],
        log: Expected::LastLine(b"end exited 0\n"),
        status: 0,
        ..BAD_WORDS
    },
    Call {
        words: &["orc", "run", "hello.o", "--workers", "17"],
        log: Expected::LastLine(b"end usage bad number\n"),
        ..BAD_WORDS
    },
    // the same file twice defines the same name twice
    Call {
        words: &["orc", "run", "hello.o", "--", "hello.o"],
        log: Expected::LastLine(b"end define refused 0\n"),
        status: 116,
        ..BAD_WORDS
    },
    Call {
        words: &["orc", "run", "hello.o", "nofile.o"],
        log: Expected::LastLine(b"end file fault 1\n"),
        status: 102,
        ..BAD_WORDS
    },
];

#[test]
fn words_and_files_have_their_answers(rt: HostRuntime) -> Result<(), Fail> {
    expect_each(&rt, &CALLS)
}

/// Words that say how much fuel there is.
static FUELS: [Call; 14] = [
    // hello.o does nine instructions
    Call {
        words: &["orc", "run", "hello.o", "--fuel", "9"],
        log: Expected::LastLine(b"end exited 0\n"),
        status: 0,
        ..BAD_WORDS
    },
    Call {
        words: &["orc", "run", "hello.o", "--fuel", "8", "--entry", "main"],
        log: Expected::LastLine(b"end out of fuel\n"),
        status: 111,
        ..BAD_WORDS
    },
    Call {
        words: &["orc", "run", "hello.o", "--entry", "main", "--fuel", "0"],
        log: Expected::LastLine(b"end out of fuel\n"),
        status: 111,
        ..BAD_WORDS
    },
    Call {
        words: &["orc", "run", "hello.o", "--fuel", "1099511627776"],
        log: Expected::LastLine(b"end exited 0\n"),
        status: 0,
        ..BAD_WORDS
    },
    Call {
        words: &["orc", "run", "hello.o", "--fuel", "1099511627777"],
        log: Expected::LastLine(b"end usage bad number\n"),
        ..BAD_WORDS
    },
    Call {
        words: &["orc", "run", "hello.o", "--fuel", "18446744073709551625"],
        log: Expected::LastLine(b"end usage bad number\n"),
        ..BAD_WORDS
    },
    Call {
        words: &["orc", "run", "hello.o", "--fuel", "08"],
        log: Expected::LastLine(b"end usage bad number\n"),
        ..BAD_WORDS
    },
    Call {
        words: &["orc", "run", "hello.o", "--fuel", "+9"],
        log: Expected::LastLine(b"end usage bad number\n"),
        ..BAD_WORDS
    },
    Call {
        words: &["orc", "run", "hello.o", "--fuel", "9x"],
        log: Expected::LastLine(b"end usage bad number\n"),
        ..BAD_WORDS
    },
    Call {
        words: &["orc", "run", "hello.o", "--fuel", ""],
        log: Expected::LastLine(b"end usage bad number\n"),
        ..BAD_WORDS
    },
    Call {
        words: &["orc", "run", "hello.o", "--fuel", "-9"],
        ..BAD_WORDS
    },
    // the words are judged before the number
    Call {
        words: &["orc", "run", "hello.o", "--fuel", "08", "--entry", ""],
        ..BAD_WORDS
    },
    Call {
        words: &["orc", "run", "hello.o", "--fuel", "9", "--fuel", "9"],
        ..BAD_WORDS
    },
    Call {
        words: &["orc", "run", "hello.o", "--fuel"],
        ..BAD_WORDS
    },
];

#[test]
fn fuel_is_a_number_in_its_range(rt: HostRuntime) -> Result<(), Fail> {
    expect_each(&rt, &FUELS)
}

/// A run with fuel for one instruction less than it does.
static SHORT_OF_FUEL: Call = Call {
    words: &["orc", "run", "hello.o", "--fuel", "8"],
    log: Expected::LastLine(b"end out of fuel\n"),
    status: 111,
    ..RUN
};

#[test]
fn fuel_stops_a_run_with_its_output(rt: HostRuntime) -> Result<(), Fail> {
    expect_surely(&rt, &SHORT_OF_FUEL)
}

/// A run of a file of some length.
const OF_LENGTHS: Call = Call {
    files: Files::Lengths,
    ..RUN
};

/// The runs of these files.
static LENGTH_RUNS: [Call; 6] = [
    Call {
        words: &["orc", "run", "0"],
        ..OF_LENGTHS
    },
    Call {
        words: &["orc", "run", "15"],
        ..OF_LENGTHS
    },
    Call {
        words: &["orc", "run", "63"],
        ..OF_LENGTHS
    },
    Call {
        words: &["orc", "run", "64"],
        ..OF_LENGTHS
    },
    Call {
        words: &["orc", "run", "400"],
        ..OF_LENGTHS
    },
    Call {
        words: &["orc", "run", "long"],
        ..OF_LENGTHS
    },
];

/// Their end lines.
const LENGTH_LINES: &[u8] = b"\
end object refused 0 e1 0
end object refused 0 e1 15
end object refused 0 e1 63
end object refused 0 e1 328
end object refused 0 e1 400
end too long 0
";

/// Runs of files of some lengths over one outside. What each comes to is not looked at.
fn run_lengths<R: Threads + Wait + Sync + RandomSource + AllocGlobal>(
    rt: &R,
    outside: &mut SureOutside,
) -> Result<(), Fail> {
    for call in &LENGTH_RUNS {
        make_quietly(rt, call, outside)?;
    }
    Ok(())
}

#[test]
fn files_of_some_lengths_are_refused(rt: HostRuntime) -> Result<(), Fail> {
    let mut outside = SureOutside::new(rt.alloc(), &OF_LENGTHS)?;
    run_lengths(&rt, &mut outside)?;
    assert_eq!(rt; outside.log.bytes(), Some(LENGTH_LINES));
    Ok(())
}

/// The run of a copy of `hello.o` whose bytes are refused. What is written is not looked at.
const REFUSED: Call = Call {
    words: &["orc", "run", "p.o"],
    out: Expected::Anything,
    status: 105,
    ..RUN
};

/// Copies with some bytes changed.
static CHANGES: [Call; 13] = [
    // a relocation of type 60, one that passes its section's end, and one whose label has no upper part
    Call {
        files: Files::One("p.o", Content::Changed(&[(120, 0x3C)])),
        log: Expected::LastLine(b"end object refused 0 g1 60 0 4\n"),
        ..REFUSED
    },
    Call {
        files: Files::One("p.o", Content::Changed(&[(112, 34)])),
        log: Expected::LastLine(b"end object refused 0 g2 0 34\n"),
        ..REFUSED
    },
    Call {
        files: Files::One("p.o", Content::Changed(&[(148, 2)])),
        log: Expected::LastLine(b"end object refused 0 g4 0 8\n"),
        ..REFUSED
    },
    Call {
        files: Files::One("p.o", Content::Changed(&[(120, 18)])),
        log: Expected::LastLine(b"end object refused 0 g4 0 8\n"),
        ..REFUSED
    },
    // an ALIGN whose padding is shorter than the three bytes that lead from 5 to a multiple of 4
    Call {
        files: Files::One("p.o", Content::Changed(&[(112, 5), (120, 43), (128, 2)])),
        log: Expected::LastLine(b"end object refused 0 g5 0 5\n"),
        ..REFUSED
    },
    // a symbol for thread-local storage
    Call {
        files: Files::One("p.o", Content::Changed(&[(212, 6)])),
        log: Expected::LastLine(b"end object refused 0 g3 2\n"),
        ..REFUSED
    },
    // a refusal of the bytes comes before one of the graph
    Call {
        files: Files::One("p.o", Content::Changed(&[(124, 9), (212, 6)])),
        log: Expected::LastLine(b"end object refused 0 e10 3\n"),
        ..REFUSED
    },
    // main is weak, hidden, undefined; or of a section that is passed over
    Call {
        files: Files::One("p.o", Content::Changed(&[(236, 0x20)])),
        log: Expected::LastLine(b"end exited 0\n"),
        status: 0,
        ..REFUSED
    },
    Call {
        files: Files::One("p.o", Content::Changed(&[(237, 2)])),
        log: Expected::LastLine(b"end exited 0\n"),
        status: 0,
        ..REFUSED
    },
    Call {
        files: Files::One("p.o", Content::Changed(&[(238, 0)])),
        log: Expected::LastLine(b"end missing main\n"),
        status: 107,
        ..REFUSED
    },
    Call {
        files: Files::One("p.o", Content::Changed(&[(238, 5)])),
        log: Expected::LastLine(b"end missing main\n"),
        status: 107,
        ..REFUSED
    },
    // a value that is out of range by its addend
    Call {
        files: Files::One("p.o", Content::Changed(&[(131, 0x80)])),
        log: Expected::LastLine(b"end link refused 0 4 23 2147483680\n"),
        status: 108,
        ..REFUSED
    },
    // main is at the absolute address 8
    Call {
        files: Files::One(
            "p.o",
            Content::Changed(&[(238, 0xF1), (239, 0xFF), (240, 8)]),
        ),
        log: Expected::LastLine(b"end trap 8 fetch\n"),
        status: 110,
        ..REFUSED
    },
];

#[test]
fn changed_copies_have_their_answers(rt: HostRuntime) -> Result<(), Fail> {
    expect_each_surely(&rt, &CHANGES)
}

/// The run of a program that does as `hello.o`, with as much fuel as it needs.
static WITH_ADDITIONS: Call = Call {
    words: &["orc", "run", "c.o", "--fuel", "9"],
    files: Files::One("c.o", Content::Common),
    ..RUN
};

#[test]
fn what_assemblers_add_changes_nothing(rt: HostRuntime) -> Result<(), Fail> {
    expect_surely(&rt, &WITH_ADDITIONS)
}

/// Sinks that have room for some first bytes.
static CUT: [Call; 2] = [
    Call {
        faults: Faults {
            out_room: 3,
            ..NO_FAULTS
        },
        out: Expected::Bytes(b"hel"),
        log: Expected::Bytes(b""),
        status: 103,
        ..RUN
    },
    Call {
        faults: Faults {
            log_room: 5,
            ..NO_FAULTS
        },
        log: Expected::Bytes(b"1 s0 "),
        status: 103,
        ..RUN
    },
];

#[test]
fn a_write_that_fails_is_answered(rt: HostRuntime) -> Result<(), Fail> {
    expect_each(&rt, &CUT)
}
