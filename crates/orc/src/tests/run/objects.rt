//! Programs of several objects, each assembled here.

use super::RUN;
use crate::tests::calls::Call;
use crate::tests::contents::Files;
use crate::tests::expected::Expected;
use crate::tests::playing::{expect_each_surely, expect_surely};
use std::test::Fail;

/// A run of some of these objects, none of which writes anything.
const PROGRAM: Call = Call {
    files: Files::Objects,
    out: Expected::Bytes(b""),
    ..RUN
};

/// Two objects that call each other: nothing is ready after the first emission, and all is after the second.
const CYCLE: &[u8] = b"\
1 s0 dylib main = made d0
2 s0 tracker d0 = tracker t0
3 s0 define d0 t0 o0 = defined u0 i0 2
4 s0 define d0 t0 o1 = defined u1 i2 1
5 s1 ask d0:all ready main = pending q0
6 s1 take = start u0
7 s1 place u0 48 16 = placed 10000000
8 s1 resolve u0 = resolved
9 s1 link u0 = pending q1
10 s1 take = start u1
11 s1 place u1 32 16 = placed 10000030
12 s1 resolve u1 = resolved
13 s1 link u1 = done q2
14 s1 take = finish u0 bound i2
15 s1 emit u0 i0,i1:i2 = emitted
16 s1 take = finish u1 bound i1
17 s1 emit u1 i2:i1 = emitted
18 s1 collect q0 = found 17 i0@10000000
19 s1 image = image
end exited 7
";

/// The run of the cycle.
static OF_TWO: Call = Call {
    words: &["orc", "run", "a.o", "b.o"],
    log: Expected::Bytes(CYCLE),
    status: 7,
    ..PROGRAM
};

#[test]
fn a_cycle_of_two_objects(rt: HostRuntime) -> Result<(), Fail> {
    expect_surely(&rt, &OF_TWO)
}

/// A unit whose external is nowhere fails, and the entry with it.
const DANGLING: &[u8] = b"\
1 s0 dylib main = made d0
2 s0 tracker d0 = tracker t0
3 s0 define d0 t0 o0 = defined u0 i0 1
4 s1 ask d0:all ready main = pending q0
5 s1 take = start u0
6 s1 place u0 32 16 = placed 10000000
7 s1 resolve u0 = resolved
8 s1 link u0 = missing f
9 s1 fail u0 missing f = failed
10 s1 collect q0 = failed 9 i0
end dep failed i0
";

/// The run of an object without the one that it needs.
static WITHOUT_ITS_NEED: Call = Call {
    words: &["orc", "run", "p.o"],
    log: Expected::Bytes(DANGLING),
    status: 109,
    ..PROGRAM
};

#[test]
fn a_missing_dependency(rt: HostRuntime) -> Result<(), Fail> {
    expect_surely(&rt, &WITHOUT_ITS_NEED)
}

/// A jump to a weak symbol that is nowhere is out of range.
const REFUSED: &[u8] = b"\
1 s0 dylib main = made d0
2 s0 tracker d0 = tracker t0
3 s0 define d0 t0 o0 = defined u0 i0 1
4 s1 ask d0:all ready main = pending q0
5 s1 take = start u0
6 s1 place u0 16 16 = placed 10000000
7 s1 resolve u0 = resolved
8 s1 link u0 = done q1
9 s1 take = finish u0 bound none
10 s1 fail u0 refused 0 0 17 -268435456 = failed
11 s1 collect q0 = failed 10 i0
end link refused 0 0 17 -268435456
";

/// The run of an object whose edge can't be fixed.
static OUT_OF_RANGE: Call = Call {
    words: &["orc", "run", "j.o"],
    log: Expected::Bytes(REFUSED),
    status: 108,
    ..PROGRAM
};

#[test]
fn an_edge_out_of_range(rt: HostRuntime) -> Result<(), Fail> {
    expect_surely(&rt, &OUT_OF_RANGE)
}

/// The run of a program that ends with 7.
const SEVEN: Call = Call {
    log: Expected::LastLine(b"end exited 7\n"),
    status: 7,
    ..PROGRAM
};

/// How programs end.
static ENDS: [Call; 12] = [
    // twelve instructions
    Call {
        words: &["orc", "run", "a.o", "b.o", "--fuel", "12"],
        ..SEVEN
    },
    Call {
        words: &["orc", "run", "a.o", "b.o", "--fuel", "11"],
        log: Expected::LastLine(b"end out of fuel\n"),
        status: 111,
        ..SEVEN
    },
    Call {
        words: &["orc", "run", "b.o", "a.o"],
        ..SEVEN
    },
    Call {
        words: &["orc", "run", "a.o", "b.o", "--entry", "g"],
        ..SEVEN
    },
    Call {
        words: &["orc", "run", "a.o", "b.o", "a.o"],
        log: Expected::LastLine(b"end define refused 0\n"),
        status: 116,
        ..SEVEN
    },
    Call {
        words: &["orc", "run", "k.o"],
        log: Expected::LastLine(b"end missing main\n"),
        status: 107,
        ..SEVEN
    },
    // a weak definition by itself, and one that a strong one replaces, before it or after it
    Call {
        words: &["orc", "run", "w.o"],
        log: Expected::LastLine(b"end exited 1\n"),
        status: 1,
        ..SEVEN
    },
    Call {
        words: &["orc", "run", "w.o", "s.o"],
        log: Expected::LastLine(b"end exited 2\n"),
        status: 2,
        ..SEVEN
    },
    Call {
        words: &["orc", "run", "s.o", "w.o"],
        log: Expected::LastLine(b"end exited 2\n"),
        status: 2,
        ..SEVEN
    },
    // a weak reference that nothing defines is 0; five instructions
    Call {
        words: &["orc", "run", "n.o", "--fuel", "5"],
        log: Expected::LastLine(b"end exited 9\n"),
        status: 9,
        ..SEVEN
    },
    Call {
        words: &["orc", "run", "n.o", "--fuel", "4"],
        log: Expected::LastLine(b"end out of fuel\n"),
        status: 111,
        ..SEVEN
    },
    // a common symbol holds zeros
    Call {
        words: &["orc", "run", "c.o"],
        log: Expected::LastLine(b"end exited 0\n"),
        status: 0,
        ..SEVEN
    },
];

#[test]
fn programs_of_several_objects(rt: HostRuntime) -> Result<(), Fail> {
    expect_each_surely(&rt, &ENDS)
}

/// The same with workers.
static WORKERS: [Call; 8] = [
    Call {
        words: &["orc", "run", "a.o", "b.o", "--workers", "1"],
        ..SEVEN
    },
    Call {
        words: &["orc", "run", "p.o", "k.o", "--workers", "1"],
        log: Expected::LastLine(b"end dep failed i0\n"),
        status: 109,
        ..SEVEN
    },
    Call {
        words: &["orc", "run", "a.o", "b.o", "--workers", "2"],
        ..SEVEN
    },
    Call {
        words: &["orc", "run", "p.o", "k.o", "--workers", "2"],
        log: Expected::LastLine(b"end dep failed i0\n"),
        status: 109,
        ..SEVEN
    },
    Call {
        words: &["orc", "run", "a.o", "b.o", "--workers", "4"],
        ..SEVEN
    },
    Call {
        words: &["orc", "run", "p.o", "k.o", "--workers", "4"],
        log: Expected::LastLine(b"end dep failed i0\n"),
        status: 109,
        ..SEVEN
    },
    Call {
        words: &["orc", "run", "a.o", "b.o", "--workers", "16"],
        ..SEVEN
    },
    Call {
        words: &["orc", "run", "p.o", "k.o", "--workers", "16"],
        log: Expected::LastLine(b"end dep failed i0\n"),
        status: 109,
        ..SEVEN
    },
];

#[test]
fn workers_change_no_end(rt: HostRuntime) -> Result<(), Fail> {
    expect_each_surely(&rt, &WORKERS)
}
