//! Journals of few places.

use super::{CYCLE, CYCLE_TEXT, SESSION};
use crate::tests::calls::Call;
use crate::tests::expected::Expected;
use crate::tests::playing::expect_sized;
use std::test::Fail;

/// The session of the cycle ends with this text, this end line and this status.
fn of_the_cycle(text: &'static str, line: &'static str, status: u8) -> Call {
    Call {
        source: CYCLE,
        out: Expected::Text(text),
        log: Expected::Text(line),
        status,
        ..SESSION
    }
}

#[test]
fn a_journal_of_two_is_full_while_it_is_set_up(rt: HostRuntime) -> Result<(), Fail> {
    expect_sized::<_, 2>(
        &rt,
        &of_the_cycle(
            "1 s0 dylib main = made d0
2 s0 tracker d0 = tracker t0
c1 l1 skipped
c1 l2 skipped
",
            "end journal full 2\n",
            113,
        ),
    )
}

/// A take that hands a unit out keeps a second place.
#[test]
fn a_journal_of_six_is_full_at_the_take(rt: HostRuntime) -> Result<(), Fail> {
    expect_sized::<_, 6>(
        &rt,
        &of_the_cycle(
            "1 s0 dylib main = made d0
2 s0 tracker d0 = tracker t0
3 s0 define d0 t0 o0 = defined u0 i0 2
4 s0 define d0 t0 o1 = defined u1 i2 1
5 s1 ask d0:all ready main = pending q0
c1 l1 full
c1 l2 skipped
",
            "end journal full 5\n",
            113,
        ),
    )
}

#[test]
fn a_journal_of_eighteen_is_full_at_the_image(rt: HostRuntime) -> Result<(), Fail> {
    expect_sized::<_, 18>(
        &rt,
        &of_the_cycle(
            "1 s0 dylib main = made d0
2 s0 tracker d0 = tracker t0
3 s0 define d0 t0 o0 = defined u0 i0 2
4 s0 define d0 t0 o1 = defined u1 i2 1
5 s1 ask d0:all ready main = pending q0
6 s1 take = start u0
7 s1 place u0 48 16 = placed 10000000
8 s1 resolve u0 = resolved
9 s1 link u0 = pending q1
10 s1 take = start u1
11 s1 place u1 32 16 = placed 10000030
12 s1 resolve u1 = resolved
13 s1 link u1 = done q2
14 s1 take = finish u0 bound i2
15 s1 emit u0 i0,i1:i2 = emitted
16 s1 take = finish u1 bound i1
17 s1 emit u1 i2:i1 = emitted
18 s1 collect q0 = found 17 i0@10000000
c1 l1 found main@10000000
c1 l2 full
",
            "end journal full 18\n",
            113,
        ),
    )
}

#[test]
fn a_journal_of_nineteen_has_the_whole_session(rt: HostRuntime) -> Result<(), Fail> {
    expect_sized::<_, 19>(&rt, &of_the_cycle(CYCLE_TEXT, "end done\n", 0))
}

#[test]
fn a_place_more_changes_nothing(rt: HostRuntime) -> Result<(), Fail> {
    expect_sized::<_, 20>(&rt, &of_the_cycle(CYCLE_TEXT, "end done\n", 0))
}
