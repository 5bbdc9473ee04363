//! Peeks at names.

use super::{SESSION, expect_results};
use crate::tests::calls::Call;
use crate::tests::contents::{Content, Files};
use crate::tests::expected::Expected;
use crate::tests::playing::expect;
use orc_ids::{End, Outcome, QueryId};
use std::test::Fail;

/// A client peeks at the entry of `hello.o` after it has looked it up at each level.
const HELLO: &str = "dylib main
tracker main t
object main t hello.o
client
lookup resolved main:all main
peek main
lookup ready main:all main
peek main
";

/// The peeks have no entries.
const HELLO_TEXT: &str = "1 s0 dylib main = made d0
2 s0 tracker d0 = tracker t0
3 s0 define d0 t0 o0 = defined u0 i0 1
4 s1 ask d0:all resolved main = pending q0
5 s1 take = start u0
6 s1 place u0 48 16 = placed 10000000
7 s1 resolve u0 = resolved
8 s1 link u0 = done q1
9 s1 collect q0 = found 7 i0@10000000
10 s1 ask d0:all ready main = pending q2
11 s1 take = finish u0 bound
12 s1 emit u0 i0: = emitted
13 s1 collect q2 = found 12 i0@10000000
c1 l1 found main@10000000
c1 l2 notyet
c1 l3 found main@10000000
c1 l4 ready 10000000
";

#[test]
fn a_peek_makes_no_entry(rt: HostRuntime) -> Result<(), Fail> {
    expect(
        &rt,
        &Call {
            source: HELLO,
            files: Files::One("hello.o", Content::Changed(&[])),
            out: Expected::Text(HELLO_TEXT),
            ..SESSION
        },
    )
}

/// A client asks after names before it has looked them up, after each level, and after their removal.
const PEEKS: &str = "dylib main
tracker main t
object main t k.o
absolute main t zero=0
client
peek k
lookup resolved main:all k gone?
peek k
peek gone
lookup ready main:all k zero
peek k
peek zero
remove t
peek k
";

#[test]
fn a_symbol_that_was_ready_is_told_so_ever_after(rt: HostRuntime) -> Result<(), Fail> {
    expect_results(
        &rt,
        PEEKS,
        "",
        "\
c1 l1 unfound
c1 l2 found k@10000000 gone@none
c1 l3 notyet
c1 l4 unfound
c1 l5 found k@10000000 zero@0
c1 l6 ready 10000000
c1 l7 notyet
c1 l8 removed
c1 l9 ready 10000000
",
    )
}

/// `f` of one dylib is found ready, and then that of another one is found, which needn't be.
const LATEST: &str = "dylib main
dylib lib
tracker main t
tracker lib u
object main t lib.o
object lib u s.o
client
lookup ready main:all f
peek f
lookup resolved lib:all f
peek f
lookup resolved main:all f
peek f
";

#[test]
fn a_peek_is_at_what_was_found_last(rt: HostRuntime) -> Result<(), Fail> {
    expect_results(
        &rt,
        LATEST,
        "",
        "\
c1 l1 found f@10000000
c1 l2 ready 10000000
c1 l3 found f@10000010
c1 l4 notyet
c1 l5 found f@10000000
c1 l6 ready 10000000
",
    )
}

/// Of lookups that were not found, names are learnt by none.
const MISSED: &str = "dylib main
tracker main t
object main t k.o
object main t p.o
client
lookup ready main:all k nosuch
peek k
lookup ready main:all main
peek main
lookup ready main:all k
lookup ready main:all k nosuch
peek k
";

#[test]
fn nothing_is_learnt_of_a_lookup_that_was_not_found(rt: HostRuntime) -> Result<(), Fail> {
    expect_results(
        &rt,
        MISSED,
        "",
        "\
c1 l1 missing nosuch
c1 l2 unfound
c1 l3 failed i1
c1 l4 unfound
c1 l5 found k@10000000
c1 l6 missing nosuch
c1 l7 ready 10000000
",
    )
}

/// A watch in place of a lookup.
const WATCHED: &str = "dylib main
tracker main t
object main t k.o
client
watch resolved main:all k
peek k
watch ready main:all k
peek k
";

/// The ends of its queries.
const RESOLVED: Option<Outcome> = Some(Outcome {
    query: QueryId(0),
    end: End::Found(7),
});

const READY: Option<Outcome> = Some(Outcome {
    query: QueryId(2),
    end: End::Found(12),
});

#[test]
fn what_a_watch_found_is_peeked_at_too(rt: HostRuntime) -> Result<(), Fail> {
    expect(
        &rt,
        &Call {
            source: WATCHED,
            notes: &[RESOLVED, READY],
            out: Expected::Results {
                entries: "",
                results: "\
c1 l1 found k@10000000
c1 l2 notyet
c1 l3 found k@10000000
c1 l4 ready 10000000
",
            },
            ..SESSION
        },
    )
}
