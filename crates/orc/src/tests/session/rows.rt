//! Scripts of objects.

use super::{CYCLE, CYCLE_TEXT, expect_results, expect_text};
use std::test::Fail;

#[test]
fn the_empty_script(rt: HostRuntime) -> Result<(), Fail> {
    expect_text(&rt, "", "")
}

#[test]
fn a_cycle_of_two_objects(rt: HostRuntime) -> Result<(), Fail> {
    expect_text(&rt, CYCLE, CYCLE_TEXT)
}

/// `main` needs `f`, `f` needs `h`, and `h` a name that is nowhere; `k` needs nothing.
pub const PARTIAL: &str = "dylib main
tracker main t
object main t p.o
object main t q.o
object main t r.o
object main t k.o
client
lookup ready main:all main
lookup ready main:all k
lookup ready main:all f
";

#[test]
fn a_failure_takes_those_that_need_it(rt: HostRuntime) -> Result<(), Fail> {
    expect_results(
        &rt,
        PARTIAL,
        "
21 s1 link u2 = missing nosuch
22 s1 fail u2 missing nosuch = failed
23 s1 take = finish u1 bound i2
24 s1 emit u1 i1:i2 = baddep i2
25 s1 fail u1 baddep i2 = failed
26 s1 collect q0 = failed 25 i0
",
        "\
c1 l1 failed i0
c1 l2 found k@10000020
c1 l3 inerror i1
",
    )
}

/// Of one object `m` needs `f`, and `f` a name that is nowhere behind `h`; `t` lies in a block of its own.
const HALF_LOST: &str = "dylib main
tracker main t
object main t two.o
object main t q.o
object main t r.o
client
lookup ready main:all m
lookup ready main:all t
";

#[test]
fn a_failure_leaves_the_other_block_of_a_unit(rt: HostRuntime) -> Result<(), Fail> {
    expect_results(
        &rt,
        HALF_LOST,
        "
16 s1 emit u0 i0:i2;i1: = emitted
",
        "\
c1 l1 failed i0
c1 l2 found t@10000008
",
    )
}

const DANGLING: &str = "dylib main
tracker main ta
tracker main tb
object main ta p.o
object main tb lib.o
client
lookup ready main:all main
remove tb
lookup ready main:all main
run main 100
";

#[test]
fn a_removal_leaves_a_dangling_symbol(rt: HostRuntime) -> Result<(), Fail> {
    expect_results(
        &rt,
        DANGLING,
        "",
        "\
c1 l1 found main@10000000
c1 l2 removed
c1 l3 found main@10000000
c1 l4 trap 10000020 fetch -
",
    )
}

const REPLACED: &str = "dylib main
tracker main t
object main t w.o
object main t s.o
client
lookup ready main:all main
run main 100
";

#[test]
fn a_weak_definition_is_replaced(rt: HostRuntime) -> Result<(), Fail> {
    expect_results(
        &rt,
        REPLACED,
        "
4 s0 define d0 t0 o1 = defined u1 i2 1
",
        "\
c1 l1 found main@10000000
c1 l2 exited 2 -
",
    )
}

const NOT_REPLACED: &str = "dylib main
tracker main t
object main t w.o
client
lookup ready main:all main
define main t s.o
run main 100
";

#[test]
fn a_weak_definition_in_use_is_not_replaced(rt: HostRuntime) -> Result<(), Fail> {
    expect_results(
        &rt,
        NOT_REPLACED,
        "",
        "\
c1 l1 found main@10000000
c1 l2 duplicate f i1
c1 l3 exited 1 -
",
    )
}

const HIDDEN: &str = "dylib main
tracker main t
object main t x.o
client
lookup ready main:exported h
lookup ready main:all h
";

#[test]
fn a_hidden_name_is_not_exported(rt: HostRuntime) -> Result<(), Fail> {
    expect_results(
        &rt,
        HIDDEN,
        "",
        "\
c1 l1 missing h
c1 l2 found h@10000000
",
    )
}

/// `main` of the one dylib has `f` from the other, by the order of its own.
const ORDERED: &str = "dylib main
dylib lib
order main lib:exported
tracker main t
tracker main v
tracker lib u
object main t p.o
object lib u lib.o
client
lookup ready main:all f nosuch?
lookup resolved main:all,lib:exported f nosuch?
lookup ready main:all main
move t v
remove t
move v u
remove v
lookup ready main:all main
run main 10
run f 10
";

#[test]
fn orders_and_trackers(rt: HostRuntime) -> Result<(), Fail> {
    expect_results(
        &rt,
        ORDERED,
        "
3 s0 order d0 d1:exported = set
",
        "\
c1 l1 missing f
c1 l2 found f@10000000 nosuch@none
c1 l3 found main@10000010
c1 l4 moved
c1 l5 gone t0
c1 l6 otherdylib
c1 l7 removed
c1 l8 missing main
c1 l9 trap 10000010 fetch -
c1 l10 exited 5 -
",
    )
}
