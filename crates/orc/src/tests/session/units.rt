//! Scripts with aliases, generators and absolute symbols.

use super::{expect_results, expect_text};
use std::test::Fail;

const ALIAS: &str = "dylib main
tracker main t
object main t k.o
alias main t m=main:k
client
lookup ready main:all m
run m 100
";

const ALIAS_TEXT: &str = "1 s0 dylib main = made d0
2 s0 tracker d0 = tracker t0
3 s0 define d0 t0 o0 = defined u0 i0 1
4 s0 define d0 t0 l0 = defined u1 i1 1
5 s1 ask d0:all ready m = pending q0
6 s1 take = start u1
7 s1 link u1 = pending q1
8 s1 take = start u0
9 s1 place u0 16 16 = placed 10000000
10 s1 resolve u0 = resolved
11 s1 link u0 = done q2
12 s1 take = finish u1 bound i0
13 s1 resolve u1 = resolved
14 s1 emit u1 i1:i0 = emitted
15 s1 take = finish u0 bound
16 s1 emit u0 i0: = emitted
17 s1 collect q0 = found 16 i1@10000000
18 s1 image = image
c1 l1 found m@10000000
c1 l2 exited 3 -
";

#[test]
fn an_alias_is_its_target(rt: HostRuntime) -> Result<(), Fail> {
    expect_text(&rt, ALIAS, ALIAS_TEXT)
}

const ALIAS_CYCLE: &str = "dylib main
tracker main t
alias main t a=main:b
alias main t b=main:a
client
lookup ready main:all a
";

#[test]
fn aliases_of_each_other_fail(rt: HostRuntime) -> Result<(), Fail> {
    expect_results(
        &rt,
        ALIAS_CYCLE,
        "
5 s1 ask d0:all ready a = pending q0
6 s1 take = start u0
7 s1 link u0 = pending q1
8 s1 take = start u1
9 s1 link u1 = aliascycle i0
10 s1 fail u1 aliascycle i0 = failed
11 s1 take = finish u0 lost i1
12 s1 fail u0 inerror i1 = failed
13 s1 collect q0 = failed 12 i0
",
        "\
c1 l1 failed i0
",
    )
}

/// The `f` of one dylib is that of the other, under two names; `main` calls it.
const ACROSS: &str = "dylib main
dylib lib
tracker main t
tracker lib u
object lib u lib.o
alias main t f=lib:f
alias main t five=main:f
object main t p.o
client
lookup ready main:all main
lookup ready main:all f five
lookup ready lib:all f
lookup ready lib:all five
run main 100
run five 100
";

#[test]
fn aliases_of_another_dylib(rt: HostRuntime) -> Result<(), Fail> {
    expect_results(
        &rt,
        ACROSS,
        "
6 s0 define d0 t0 l0 = defined u1 i1 1
7 s0 define d0 t0 l1 = defined u2 i2 1
",
        "\
c1 l1 found main@10000000
c1 l2 found f@10000020 five@10000020
c1 l3 found f@10000020
c1 l4 missing five
c1 l5 exited 5 -
c1 l6 exited 5 -
",
    )
}

const GENERATOR: &str = "dylib main
tracker main t
generator main t lib.o
client
lookup ready main:all f
run f 100
";

const GENERATOR_TEXT: &str = "1 s0 dylib main = made d0
2 s0 tracker d0 = tracker t0
3 s0 attach d0 t0 o0 = generator g0
4 s1 ask d0:all ready f = offer g0
5 s1 generate g0 = defined u0 i0 1
6 s1 ask d0:all ready f = pending q0
7 s1 take = start u0
8 s1 place u0 16 16 = placed 10000000
9 s1 resolve u0 = resolved
10 s1 link u0 = done q1
11 s1 take = finish u0 bound
12 s1 emit u0 i0: = emitted
13 s1 collect q0 = found 12 i0@10000000
14 s1 image = image
c1 l1 found f@10000000
c1 l2 exited 5 -
";

#[test]
fn a_generator_gives_a_name_that_is_looked_up(rt: HostRuntime) -> Result<(), Fail> {
    expect_text(&rt, GENERATOR, GENERATOR_TEXT)
}

/// `main` gets its `f` from a generator, while it is linked.
const OFFERED: &str = "dylib main
tracker main t
object main t p.o
generator main t lib.o
absolute main t low=40 high=ffffffffffffffff
client
lookup ready main:all main
lookup ready main:all f low
lookup resolved main:exported high
run main 100
run low 10
run high 10
";

#[test]
fn a_generator_and_absolute_symbols(rt: HostRuntime) -> Result<(), Fail> {
    expect_results(
        &rt,
        OFFERED,
        "
4 s0 attach d0 t0 o1 = generator g0
5 s0 define d0 t0 a0 = defined u1 i1 2
",
        "\
c1 l1 found main@10000000
c1 l2 found f@10000020 low@40
c1 l3 found high@ffffffffffffffff
c1 l4 exited 5 -
c1 l5 trap 40 fetch -
c1 l6 trap ffffffffffffffff misaligned ffffffffffffffff -
",
    )
}
