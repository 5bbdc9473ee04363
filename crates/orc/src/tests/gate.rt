//! Two jobs of one session are done at the same time: a gate holds each until the other has come.

mod meeting;

use super::calls::Call;
use super::expected::Expected;
use super::playing::expect_at;
use super::session::SESSION;
use meeting::Meeting;
use std::process::Abort;
use std::random::RandomSource;
use std::sync::Wait;
use std::test::Fail;
use std::thread::Threads;

/// The jobs of both units meet in a session, which comes to what it is to.
fn expect_meeting<R: Threads + Wait + Sync + RandomSource + Abort + AllocGlobal>(
    rt: &R,
    call: &Call,
) -> Result<(), Fail> {
    let gate = Meeting::new();
    expect_at(rt, call, &gate)?;
    assert!(rt; gate.has_met());
    Ok(())
}

/// Two objects that don't need each other, each of which a client looks up.
const TWO_CLIENTS: &str = "dylib main
tracker main t
object main t k.o
object main t m.o
client
lookup ready main:all k
client
lookup ready main:all m
";

/// The clients do the jobs themselves.
static CLIENTS_ALONE: Call = Call {
    words: &["orc", "session", "--workers", "0"],
    source: TWO_CLIENTS,
    out: Expected::Holding(&["\nc1 l1 found k@", "\nc2 l1 found m@"]),
    ..SESSION
};

#[test]
fn two_clients_meet(rt: HostRuntime) -> Result<(), Fail> {
    expect_meeting(&rt, &CLIENTS_ALONE)
}

/// The same objects, which one client looks up.
const ONE_CLIENT: &str = "dylib main
tracker main t
object main t k.o
object main t m.o
client
lookup ready main:all k m
";

/// The client does one job, and a worker the other.
static WITH_A_WORKER: Call = Call {
    words: &["orc", "session", "--workers", "1"],
    source: ONE_CLIENT,
    out: Expected::Holding(&["\nc1 l1 found k@", " m@"]),
    ..SESSION
};

#[test]
fn a_client_meets_a_worker(rt: HostRuntime) -> Result<(), Fail> {
    expect_meeting(&rt, &WITH_A_WORKER)
}
