//! Clients and workers beside each other: results that no schedule changes.

use super::{CYCLE, SESSION};
use crate::tests::calls::Call;
use crate::tests::expected::Expected;
use crate::tests::playing::expect_each;
use std::test::Fail;

/// The session of the cycle beside workers.
const ONE_CLIENT: Call = Call {
    source: CYCLE,
    out: Expected::InOrder("c1 l1 found main@10000000\nc1 l2 exited 7 -\n"),
    ..SESSION
};

/// The same with so many workers.
static ONE_BESIDE: [Call; 3] = [
    Call {
        words: &["orc", "session", "--workers", "1"],
        ..ONE_CLIENT
    },
    Call {
        words: &["orc", "session", "--workers", "4"],
        ..ONE_CLIENT
    },
    Call {
        words: &["orc", "session", "--workers", "16"],
        ..ONE_CLIENT
    },
];

#[test]
fn one_client_beside_workers(rt: HostRuntime) -> Result<(), Fail> {
    expect_each(&rt, &ONE_BESIDE)
}

/// Whichever client asks first, the unit of `main` and `g` is the first that is placed.
const TWO_SCRIPT: &str = "dylib main
dylib other
tracker main t
tracker other u
object main t a.o
object main t b.o
absolute other u low=40
client
lookup ready main:all main
run main 1000
client
lookup ready main:all g
lookup ready other:all low nosuch?
run g 1000
lookup ready main:all nosuch
run main 1000
";

/// The results of both clients.
const TWO_RESULTS: &str = "c1 l1 found main@10000000
c1 l2 exited 7 -
c2 l1 found g@10000008
c2 l2 found low@40 nosuch@none
c2 l3 exited 7 -
c2 l4 missing nosuch
c2 l5 unfound
";

/// The session of the two clients.
const TWO_CLIENTS: Call = Call {
    source: TWO_SCRIPT,
    out: Expected::InOrder(TWO_RESULTS),
    ..SESSION
};

/// The same with so many workers.
static TWO_BESIDE: [Call; 2] = [
    Call {
        words: &["orc", "session", "--workers", "0"],
        ..TWO_CLIENTS
    },
    Call {
        words: &["orc", "session", "--workers", "4"],
        ..TWO_CLIENTS
    },
];

#[test]
fn two_clients_beside_workers(rt: HostRuntime) -> Result<(), Fail> {
    expect_each(&rt, &TWO_BESIDE)
}
