//! Scripts with notes.

use super::rows::PARTIAL;
use super::{CYCLE, CYCLE_TEXT, SESSION};
use crate::tests::calls::Call;
use crate::tests::expected::Expected;
use crate::tests::playing::{expect, expect_each};
use orc_ids::{End, InstId, Outcome, QueryId};
use std::test::Fail;

/// The script of the cycle, with a watch in place of its lookup.
const WATCHED: &str = "dylib main
tracker main t
object main t a.o
object main t b.o
client
watch ready main:all main
run main 1000
";

/// The end of the lookup of the cycle.
const CYCLE_FOUND: Option<Outcome> = Some(Outcome {
    query: QueryId(0),
    end: End::Found(17),
});

/// The text of the cycle, but for the name of one event.
static LIKE_A_LOOKUP: Call = Call {
    source: WATCHED,
    notes: &[CYCLE_FOUND, None, None],
    out: Expected::Like {
        text: CYCLE_TEXT,
        part: " ask ",
        in_its_place: " watch 0 ",
    },
    ..SESSION
};

#[test]
fn a_watch_is_a_lookup_with_its_note(rt: HostRuntime) -> Result<(), Fail> {
    expect(&rt, &LIKE_A_LOOKUP)
}

/// The results of the cycle.
const CYCLE_RESULTS: &str = "c1 l1 found main@10000000\nc1 l2 exited 7 -\n";

/// What the note hears, and the results beside it.
static HEARD: Call = Call {
    source: WATCHED,
    notes: &[CYCLE_FOUND, None, None],
    out: Expected::Results {
        entries: "",
        results: CYCLE_RESULTS,
    },
    ..SESSION
};

#[test]
fn the_note_of_a_watch_hears_its_end(rt: HostRuntime) -> Result<(), Fail> {
    expect(&rt, &HEARD)
}

/// The first watch has no query; so the second one has the first.
const MISSED: &str = "dylib main
tracker main t
object main t a.o
object main t b.o
client
watch ready main:all nosuch
watch ready main:all main
";

/// The end of its lookup, which has an entry more before it.
const LATER_FOUND: Option<Outcome> = Some(Outcome {
    query: QueryId(0),
    end: End::Found(18),
});

/// The note of the second watch hears the end of the first query.
static SECOND_HEARD: Call = Call {
    source: MISSED,
    notes: &[None, LATER_FOUND, None],
    out: Expected::Results {
        entries: "",
        results: "c1 l1 missing nosuch\nc1 l2 found main@10000000\n",
    },
    ..SESSION
};

#[test]
fn a_watch_without_a_query_tells_nobody(rt: HostRuntime) -> Result<(), Fail> {
    expect(&rt, &SECOND_HEARD)
}

/// The end of the first lookup of `PARTIAL`.
const LOST: Option<Outcome> = Some(Outcome {
    query: QueryId(0),
    end: End::Failed(25, InstId(0)),
});

/// The objects of `PARTIAL`, with a watch of what fails.
const LOST_WATCH: &str = "dylib main
tracker main t
object main t p.o
object main t q.o
object main t r.o
object main t k.o
client
watch ready main:all main
";

/// The note hears that it failed.
static LOSS_HEARD: Call = Call {
    source: LOST_WATCH,
    notes: &[LOST, None, None],
    out: Expected::Results {
        entries: "",
        results: "c1 l1 failed i0\n",
    },
    ..SESSION
};

#[test]
fn a_note_hears_of_a_failure(rt: HostRuntime) -> Result<(), Fail> {
    expect(&rt, &LOSS_HEARD)
}

/// Sessions whose scripts watch nothing, and a script that is refused, to which notes are handed.
static UNTOLD: [Call; 3] = [
    Call {
        source: CYCLE,
        notes: &[None, None, None],
        out: Expected::Results {
            entries: "",
            results: CYCLE_RESULTS,
        },
        ..SESSION
    },
    Call {
        source: PARTIAL,
        notes: &[None, None, None],
        out: Expected::Results {
            entries: "",
            results: "c1 l1 failed i0\nc1 l2 found k@10000020\nc1 l3 inerror i1\n",
        },
        ..SESSION
    },
    Call {
        source: "client\nlookup ready main:all main\n",
        notes: &[None, None, None],
        log: Expected::Bytes(b"end script refused 2 unknown\n"),
        status: 104,
        ..SESSION
    },
];

#[test]
fn other_notes_come_back_untold(rt: HostRuntime) -> Result<(), Fail> {
    expect_each(&rt, &UNTOLD)
}
