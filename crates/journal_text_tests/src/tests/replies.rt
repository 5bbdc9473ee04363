//! The form of each reply, after `image`, which has no words of its own.

use super::reading::says;
use super::{F, I0, Said, Told};
use orc_ids::InstId;
use std::alloc::Global;
use std::process::Abort;
use std::test::Fail;

/// The first of the replies that other words are written for.
fn other_reply<'a>(alloc: Global, rows: &[(Told, &'a str)]) -> Result<Option<&'a str>, Fail> {
    for (told, text) in rows {
        if !says(alloc, &Said::Image, told, &["1 s12 image = ", *text, "\n"])? {
            return Ok(Some(*text));
        }
    }
    Ok(None)
}

/// Each of the replies is written so.
fn check_replies(rt: &impl Abort, alloc: Global, rows: &[(Told, &str)]) -> Result<(), Fail> {
    assert_eq!(rt; other_reply(alloc, rows)?, None);
    Ok(())
}

const OF_DEFINITIONS: [(Told, &str); 8] = [
    (Told::NoDylib(1), "nodylib d1"),
    (Told::TrackerGone(2), "gone t2"),
    (Told::OtherDylib, "otherdylib"),
    (Told::Generator(3), "generator g3"),
    (Told::NoGen(3), "nogen g3"),
    (Told::Spent(3), "spent g3"),
    (Told::Duplicate(F, 262_143), "duplicate f i262143"),
    (Told::Defined(3, 12, 40), "defined u3 i12 40"),
];

#[test]
fn of_definitions(rt: HostRuntime) -> Result<(), Fail> {
    check_replies(&rt, rt.alloc(), &OF_DEFINITIONS)
}

const MATCHES: [Option<(InstId, u64)>; 3] = [
    Some((I0, 0x1000_0020)),
    None,
    Some((InstId(11), 0xabc_def0)),
];

const OF_LOOKUPS: [(Told, &str); 9] = [
    (Told::Offer(0), "offer g0"),
    (Told::InError(0), "inerror i0"),
    (Told::AliasCycle(7), "aliascycle i7"),
    (Told::Unknown(9), "unknown q9"),
    (Told::Open, "open"),
    (Told::Lost(25, 0), "failed 25 i0"),
    (
        Told::Found(17, &MATCHES),
        "found 17 i0@10000020,none,i11@abcdef0",
    ),
    (Told::Found(1, &[Some((I0, 0))]), "found 1 i0@0"),
    (Told::Found(4, &[]), "found 4"),
];

#[test]
fn of_lookups(rt: HostRuntime) -> Result<(), Fail> {
    let matches = [
        Some((I0, 0x1000_0020)),
        None,
        Some((InstId(11), 0xabc_def0)),
    ];
    check_replies(&rt, rt.alloc(), &OF_LOOKUPS)
}

const BOUND: [Option<(InstId, u64)>; 3] = [None, Some((InstId(5), 0x1000_0020)), None];

const OF_JOBS: [(Told, &str); 3] = [
    (Told::Idle(0), "idle 0"),
    (Told::FinishBound(2, &BOUND), "finish u2 bound none,i5,none"),
    (Told::FinishLost(2, 5), "finish u2 lost i5"),
];

#[test]
fn of_jobs(rt: HostRuntime) -> Result<(), Fail> {
    check_replies(&rt, rt.alloc(), &OF_JOBS)
}

const OF_CALLS_ON_A_UNIT: [(Told, &str); 3] = [
    (Told::WrongPhase(2), "wrongphase u2"),
    (Told::BadDep(5), "baddep i5"),
    (Told::Placed(0x13ff_ffc0), "placed 13ffffc0"),
];

#[test]
fn of_calls_on_a_unit(rt: HostRuntime) -> Result<(), Fail> {
    check_replies(&rt, rt.alloc(), &OF_CALLS_ON_A_UNIT)
}
