//! The form of each event.

use super::reading::{check_each, says};
use super::said::GroupRow;
use super::{F, FIRST_ALL, I0, I1, I2, MAIN, NOSUCH, STRONG_MAIN, Said, Told, VERSIONED};
use orc_ids::{DylibId, InstId, Level, OrderItem, Place, Scope, UnitName, Wanted};
use session_model::Why;
use std::alloc::Global;
use std::process::Abort;
use std::test::Fail;

const DYLIBS_AND_TRACKERS: [(Said, Told, &str); 4] = [
    (
        Said::Dylib(VERSIONED),
        Told::NameTaken(0),
        "1 s12 dylib f@V1 = taken d0",
    ),
    (
        Said::Tracker(0),
        Told::TooMany,
        "1 s12 tracker d0 = toomany",
    ),
    (Said::Move(7, 10), Told::Moved, "1 s12 move t7 t10 = moved"),
    (Said::Remove(7), Told::Removed, "1 s12 remove t7 = removed"),
];

#[test]
fn dylibs_and_trackers(rt: HostRuntime) -> Result<(), Fail> {
    check_each(&rt, rt.alloc(), &DYLIBS_AND_TRACKERS)
}

const TWO_ITEMS: [OrderItem; 2] = [
    OrderItem {
        dylib: DylibId(1),
        scope: Scope::Exported,
    },
    OrderItem {
        dylib: DylibId(20),
        scope: Scope::All,
    },
];

const ORDERS: [(Said, Told, &str); 2] = [
    (
        Said::Order(3, &TWO_ITEMS),
        Told::Set,
        "1 s12 order d3 d1:exported,d20:all = set",
    ),
    (Said::Order(3, &[]), Told::Set, "1 s12 order d3 = set"),
];

#[test]
fn orders(rt: HostRuntime) -> Result<(), Fail> {
    check_each(&rt, rt.alloc(), &ORDERS)
}

const UNITS_THAT_ARE_HANDED_IN: [(Said, Told, &str); 4] = [
    (
        Said::Attach(1, 2, UnitName::Object(30)),
        Told::TrackerGone(2),
        "1 s12 attach d1 t2 o30 = gone t2",
    ),
    (
        Said::Define(1, 2, UnitName::Absolute(0)),
        Told::NoDylib(1),
        "1 s12 define d1 t2 a0 = nodylib d1",
    ),
    (
        Said::Define(1, 2, UnitName::Alias(12)),
        Told::Defined(1, 1, 1),
        "1 s12 define d1 t2 l12 = defined u1 i1 1",
    ),
    (
        Said::Generate(5),
        Told::TooMany,
        "1 s12 generate g5 = toomany",
    ),
];

#[test]
fn units_that_are_handed_in(rt: HostRuntime) -> Result<(), Fail> {
    check_each(&rt, rt.alloc(), &UNITS_THAT_ARE_HANDED_IN)
}

/// What lookups search and want.
const ORDER: [OrderItem; 2] = [
    FIRST_ALL,
    OrderItem {
        dylib: DylibId(2),
        scope: Scope::Exported,
    },
];

const WANTED: [Wanted; 3] = [
    Wanted {
        name: F,
        weak: true,
    },
    Wanted {
        name: VERSIONED,
        weak: false,
    },
    Wanted {
        name: MAIN,
        weak: true,
    },
];

const LOOKUPS: [(Said, Told, &str); 4] = [
    (
        Said::Ask(&[FIRST_ALL], &[STRONG_MAIN], Level::Ready, Some(0)),
        Told::Pending(0),
        "1 s12 watch 0 d0:all ready main = pending q0",
    ),
    (
        Said::Ask(&ORDER, &WANTED, Level::Resolved, None),
        Told::Done(0),
        "1 s12 ask d0:all,d2:exported resolved f? f@V1 main? = done q0",
    ),
    (
        Said::Ask(&[], &[], Level::Ready, None),
        Told::Done(0),
        "1 s12 ask ready = done q0",
    ),
    (
        Said::Collect(0),
        Told::Unknown(0),
        "1 s12 collect q0 = unknown q0",
    ),
];

#[test]
fn lookups(rt: HostRuntime) -> Result<(), Fail> {
    check_each(&rt, rt.alloc(), &LOOKUPS)
}

const TWO_GROUPS: [GroupRow; 2] = [(&[I0, I1], &[I2, InstId(9)]), (&[InstId(3)], &[])];

const EMITTED: [(Said, Told, &str); 2] = [
    (
        Said::Emit(4, &TWO_GROUPS),
        Told::Emitted,
        "1 s12 emit u4 i0,i1:i2,i9;i3: = emitted",
    ),
    (Said::Emit(4, &[]), Told::Emitted, "1 s12 emit u4 = emitted"),
];

#[test]
fn groups_that_are_emitted(rt: HostRuntime) -> Result<(), Fail> {
    check_each(&rt, rt.alloc(), &EMITTED)
}

const CALLS_ON_A_UNIT: [(Said, Told, &str); 3] = [
    (
        Said::Place(4, 67_108_865, 4_096),
        Told::NoRoom(67_108_865),
        "1 s12 place u4 67108865 4096 = noroom 67108865",
    ),
    (
        Said::Resolve(4),
        Told::Defunct(4),
        "1 s12 resolve u4 = defunct u4",
    ),
    (Said::Link(4), Told::Missing(F), "1 s12 link u4 = missing f"),
];

#[test]
fn calls_on_a_unit(rt: HostRuntime) -> Result<(), Fail> {
    check_each(&rt, rt.alloc(), &CALLS_ON_A_UNIT)
}

/// The first of the causes that another line is written for.
fn other_cause<'a>(alloc: Global, rows: &[(Why, &'a str)]) -> Result<Option<&'a str>, Fail> {
    for (why, text) in rows {
        let line = ["1 s12 fail u4 ", *text, " = failed\n"];
        if !says(alloc, &Said::Fail(4, *why), &Told::Failed, &line)? {
            return Ok(Some(*text));
        }
    }
    Ok(None)
}

/// Each of the causes is written so.
fn check_causes(rt: &impl Abort, alloc: Global, rows: &[(Why, &str)]) -> Result<(), Fail> {
    assert_eq!(rt; other_cause(alloc, rows)?, None);
    Ok(())
}

const PLACE: Place = Place {
    block: 1,
    offset: 20,
};

const CAUSES_OF_A_FAILURE: [(Why, &str); 9] = [
    (
        Why::Refused(PLACE, 17, -268_435_456),
        "refused 1 20 17 -268435456",
    ),
    (
        Why::Refused(PLACE, 26, 2_147_481_600),
        "refused 1 20 26 2147481600",
    ),
    (Why::Missing(NOSUCH), "missing nosuch"),
    (Why::InError(InstId(3)), "inerror i3"),
    (Why::AliasCycle(InstId(0)), "aliascycle i0"),
    (Why::BadDep(InstId(2)), "baddep i2"),
    (Why::NoRoom(48), "noroom 48"),
    (Why::NoMemory, "nomemory"),
    (Why::Full, "full"),
];

#[test]
fn causes_of_a_failure(rt: HostRuntime) -> Result<(), Fail> {
    check_causes(&rt, rt.alloc(), &CAUSES_OF_A_FAILURE)
}
