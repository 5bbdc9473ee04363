mod steps;

use orc_ids::{DylibId, QueryId, SeatNo, UnitId};
use session_model::{Job, UnitPhase};
use steps::{Change, State, Step, play};

const A: UnitId = UnitId(0);

const B: UnitId = UnitId(1);

/// A unit of two names, both its own.
const ADD_A: Step = Step::Add(10, DylibId(3), &[true, true], A);

/// A second unit, which offers nothing.
const ADD_B: Step = Step::Add(20, DylibId(3), &[], B);

#[test]
fn units_are_numbered_as_they_come(rt: HostRuntime) {
    let steps = &[
        Step::Len(0),
        Step::Add(10, DylibId(0), &[], A),
        Step::Add(20, DylibId(0), &[], B),
        Step::Len(2),
        Step::Is(B, State::Phase(UnitPhase::Unclaimed)),
        Step::NoUnit(UnitId(2)),
    ];
    play(&rt, rt.alloc(), steps);
}

#[test]
fn jobs_are_handed_out_first_in_first_out(rt: HostRuntime) {
    let steps = &[
        ADD_A,
        ADD_B,
        Step::First(None),
        Step::Change(B, Change::List),
        Step::Change(A, Change::List),
        Step::Is(A, State::Phase(UnitPhase::Listed)),
        Step::First(Some(Job::Start(B))),
        Step::Change(B, Change::Start(SeatNo(5))),
        Step::Change(B, Change::Link),
        Step::Is(B, State::Phase(UnitPhase::Linked)),
        Step::First(Some(Job::Start(A))),
        Step::Change(A, Change::Start(SeatNo(6))),
        Step::First(Some(Job::Finish(B))),
        Step::Change(B, Change::Finish(SeatNo(6))),
        Step::Is(B, State::Phase(UnitPhase::Finishing)),
        Step::First(None),
    ];
    play(&rt, rt.alloc(), steps);
}

#[test]
fn jobs_of_units_that_are_gone_are_dropped(rt: HostRuntime) {
    let steps = &[
        ADD_A,
        ADD_B,
        Step::Change(A, Change::List),
        Step::Change(B, Change::List),
        Step::Change(A, Change::DropJobs),
        Step::First(Some(Job::Start(B))),
        Step::Change(A, Change::Remove),
        Step::Is(A, State::Phase(UnitPhase::Defunct)),
    ];
    play(&rt, rt.alloc(), steps);
}

#[test]
fn a_unit_is_placed_and_linked(rt: HostRuntime) {
    let steps = &[
        ADD_A,
        Step::Change(A, Change::Place(64)),
        Step::Is(A, State::Phase(UnitPhase::Placed)),
        Step::Is(A, State::Base(Some(64))),
        Step::Change(A, Change::Resolve),
        Step::Is(A, State::Phase(UnitPhase::Linking)),
        Step::Change(A, Change::Wait(QueryId(7))),
        Step::Is(A, State::Phase(UnitPhase::Waiting)),
        Step::Is(A, State::Query(Some(7))),
    ];
    play(&rt, rt.alloc(), steps);
}

#[test]
fn units_that_are_held_are_counted(rt: HostRuntime) {
    let steps = &[
        ADD_A,
        ADD_B,
        Step::Change(A, Change::Start(SeatNo(5))),
        Step::Change(A, Change::Start(SeatNo(6))),
        Step::Change(B, Change::Start(SeatNo(6))),
        Step::Held(2),
        Step::Change(A, Change::LetGo(SeatNo(5))),
        Step::Is(A, State::Seat(Some(6))),
        Step::Change(A, Change::LetGo(SeatNo(6))),
        Step::Is(A, State::Seat(None)),
        Step::Change(B, Change::Complete),
        Step::Is(B, State::Phase(UnitPhase::Done)),
        Step::Held(0),
    ];
    play(&rt, rt.alloc(), steps);
}

#[test]
fn an_alias_is_bound_and_fails(rt: HostRuntime) {
    let steps = &[
        ADD_A,
        Step::Change(A, Change::Start(SeatNo(5))),
        Step::Change(A, Change::Bind(96)),
        Step::Is(A, State::Base(Some(96))),
        Step::Is(A, State::Phase(UnitPhase::Started)),
        Step::Change(A, Change::Fail),
        Step::Is(A, State::Base(None)),
        Step::Held(0),
    ];
    play(&rt, rt.alloc(), steps);
}

#[test]
fn a_name_is_lost(rt: HostRuntime) {
    let steps = &[
        ADD_A,
        Step::Change(A, Change::LoseName(1)),
        Step::Change(A, Change::LoseName(2)),
        Step::Is(A, State::Live(&[true, false])),
    ];
    play(&rt, rt.alloc(), steps);
}
