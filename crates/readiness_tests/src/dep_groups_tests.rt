mod steps;

use std::test::Fail;
use steps::{Step, play};

#[test]
fn nothing_is_ready_at_first(rt: HostRuntime) -> Result<(), Fail> {
    let steps = [Step::Unready(0), Step::Told(&[])];
    play(&rt, rt.alloc(), &steps)
}

#[test]
fn a_circle_waits_for_a_third(rt: HostRuntime) -> Result<(), Fail> {
    let steps = [
        Step::Emit(0, &[1, 2]),
        Step::Emit(1, &[0]),
        Step::Unready(0),
        Step::Unready(1),
        Step::Pending(0, 1),
        Step::Pending(1, 1),
        Step::Told(&[]),
        Step::Emit(2, &[]),
        Step::Ready(0),
        Step::Ready(1),
        Step::Ready(2),
        Step::Told(&[0, 1, 2]),
    ];
    play(&rt, rt.alloc(), &steps)
}

#[test]
fn what_two_depend_on_is_counted_once(rt: HostRuntime) -> Result<(), Fail> {
    let steps = [
        Step::Emit(0, &[1, 2]),
        Step::Emit(1, &[3]),
        Step::Emit(2, &[4, 3, 5]),
        Step::Emit(5, &[]),
        Step::Pending(0, 2),
        Step::Pending(1, 1),
        Step::Pending(5, 0),
    ];
    play(&rt, rt.alloc(), &steps)
}

#[test]
fn a_chain_is_ready_from_its_end(rt: HostRuntime) -> Result<(), Fail> {
    let steps = [
        Step::Emit(0, &[]),
        Step::Told(&[0]),
        Step::Emit(5, &[4]),
        Step::Told(&[]),
        Step::Emit(4, &[0]),
        Step::Told(&[4, 5]),
    ];
    play(&rt, rt.alloc(), &steps)
}

#[test]
fn a_failure_hits_what_reaches_it(rt: HostRuntime) -> Result<(), Fail> {
    let steps = [
        Step::Room(4),
        Step::Emit(0, &[1]),
        Step::Emit(2, &[0, 3]),
        Step::Fail(1),
        Step::Hit(&[0, 1, 2]),
        Step::Emit(3, &[]),
        Step::Told(&[3]),
        Step::Ready(3),
    ];
    play(&rt, rt.alloc(), &steps)
}

#[test]
fn a_failure_leaves_what_is_ready(rt: HostRuntime) -> Result<(), Fail> {
    let steps = [
        Step::Room(3),
        Step::Emit(0, &[]),
        Step::Emit(1, &[0, 2]),
        Step::Fail(2),
        Step::Hit(&[1, 2]),
        Step::Ready(0),
    ];
    play(&rt, rt.alloc(), &steps)
}

#[test]
fn a_circle_fails_with_its_third(rt: HostRuntime) -> Result<(), Fail> {
    let steps = [
        Step::Room(3),
        Step::Emit(0, &[1, 2]),
        Step::Emit(1, &[0]),
        Step::Fail(2),
        Step::Hit(&[0, 1, 2]),
        Step::Unready(0),
        Step::Unready(1),
        Step::Emit(2, &[]),
        Step::Told(&[2]),
    ];
    play(&rt, rt.alloc(), &steps)
}

#[test]
fn memory_is_enough_for_any_number_of_groups(rt: HostRuntime) -> Result<(), Fail> {
    let steps = [
        Step::Room(0),
        Step::EmitNone,
        Step::Told(&[]),
        Step::Room(2),
        Step::EmitTwo(0, 1, &[0, 2]),
        Step::Told(&[0]),
        Step::Unready(1),
    ];
    play(&rt, rt.alloc(), &steps)
}

#[test]
fn memory_is_enough_for_a_group_of_any_number_of_members(rt: HostRuntime) -> Result<(), Fail> {
    let steps = [Step::EmitGroup(0, 1), Step::Told(&[0, 1])];
    play(&rt, rt.alloc(), &steps)
}
