//! Passes of one session, each test a table of what they do in turn and what is answered.

mod calls;
mod ends;
mod items;
mod rows;
mod steps;
mod units;

use orc_ids::Level::Ready;
use orc_ids::{DylibId, NameId, OrderItem, Scope, Wanted};
use rows::{Row, played_by_three};
use steps::Step;
use units::Named;

/// The first dylib, with all of its names.
const ALL: OrderItem = OrderItem {
    dylib: DylibId(0),
    scope: Scope::All,
};

/// The name that the one generator offers.
const OFFERED: Wanted = Wanted {
    name: NameId(0),
    weak: false,
};

#[test]
fn one_pass_sees_what_another_made(rt: HostRuntime) {
    let rows = [
        Row::First(Step::Dylib("Ok(Made(DylibId(0)))")),
        Row::Second(Step::Front(1)),
        Row::Second(Step::Dylib("Ok(NameTaken(DylibId(0)))")),
        Row::Meet,
        Row::First(Step::Front(2)),
    ];
    let ended = played_by_three::<Named, 64>(&rt, rt.alloc(), &[], &rows);
    assert_eq!(rt; ended, Ok(2));
}

#[test]
fn two_passes_are_offered_one_generator(rt: HostRuntime) {
    let lost = "Ok(Lost(11, InstId(0)))";
    let rows = [
        Row::SetUp(Step::Dylib("Ok(Made(DylibId(0)))")),
        Row::SetUp(Step::Tracker("Ok(Tracker(TrackId(0)))")),
        Row::SetUp(Step::Attach("Ok(Generator(GenId(0)))")),
        Row::First(Step::Ask(&[ALL], &[OFFERED], Ready, "Ok(Offer(GenId(0)))")),
        Row::Second(Step::Ask(&[ALL], &[OFFERED], Ready, "Ok(Offer(GenId(0)))")),
        Row::First(Step::Generate("Ok(Defined(UnitId(0), InstId(0), 1))")),
        Row::Second(Step::Generate("Ok(Spent(GenId(0)))")),
        Row::First(Step::Watch(5, &[ALL], &[OFFERED], Ready, "Ok(Pending(QueryId(0)))")),
        Row::Second(Step::Ask(&[ALL], &[OFFERED], Ready, "Ok(Pending(QueryId(1)))")),
        Row::Second(Step::Take("Ok(Start(UnitId(0)))")),
        Row::Second(Step::GiveUp("Ok(Failed)")),
        Row::Hear(5, 0, 11),
        Row::HearNoMore,
        Row::First(Step::Collect(0, lost)),
        Row::Second(Step::Collect(1, lost)),
    ];
    let ended = played_by_three::<Named, 64>(&rt, rt.alloc(), &[Named::strong(0)], &rows);
    assert_eq!(rt; ended, Ok(13));
}

#[test]
fn a_call_that_finds_the_turn_taken_is_handed_back(rt: HostRuntime) {
    let rows = [
        Row::Busy,
        Row::Second(Step::TryDylib("Ok(Made(DylibId(0)))")),
    ];
    let ended = played_by_three::<Named, 64>(&rt, rt.alloc(), &[Named::strong(1)], &rows);
    assert_eq!(rt; ended, Ok(1));
}
