mod one;
mod steps;

use generators::offers_as_the_session;
use one::One;
use orc_ids::{DylibId, GenId, NameId, Scope};
use steps::{Step, play};

const MAIN: DylibId = DylibId(0);

const LIB: DylibId = DylibId(1);

const F: NameId = NameId(7);

const G: NameId = NameId(8);

#[test]
fn a_generator_offers_its_name_in_its_dylib(rt: HostRuntime) {
    let steps = &[
        Step::Offered(MAIN, F, Scope::All, None),
        Step::Attach(MAIN, F, true, GenId(0)),
        Step::Attach(LIB, G, true, GenId(1)),
        Step::Len(2),
        Step::Offered(MAIN, F, Scope::All, Some(GenId(0))),
        Step::Offered(LIB, G, Scope::Exported, Some(GenId(1))),
        Step::Offered(MAIN, G, Scope::All, None),
        Step::Offered(LIB, F, Scope::Exported, None),
    ];
    play(&rt, rt.alloc(), steps);
}

#[test]
fn a_hidden_name_is_offered_to_its_own_dylib(rt: HostRuntime) {
    let steps = &[
        Step::Attach(MAIN, F, false, GenId(0)),
        Step::Offered(MAIN, F, Scope::All, Some(GenId(0))),
        Step::Offered(MAIN, F, Scope::Exported, None),
        Step::Attach(MAIN, F, true, GenId(1)),
        Step::Offered(MAIN, F, Scope::All, Some(GenId(0))),
        Step::Offered(MAIN, F, Scope::Exported, Some(GenId(1))),
    ];
    play(&rt, rt.alloc(), steps);
}

#[test]
fn the_next_is_offered_once_one_is_spent(rt: HostRuntime) {
    let steps = &[
        Step::Attach(MAIN, F, true, GenId(0)),
        Step::Attach(MAIN, F, true, GenId(1)),
        Step::Attach(MAIN, F, true, GenId(2)),
        Step::Spend(GenId(1)),
        Step::Offered(MAIN, F, Scope::All, Some(GenId(0))),
        Step::Spend(GenId(0)),
        Step::Offered(MAIN, F, Scope::Exported, Some(GenId(2))),
        Step::Spent(GenId(0), Some(true)),
        Step::Spent(GenId(2), Some(false)),
        Step::Spend(GenId(2)),
        Step::Offered(MAIN, F, Scope::All, None),
        Step::Spent(GenId(3), None),
    ];
    play(&rt, rt.alloc(), steps);
}

#[test]
fn one_attached_after_all_are_spent_is_offered(rt: HostRuntime) {
    let steps = &[
        Step::Attach(MAIN, F, true, GenId(0)),
        Step::Spend(GenId(0)),
        Step::Spend(GenId(9)),
        Step::Len(1),
        Step::Attach(MAIN, F, true, GenId(1)),
        Step::Offered(MAIN, F, Scope::All, Some(GenId(1))),
    ];
    play(&rt, rt.alloc(), steps);
    offers_as_the_session::<One>();
}

#[test]
fn memory_is_enough_for_the_room_of_any_number_of_names(rt: HostRuntime) {
    let steps = &[
        Step::Room(0),
        Step::Room(1),
        Step::Room(2),
        Step::Room(65_537),
        Step::Len(0),
    ];
    play(&rt, rt.alloc(), steps);
}
