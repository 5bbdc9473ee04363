//! Units that are handed back, since they weren't defined.

use super::calls::Call;
use super::play::Step::By;
use super::play::{Table, plays};
use super::units::FIRST;
use super::{ASKED, PREPARED, SETUP};

const IN_NO_DYLIB: Table = &[By(
    SETUP,
    Call::Define(5, 0, FIRST),
    "Ok(NoDylib(DylibId(5))), unit back",
)];

#[test]
fn a_definition_in_no_dylib(rt: HostRuntime) {
    plays::<64>(&rt, rt.alloc(), &[IN_NO_DYLIB], "entries: 1");
}

const TWICE: &str = "Ok(Duplicate(NameId(0), InstId(0))), unit back";

const GONE: &str = "Ok(TrackerGone(TrackId(1))), unit back";

const REFUSED: Table = &[
    By(SETUP, Call::Define(0, 0, FIRST), TWICE),
    By(SETUP, Call::Define(0, 1, FIRST), GONE),
];

#[test]
fn a_name_that_is_there_and_a_tracker_that_is_not(rt: HostRuntime) {
    plays::<64>(&rt, rt.alloc(), &[PREPARED, REFUSED], "entries: 5");
}

const WITHOUT_A_PLACE: Table = &[By(
    SETUP,
    Call::Define(0, 0, FIRST),
    "Err(JournalFull(4)), unit back",
)];

#[test]
fn a_definition_without_a_place(rt: HostRuntime) {
    plays::<4>(&rt, rt.alloc(), &[ASKED, WITHOUT_A_PLACE], "entries: 4");
}
