//! One list of calls.

ghost use Rattle.std.specs.Prelude.{◌≤◌};
ghost use Rattle.execution_session.specs.declared.session.TheConstants.{JOURNAL_LIMIT};

use crate::choosing::choose;
use crate::counts::{Counts, event_number};
use crate::random::Random;
use notifiers::FiredList;
use orc_ids::{DylibId, NameId, SeatNo};
use orc_io::Note;
use session_check::KnownUnit;
use session_player::{Call, SeatCall};
use session_shadow::{Judged, Made};
use std::alloc::{AllocError, Global};

/// A session of the laboratory, with a journal of so many places.
type Lab<const JMAX: usize> = Judged<Note, JMAX>;

/// Makes the call, and counts its answer.
fn make<const JMAX: usize>(
    alloc: Global,
    lab: &mut Lab<JMAX>,
    counts: &mut Counts,
    seat: SeatNo,
    call: Call<KnownUnit>,
) {
    let event = event_number(&call);
    let mut heard = FiredList::new();
    match lab.make(alloc, &mut heard, seat, call) {
        Made::Answered(answer) => counts.answered(event, &answer),
        Made::PassedOver => counts.passed_over(event),
        Made::Lost => {}
    }
}

/// Makes so many random calls, as long as each answer is a right one.
fn make_random<const JMAX: usize>(
    alloc: Global,
    lab: &mut Lab<JMAX>,
    random: &mut Random,
    counts: &mut Counts,
    count: u32,
) -> Result<(), AllocError> {
    for _ in 0..count {
        let Some(shadow) = lab.shadow() else {
            return Ok(());
        };
        let SeatCall { seat, call } = choose(alloc, random, shadow, lab.journal())?;
        make(alloc, lab, counts, seat, call);
    }
    Ok(())
}

/// Makes dylibs of other names than the random ones, each with a tracker.
fn begin<const JMAX: usize>(alloc: Global, lab: &mut Lab<JMAX>, counts: &mut Counts, dylibs: u32) {
    for d in 0..dylibs {
        let name = NameId(d.saturating_add(100));
        make(alloc, lab, counts, SeatNo(0), Call::Dylib(name));
        make(alloc, lab, counts, SeatNo(0), Call::Tracker(DylibId(d)));
    }
}

/// A list in a journal of so many places: dylibs with their trackers, and then random calls.
fn play_in<const JMAX: usize>(
    alloc: Global,
    random: &mut Random,
    counts: &mut Counts,
    dylibs: u32,
    count: u32,
) -> Result<(), AllocError>
    requires { JMAX ≤ JOURNAL_LIMIT }
{
    let mut lab = Lab::<JMAX>::open(alloc)?;
    begin(alloc, &mut lab, counts, dylibs);
    let made = make_random(alloc, &mut lab, random, counts, count);
    counts.played(lab.shadow().is_some());
    lab.end();
    made
}

/// One list, in a journal of few places or many.
pub fn play_one(alloc: Global, random: &mut Random, counts: &mut Counts) -> Result<(), AllocError> {
    let dylibs = random.below(4);
    let count = random.below(60) + 20;
    match random.below(16) {
        0 => play_in::<0>(alloc, random, counts, dylibs, 10),
        1 => play_in::<5>(alloc, random, counts, dylibs, 20),
        2..=3 => play_in::<12>(alloc, random, counts, dylibs, 40),
        4..=5 => play_in::<25>(alloc, random, counts, dylibs, count),
        6..=8 => play_in::<40>(alloc, random, counts, dylibs, count),
        9 => play_in::<150>(alloc, random, counts, 64, 20),
        _ => play_in::<120>(alloc, random, counts, dylibs, count + 60),
    }
}
