//! Seat 0's calls: a dylib, a tracker of it, and the definitions of the units.
ghost use Rattle.std.specs.Prelude.{◌≡◌, ◌<◌, ℕ, List, [], ◌∷◌, take, All, None, map, IfOk, OnOk, IfErr};
ghost use Rattle.session_model.specs.Meaning.{Meaning};
ghost use Rattle.session_model.specs.declared.entry.Event.{Event};
ghost use Rattle.session_model.specs.declared.entry.Event.TheVariants as event;
ghost use Rattle.memory_laws.specs.Objects.{first_dylib};
ghost use Rattle.turn_lock.specs.Handles.{view, turn_id, IsReady};
ghost use Rattle.linked_program.specs.SetUps.{HasDefined, HasSetUp, HaveDefined, IsAt, IsStoppedIn, beginning, is_defined};

use link_worker::LinkedUnit;
use orc_ids::{DylibId, NameId, Stop, TrackId};
use orc_io::Note;
use session_model::Reply;
use shared_session::{Define, MakeDylib, MakeTracker, Pass, Shared};
use std::sync::Wait;

/// The one dylib, and its tracker.
const MAIN: DylibId = DylibId(0);

const TRACKER: TrackId = TrackId(0);

/// How a set-up ended.
#[derive(Drop)]
pub(crate) enum SetUp {
    Done,
    /// The definition of the unit of this number was refused.
    Refused(usize),
    Stopped(Stop),
}

/// A unit was defined.
fn is_defined(reply: &Reply) -> bool
    ensures { result ≡ is_defined reply.now }
{
    matches!(reply, Reply::Defined(_, _, _))
}

/// The dylib is made.
fn make_dylib<U: LinkedUnit, R: Wait, const JMAX: usize>(
    rt: &R,
    shared: &Shared<U, Note, JMAX>,
    pass: &mut Pass<U, Note, JMAX>,
    main: NameId,
) -> Result<Reply, Stop>
    requires ready { IsReady (turn_id shared.now) pass.old }
    requires at { IsAt U.meaning JMAX [] (view pass.old) }
    ensures ready { IsReady (turn_id shared.now) pass.new }
    ensures seats { (view pass.new).seats ≡ (view pass.old).seats }
    ensures made { OnOk result (IsAt U.meaning JMAX (event.Dylib main ∷ []) (view pass.new)) }
    ensures stopped { IfErr result (IsStoppedIn U.meaning JMAX [] (view pass.new)) }
{
    shared.perform(rt, pass, MakeDylib { name: main })
}

/// Its tracker is made.
fn make_tracker<U: LinkedUnit, R: Wait, const JMAX: usize>(
    rt: &R,
    shared: &Shared<U, Note, JMAX>,
    pass: &mut Pass<U, Note, JMAX>,
    main: NameId,
) -> Result<Reply, Stop>
    requires ready { IsReady (turn_id shared.now) pass.old }
    requires at { IsAt U.meaning JMAX (event.Dylib main ∷ []) (view pass.old) }
    ensures ready { IsReady (turn_id shared.now) pass.new }
    ensures seats { (view pass.new).seats ≡ (view pass.old).seats }
    ensures made { OnOk result (IsAt U.meaning JMAX (event.Dylib main ∷ event.Tracker first_dylib ∷ []) (view pass.new)) }
    ensures stopped { IfErr result (IsStoppedIn U.meaning JMAX (event.Dylib main ∷ []) (view pass.new)) }
{
    let _ = main;
    shared.perform(rt, pass, MakeTracker { dylib: MAIN })
}

/// Defines a unit, and tells whether it was taken.
fn define<U: LinkedUnit, R: Wait, const JMAX: usize>(
    rt: &R,
    shared: &Shared<U, Note, JMAX>,
    pass: &mut Pass<U, Note, JMAX>,
    unit: U,
) -> Result<bool, Stop>
    requires ready { IsReady (turn_id shared.now) pass.old }
    requires at { (evs : List (Event Meaning)) × IsAt U.meaning JMAX evs (view pass.old) }
    requires source { (U.meaning unit).source ≡ None }
    ensures ready { IsReady (turn_id shared.now) pass.new }
    ensures seats { (view pass.new).seats ≡ (view pass.old).seats }
    ensures made { IfOk result (λ taken. (evs : List (Event Meaning)) → IsAt U.meaning JMAX evs (view pass.old) →
        HasDefined U.meaning JMAX evs (U.meaning unit) (view pass.new) taken) }
    ensures stopped { IfErr result (λ st. (evs : List (Event Meaning)) → IsAt U.meaning JMAX evs (view pass.old) →
        IsStoppedIn U.meaning JMAX evs (view pass.new) st) }
{
    let define = Define {
        dylib: MAIN,
        tracker: TRACKER,
        unit,
    };
    let answer = shared.perform(rt, pass, define).answer;
    match answer {
        Ok(reply) => Ok(is_defined(&reply)),
        Err(stop) => Err(stop),
    }
}

/// Defines units, in order.
fn define_all<U: LinkedUnit, R: Wait, const JMAX: usize>(
    rt: &R,
    shared: &Shared<U, Note, JMAX>,
    pass: &mut Pass<U, Note, JMAX>,
    units: Vec<U>,
) -> SetUp
    requires ready { IsReady (turn_id shared.now) pass.old }
    requires at { (evs : List (Event Meaning)) × IsAt U.meaning JMAX evs (view pass.old) }
    requires sources { All (λ u. (U.meaning u).source ≡ None) units.items }
    ensures ready { IsReady (turn_id shared.now) pass.new }
    ensures seats { (view pass.new).seats ≡ (view pass.old).seats }
    ensures defined { (evs : List (Event Meaning)) → IsAt U.meaning JMAX evs (view pass.old) →
        HaveDefined U.meaning JMAX evs (map U.meaning units.items) (view pass.new) result }
{
    let mut at: usize = 0;
    for unit in units {
        match define(rt, shared, pass, unit) {
            Ok(true) => at += 1,
            Ok(false) => return SetUp::Refused(at),
            Err(stop) => return SetUp::Stopped(stop),
        }
    }
    SetUp::Done
}

/// The dylib is made, and its tracker.
fn begin<U: LinkedUnit, R: Wait, const JMAX: usize>(
    rt: &R,
    shared: &Shared<U, Note, JMAX>,
    pass: &mut Pass<U, Note, JMAX>,
    main: NameId,
) -> Result<Reply, Stop>
    requires ready { IsReady (turn_id shared.now) pass.old }
    requires at { IsAt U.meaning JMAX [] (view pass.old) }
    ensures ready { IsReady (turn_id shared.now) pass.new }
    ensures seats { (view pass.new).seats ≡ (view pass.old).seats }
    ensures made { OnOk result (IsAt U.meaning JMAX (beginning main) (view pass.new)) }
    ensures stopped { IfErr result (λ st. (n : ℕ) × (n < 2) ×
        IsStoppedIn U.meaning JMAX (take n (beginning main)) (view pass.new) st) }
{
    match make_dylib(rt, shared, pass, main) {
        Ok(_) => make_tracker(rt, shared, pass, main),
        Err(stop) => Err(stop),
    }
}

/// Seat 0 sets the session up: a dylib, a tracker of it, and the definitions of the units, in order, up to
/// the first that is refused.
pub(crate) fn set_up<U: LinkedUnit, R: Wait, const JMAX: usize>(
    rt: &R,
    shared: &Shared<U, Note, JMAX>,
    pass: &mut Pass<U, Note, JMAX>,
    main: NameId,
    units: Vec<U>,
) -> SetUp
    requires ready { IsReady (turn_id shared.now) pass.old }
    requires at { IsAt U.meaning JMAX [] (view pass.old) }
    requires sources { All (λ u. (U.meaning u).source ≡ None) units.items }
    ensures ready { IsReady (turn_id shared.now) pass.new }
    ensures seats { (view pass.new).seats ≡ (view pass.old).seats }
    ensures set_up { HasSetUp U.meaning JMAX main (map U.meaning units.items) (view pass.new) result }
{
    match begin(rt, shared, pass, main) {
        Ok(_) => define_all(rt, shared, pass, units),
        Err(stop) => SetUp::Stopped(stop),
    }
}
