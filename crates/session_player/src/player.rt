//! One call, and a list of them.

ghost use Rattle.std.specs.Prelude.{◌≡◌, OnOk, IfErr};
ghost use Rattle.session_model.specs.State.{plain_history};
ghost use Rattle.session_model.specs.History.{IsLegal, HasPlaces};
ghost use Rattle.session_player.specs.Fits.{Fits, EachFits};
ghost use Rattle.session_player.specs.Plays.{Does, Plays, IsStoppedAt};

use crate::call::{Call, SeatCall};
use execution_session::{Asked, Session, Told};
use notifiers::{Armed, FiredList};
use orc_ids::{SeatNo, Stop};
use orc_io::Notify;
use session_model::{Reply, UnitKind};

/// Where a list of calls was stopped, and why: the number of the call, from 0.
#[derive(Clone, Copy)]
pub struct Stopped {
    pub at: usize,
    pub why: Stop,
}

/// What was answered; whom that settles is told.
fn tell<N: Notify>(told: Told<N>, heard: &mut FiredList<N>) -> Result<Reply, Stop>
    ensures { result ≡ told.answer }
{
    let Told { answer, fires } = told;
    fires.fire_all(heard);
    answer
}

/// Gives up a notifier that comes back.
fn let_go<N: Notify>(back: Option<Armed<N>>) {
    match back {
        Some(armed) => {
            let _object = armed.back();
        }
        None => {}
    }
}

/// The same of a lookup.
fn tell_asked<N: Notify>(asked: Asked<N>, heard: &mut FiredList<N>) -> Result<Reply, Stop>
    ensures { result ≡ asked.answer }
{
    let Asked {
        answer,
        back,
        fires,
    } = asked;
    fires.fire_all(heard);
    let_go(back);
    answer
}

/// Makes one call. Whom it settles is told, and added to those who were; what it hands out or hands back
/// is given up.
pub fn make<U: UnitKind, N: Notify, const JMAX: usize>(
    session: &mut Session<U, N, JMAX>,
    heard: &mut FiredList<N>,
    s: SeatNo,
    call: Call<U>,
) -> Result<Reply, Stop>
    requires fits { Fits U.meaning JMAX session.old.journal s call }
    ensures does { Does U.meaning JMAX session.old.journal session.new.journal s call result }
{
    match call {
        Call::Dylib(name) => session.dylib(s, name),
        Call::SetOrder(d, order) => session.set_order(s, d, order.as_slice()),
        Call::Attach(d, t, unit) => session.attach(s, d, t, unit).answer,
        Call::Define(d, t, unit) => session.define(s, d, t, unit).answer,
        Call::Generate(g) => session.generate(s, g),
        Call::Ask(order, wanted, level) => tell_asked(
            session.ask(s, order.as_slice(), wanted.as_slice(), level, None),
            heard,
        ),
        Call::Collect(q) => session.collect(s, q),
        Call::Take => session.take(s).answer,
        Call::Place(u, shape) => session.place(s, u, shape),
        Call::Resolve(u) => tell(session.resolve(s, u), heard),
        Call::Emit(u, groups, bytes) => tell(session.emit(s, u, groups, bytes), heard),
        Call::Fail(u, why) => tell(session.fail(s, u, why), heard),
        Call::Tracker(d) => session.tracker(s, d),
        Call::MoveTracker(t, to) => session.move_tracker(s, t, to),
        Call::Remove(t) => tell(session.remove(s, t), heard),
        Call::Image => session.image(s).answer,
        Call::Link(u) => tell(session.link(s, u), heard),
    }
}

/// Makes the calls, one after the other, up to the first that is stopped.
pub fn play<U: UnitKind, N: Notify, const JMAX: usize>(
    session: &mut Session<U, N, JMAX>,
    heard: &mut FiredList<N>,
    calls: Vec<SeatCall<U>>,
) -> Result<(), Stopped>
    requires fits { EachFits U.meaning JMAX session.old.journal calls.items }
    ensures plays { OnOk result (Plays U.meaning JMAX calls.items session.old.journal session.new.journal) }
    ensures stopped { IfErr result (λ s. IsStoppedAt U.meaning JMAX calls.items s.at s.why session.old.journal session.new.journal) }
    ensures legal { IsLegal JMAX (plain_history U.meaning session.new.journal) }
    ensures places { HasPlaces JMAX (plain_history U.meaning session.new.journal) }
{
    // for its law
    session.journal();
    let mut at: usize = 0;
    for call in calls {
        match make(session, heard, call.seat, call.call) {
            Ok(_) => at += 1,
            Err(why) => {
                // for its law
                session.journal();
                return Err(Stopped { at, why });
            }
        }
    }
    // for its law
    session.journal();
    Ok(())
}
