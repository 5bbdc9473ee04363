//! A session with its shadow.

ghost use Rattle.std.specs.Prelude.{◌≡◌, ◌≤◌, [], IfOk, IfSome};
ghost use Rattle.execution_session.specs.declared.session.TheConstants.{JOURNAL_LIMIT};
ghost use Rattle.session_check.specs.Known.{known_meaning};
ghost use Rattle.session_player.specs.Fits.{Fits};
ghost use Rattle.session_shadow.specs.Follows.{Follows};

use crate::fitting::fit;
use crate::judging::{asked, is_entered, may_come};
use crate::shadow::Shadow;
use execution_session::Session;
use notifiers::FiredList;
use orc_ids::{SeatNo, Stop};
use orc_io::Notify;
use session_check::KnownUnit;
use session_model::{Entry, Reply};
use session_player::{Call, calls_grow, make};
use std::alloc::{AllocError, Global};
use std::marker::Model;

/// What became of a call.
#[derive(Drop)]
pub enum Made {
    /// Nobody may make it now: an alias of no dylib, a list past its limit, a cause that isn't there, or an
    /// emit of a unit with an edge out of range.
    PassedOver,
    /// It was answered so.
    Answered(Result<Reply, Stop>),
    /// The session is no longer followed, so nothing is known of what its calls ask for.
    Lost,
}

/// A session each answer of which is judged. It is followed by its shadow as long as each answer was a right
/// one, and there was memory for the shadow. It must be ended, for its notifiers.
pub struct Judged<N: Notify, const JMAX: usize> {
    session: Session<KnownUnit, N, JMAX>,
    shadow: Option<Shadow>,
}

impl<N: Notify, const JMAX: usize> Model for Judged<N, JMAX> {
    ghost use Rattle.std.specs.Prelude.{IfSome};
    ghost use Rattle.session_steps.specs.Log.{Log};
    ghost use Rattle.session_check.specs.Known.{Known};
    ghost use Rattle.session_shadow.specs.Follows.{Follows};

    ghost Value = { Log Known N };

    ghost view = { λ j. j.session };

    ghost invariant = { λ j. IfSome j.shadow (Follows j.session.journal) };
}

/// The call is made, if it fits, and the shadow follows it. There is no shadow any longer where the answer
/// isn't a right one, or memory ran out.
fn make_followed<N: Notify, const JMAX: usize>(
    alloc: Global,
    session: &mut Session<KnownUnit, N, JMAX>,
    shadow: Shadow,
    heard: &mut FiredList<N>,
    s: SeatNo,
    call: Call<KnownUnit>,
) -> (Made, Option<Shadow>)
    requires { Follows session.old.journal shadow }
    ensures { IfSome result.1 (Follows session.new.journal) }
{
    let fitted = fit(alloc, JMAX as u64, session.journal(), &shadow, s, call);
    match fitted {
        Ok(Some(call)) => make_fitted(alloc, session, shadow, heard, s, call),
        Ok(None) => (Made::PassedOver, Some(shadow)),
        Err(AllocError) => (Made::Lost, None),
    }
}

/// The same for a call that fits.
fn make_fitted<N: Notify, const JMAX: usize>(
    alloc: Global,
    session: &mut Session<KnownUnit, N, JMAX>,
    shadow: Shadow,
    heard: &mut FiredList<N>,
    s: SeatNo,
    call: Call<KnownUnit>,
) -> (Made, Option<Shadow>)
    requires follows { Follows session.old.journal shadow }
    requires fits { Fits known_meaning JMAX session.old.journal s call }
    ensures { IfSome result.1 (Follows session.new.journal) }
{
    let mut shadow = shadow;
    let asks = asked(&call);
    // for its law
    calls_grow::<KnownUnit>();
    let answer = make(session, heard, s, call);
    let fits = may_come(JMAX, &shadow, s, asks, &answer)
        && is_entered(session.journal(), shadow.seen, s, &answer);
    let right = shadow.follow(alloc, JMAX as u64, session.journal());
    let left = match right {
        Ok(true) if fits => Some(shadow),
        _ => None,
    };
    (Made::Answered(answer), left)
}

/// Ends the session, and gives up the notifiers of its open queries.
fn end_session<N: Notify, const JMAX: usize>(session: Session<KnownUnit, N, JMAX>) {
    let mut session = session;
    while let Some(armed) = session.give_back() {
        let _object = armed.back();
    }
    session.end();
}

impl<N: Notify, const JMAX: usize> Judged<N, JMAX> {
    /// A session without an entry, with all places of its journal.
    pub fn open(alloc: Global) -> Result<Judged<N, JMAX>, AllocError>
        requires { JMAX ≤ JOURNAL_LIMIT }
        ensures { IfOk result (λ j. j ≡ record { journal = []; armed = [] }) }
    {
        Ok(Judged {
            session: Session::open(alloc)?,
            shadow: Some(Shadow::new(alloc)),
        })
    }

    /// The entries so far.
    pub fn journal(&self) -> &[Entry<KnownUnit>]
        ensures { result.now ≡ self.now.journal }
    {
        self.session.journal()
    }

    /// The plain session beside it, as long as it is followed.
    pub fn shadow(&self) -> Option<&Shadow> {
        self.shadow.as_ref()
    }

    /// Makes the call, with what the session asks of its arguments (`fit`), and judges the answer. Whom it
    /// settles is told.
    pub fn make(
        &mut self,
        alloc: Global,
        heard: &mut FiredList<N>,
        s: SeatNo,
        call: Call<KnownUnit>,
    ) -> Made {
        let Some(shadow) = self.shadow.take() else {
            return Made::Lost;
        };
        let (made, left) = make_followed(alloc, &mut self.session, shadow, heard, s, call);
        self.shadow = left;
        made
    }

    /// Gives the session up; notifiers of open queries are given up too.
    pub fn end(self) {
        let Judged {
            session,
            shadow: _shadow,
        } = self;
        end_session(session);
    }
}
