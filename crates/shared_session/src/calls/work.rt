//! Jobs.

ghost use Rattle.std.specs.Prelude.{◌≡◌};
ghost use Rattle.shared_session.specs.Does.{charge};

use crate::home::Home;
use execution_session::TakenUnit;
use orc_ids::{SeatNo, Stop, UnitId};
use orc_io::Notify;
use responsibility::Resp;
use session_model::{Reply, UnitKind};
use turn_lock::Call;

/// Takes the oldest job.
#[derive(Drop)]
pub struct Take;

/// The answer of a take; with a job its unit, and the responsibility for it, which must be spent.
pub struct Handed<U> {
    pub answer: Result<Reply, Stop>,
    pub unit: Option<TakenUnit<U>>,
    pub responsibility: Option<Resp>,
}

/// The responsibility for the unit of a job.
fn responsibility_for(answer: &Result<Reply, Stop>) -> Option<Resp>
    ensures { result ≡ charge answer.now }
{
    match answer {
        Ok(Reply::Start(u)) => Some(Resp::of(*u)),
        Ok(Reply::Finish(u, _)) => Some(Resp::of(*u)),
        _ => None,
    }
}

impl<U: UnitKind, N: Notify, const JMAX: usize> Call<Home<U, N, JMAX>> for Take {
    ghost use Rattle.shared_session.specs.Does.{HandsOut};
    ghost use Rattle.shared_session.specs.Single.{taken_once};

    type Answer = Handed<U>;

    ghost may = { λ c s h. Unit {0} };

    ghost does = { λ c s old new a. HandsOut U.meaning JMAX s old new a.answer a.unit a.responsibility };

    fn make(self, home: &mut Home<U, N, JMAX>, seat: u32) -> Handed<U> {
        let taken = home.session.take(SeatNo(seat));
        let responsibility = responsibility_for(&taken.answer);
        Handed {
            answer: taken.answer,
            unit: taken.unit,
            responsibility,
        }
    }

    ghost stays_allowed = { λ c s h more lawful others may. may };

    ghost one_at_most = { λ c s old new a did. taken_once U.meaning JMAX s old new a.answer did.takes };
}
