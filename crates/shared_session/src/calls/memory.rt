//! Copies of the memory.

use crate::home::Home;
use execution_session::Imaged;
use orc_ids::SeatNo;
use orc_io::Notify;
use session_model::UnitKind;
use turn_lock::Call;

/// Copies the memory.
#[derive(Drop)]
pub struct CopyMemory;

impl<U: UnitKind, N: Notify, const JMAX: usize> Call<Home<U, N, JMAX>> for CopyMemory {
    ghost use Rattle.session_model.specs.declared.entry.Event.TheVariants as event;
    ghost use Rattle.session_steps.specs.Performs.{Performs};
    ghost use Rattle.session_steps.specs.Handed.{IsCopied};
    ghost use Rattle.shared_session.specs.Does.{seat};
    ghost use Rattle.shared_session.specs.Single.{performed_once};

    type Answer = Imaged;

    ghost may = { λ c s h. Unit {0} };

    ghost does = { λ c s old new a. Performs U.meaning JMAX old new (seat s) event.Image a.answer × IsCopied U.meaning old a.answer a.image };

    fn make(self, home: &mut Home<U, N, JMAX>, seat: u32) -> Imaged {
        home.session.image(SeatNo(seat))
    }

    ghost stays_allowed = { λ c s h more lawful others may. may };

    ghost one_at_most = { λ c s old new a did. performed_once U.meaning JMAX s old new _ a.answer did.0 };
}
