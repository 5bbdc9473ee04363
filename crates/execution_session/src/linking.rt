//! Units whose externals are looked up.

ghost use Rattle.std.specs.Prelude.{◌≡◌, [], None};
ghost use Rattle.session_model.specs.declared.entry.Event.TheVariants as event;
ghost use Rattle.session_steps.specs.Performs.{Performs};
ghost use Rattle.session_steps.specs.Fires.{FiresAsked};

use crate::entering::enter_stirring;
use crate::places::check_places;
use crate::session::{Session, Told};
use notifiers::Fires;
use orc_ids::{SeatNo, Stop, UnitId};
use orc_io::Notify;
use session_model::{Event, Reply, UnitKind};

impl<U: UnitKind, N: Notify, const JMAX: usize> Session<U, N, JMAX> {
    /// Links the unit, and tells whom that settles.
    fn link_telling(&mut self, s: SeatNo, u: UnitId, fires: &mut Fires<N>) -> Result<Reply, Stop>
        requires nobody { fires.old ≡ [] }
        ensures performs { Performs U.meaning JMAX self.old.journal self.new.journal s (event.Link u) result }
        ensures fires { FiresAsked U.meaning None result self.old self.new fires.new }
    {
        check_places::<U, N, JMAX>(&self.live, 1)?;
        let Ok(reply) = self.live.link_unit(s, u) else {
            return Err(Stop::NoMemory);
        };
        Ok(enter_stirring::<U, N, JMAX>(&mut self.live, s, Event::Link(u), reply, fires))
    }

    /// Looks the unit's externals up in its link order: the unit waits until each match is resolved (ORC:
    /// `JITLinkContext::lookup`).
    pub fn link(&mut self, s: SeatNo, u: UnitId) -> Told<N>
        ensures performs { Performs U.meaning JMAX self.old.journal self.new.journal s (event.Link u) result.answer }
        ensures fires { FiresAsked U.meaning None result.answer self.old self.new result.fires }
    {
        let mut fires = Fires::new();
        let answer = self.link_telling(s, u, &mut fires);
        Told { answer, fires }
    }
}
