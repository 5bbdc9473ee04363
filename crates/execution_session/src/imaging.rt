//! Copies of the memory.

ghost use Rattle.std.specs.Prelude.{◌≡◌, Err, None};
ghost use Rattle.session_model.specs.declared.entry.Event.TheVariants as event;
ghost use Rattle.session_steps.specs.Performs.{Performs};
ghost use Rattle.session_steps.specs.Handed.{IsCopied};

use crate::entering::enter_quietly;
use crate::places::check_places;
use crate::session::Session;
use code_memory::Image;
use orc_ids::{SeatNo, Stop};
use orc_io::Notify;
use session_model::{Event, Reply, UnitKind};

/// The answer of an image, and with the reply Image the copy.
#[derive(Drop)]
pub struct Imaged {
    pub answer: Result<Reply, Stop>,
    pub image: Option<Image>,
}

impl Imaged {
    /// No memory was copied.
    fn without(stop: Stop) -> Imaged
        ensures answer { result.answer ≡ Err stop }
        ensures image { result.image ≡ None }
    {
        Imaged {
            answer: Err(stop),
            image: None,
        }
    }
}

impl<U: UnitKind, N: Notify, const JMAX: usize> Session<U, N, JMAX> {
    /// A copy of the memory: the bytes of the units that are done, at their addresses.
    pub fn image(&mut self, s: SeatNo) -> Imaged
        ensures performs { Performs U.meaning JMAX self.old.journal self.new.journal s event.Image result.answer }
        ensures image { IsCopied U.meaning self.old.journal result.answer result.image }
        ensures armed { self.new.armed ≡ self.old.armed }
    {
        if let Err(stop) = check_places::<U, N, JMAX>(&self.live, 1) {
            return Imaged::without(stop);
        }
        let Ok(image) = self.live.copy_memory() else {
            return Imaged::without(Stop::NoMemory);
        };
        let reply = enter_quietly::<U, N, JMAX>(&mut self.live, s, Event::Image, Reply::Image);
        Imaged {
            answer: Ok(reply),
            image: Some(image),
        }
    }
}
