//! A copy of the memory.

ghost use Rattle.std.specs.Prelude.{◌≡◌, ℕ, IfOk};
ghost use Rattle.session_model.specs.Plain.{Plain};
ghost use Rattle.session_model.specs.declared.entry.Event.TheVariants as event;
ghost use Rattle.session_model.specs.declared.entry.Reply.TheVariants as reply;
ghost use Rattle.session_steps.specs.Handed.{IsMemory};
ghost use Rattle.session_steps.specs.Stands.{Stands};
ghost use Rattle.session_steps.specs.Steps.{IsQuietStep};

use crate::live::Live;
use code_memory::Image;
use orc_io::Notify;
use session_model::UnitKind;
use std::alloc::AllocError;

impl<U: UnitKind, N: Notify> Live<U, N> {
    /// A copy of the memory, which changes nothing.
    pub fn copy_memory(&mut self) -> Result<Image, AllocError>
        ghost m: { Plain }
        requires stands { Stands U.meaning m self.old.parts }
        ensures step { (s : ℕ) → IsQuietStep U.meaning m s event.Image reply.Image self.old.parts self.old.parts }
        ensures same { self.new ≡ self.old }
        ensures copy { IfOk result (IsMemory m) }
    {
        self.parts.space.image()
    }
}
