ghost use Rattle.std.specs.Prelude.{◌≡◌, None, Some, IfOk};

use crate::chain::Link;
use crate::notice::{Heard, Unheard};
use orc_ids::Outcome;
use orc_io::Notify;
use std::alloc::{AllocError, Global};
use std::marker::Model;

/// A notifier that has heard nothing, with the node that it will stand in; it must be spent.
pub struct Armed<N: Notify> {
    pub(crate) unheard: Unheard<N>,
    pub(crate) room: Box<Link<N>>,
}

impl<N: Notify> Model for Armed<N> {
    ghost use Rattle.std.specs.Prelude.{◌≡◌, None};
    ghost use Rattle.notifiers.specs.declared.notice.Unheard.{Unheard};

    ghost Value = { Unheard N };

    ghost view = { λ a. a.unheard };

    ghost invariant = { λ a. (N.heard a.unheard.what ≡ None) × (N.number a.unheard.what ≡ a.unheard.note) };
}

impl<N: Notify> Armed<N> {
    /// Arms an object that has heard nothing, with the note of its number; a refusal gives it up.
    pub fn new(alloc: Global, note: u32, what: N) -> Result<Armed<N>, AllocError>
        requires unheard { N.heard what ≡ None }
        requires number { N.number what ≡ note }
        ensures { IfOk result (λ armed. armed ≡ record { note = note; what = what }) }
    {
        let room = Box::new(alloc, Link::End)?;
        Ok(Armed {
            unheard: Unheard { note, what },
            room,
        })
    }

    /// Its note.
    pub fn note(&self) -> u32
        ensures { result ≡ self.now.note }
    {
        self.unheard.note
    }

    /// Tells the object how its lookup ended.
    pub fn fire(self, outcome: Outcome) -> Fired<N>
        ensures note { result.note ≡ self.note }
        ensures outcome { result.outcome ≡ outcome }
    {
        let Armed {
            unheard,
            room: _node,
        } = self;
        let mut what = unheard.what;
        what.told(outcome);
        Fired {
            heard: Heard {
                note: unheard.note,
                what,
                outcome,
            },
        }
    }

    /// The object, which has heard nothing.
    pub fn back(self) -> N
        ensures object { result ≡ self.what }
        ensures unheard { N.heard result ≡ None }
        ensures number { N.number result ≡ self.note }
    {
        let Armed {
            unheard,
            room: _node,
        } = self;
        unheard.what
    }
}

/// A notifier that has heard one outcome, with its note.
#[derive(Drop)]
pub struct Fired<N: Notify> {
    pub(crate) heard: Heard<N>,
}

impl<N: Notify> Model for Fired<N> {
    ghost use Rattle.std.specs.Prelude.{◌≡◌, Some};
    ghost use Rattle.notifiers.specs.declared.notice.Heard.{Heard};

    ghost Value = { Heard N };

    ghost view = { λ f. f.heard };

    ghost invariant = { λ f. (N.heard f.heard.what ≡ Some f.heard.outcome) × (N.number f.heard.what ≡ f.heard.note) };
}

impl<N: Notify> Fired<N> {
    /// The object, which has heard the outcome.
    pub fn object(self) -> N
        ensures object { result ≡ self.what }
        ensures heard { N.heard result ≡ Some self.outcome }
        ensures number { N.number result ≡ self.note }
    {
        let Fired { heard } = self;
        heard.what
    }
}
