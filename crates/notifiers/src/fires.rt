ghost use Rattle.std.specs.Prelude.{◌≡◌, [], ◌∷◌, ◌++◌, Some, IfSome, IfNone};
ghost use Rattle.notifiers.specs.Notices.{AreNumbered, AreUnheard, Told, IsTold};

use crate::armed::{Armed, Fired};
use crate::chain::Queue;
use crate::notice::{Heard, Notice};
use orc_ids::Outcome;
use orc_io::Notify;
use std::marker::Model;

/// Notifiers that are to be told, each with its outcome; they must be spent.
pub struct Fires<N: Notify> {
    queue: Queue<N>,
}

impl<N: Notify> Model for Fires<N> {
    ghost use Rattle.std.specs.Prelude.{List};
    ghost use Rattle.notifiers.specs.declared.notice.Notice.{Notice};
    ghost use Rattle.notifiers.specs.Notices.{AreNumbered, AreUnheard};

    ghost Value = { List (Notice N) };

    ghost view = { λ f. f.queue };

    ghost invariant = { λ f. AreUnheard N.heard f.queue × AreNumbered N.number f.queue };
}

/// Tells one object its outcome.
fn tell<N: Notify>(notice: Notice<N>) -> Notice<N>
    requires { N.heard notice.what ≡ None }
    ensures told { IsTold N.heard notice result }
    ensures same { N.number result.what ≡ N.number notice.what }
{
    let mut notice = notice;
    notice.what.told(notice.outcome);
    notice
}

/// Tells each object its outcome, and moves it to another list, in the node that it stands in.
fn tell_all<N: Notify>(from: &mut Queue<N>, to: &mut Queue<N>)
    requires unheard { AreUnheard N.heard from.old }
    requires numbered { AreNumbered N.number from.old }
    requires others { AreNumbered N.number to.old }
    ensures told { Told N.heard from.old to.old to.new }
    ensures numbered { AreNumbered N.number to.new }
{
    while let Some((notice, node)) = from.pop() {
        to.push(tell(notice), node);
    }
}

impl<N: Notify> Fires<N> {
    /// Nobody.
    pub fn new() -> Fires<N>
        ensures { result ≡ [] }
    {
        Fires {
            queue: Queue::new(),
        }
    }

    /// Adds a notifier at the end, with the outcome that it is to be told; takes no memory.
    pub fn add(&mut self, armed: Armed<N>, outcome: Outcome)
        ensures { self.new ≡ self.old ++ record { note = armed.note; what = armed.what; outcome = outcome } ∷ [] }
    {
        let Armed { unheard, room } = armed;
        self.queue.push(
            Notice {
                note: unheard.note,
                what: unheard.what,
                outcome,
            },
            room,
        );
    }

    /// Gives up a list of nobody.
    pub fn end(self)
        requires { self ≡ [] }
    {
        let Fires { queue } = self;
        queue.end();
    }

    /// Tells each its outcome, and adds it at the end of `done`, in order; takes no memory.
    pub fn fire_all(self, done: &mut FiredList<N>)
        ensures { Told N.heard self done.old done.new }
    {
        let Fires { queue } = self;
        let mut queue = queue;
        tell_all(&mut queue, &mut done.queue);
        queue.end();
    }
}

/// Notifiers that were told, with what each has heard.
pub struct FiredList<N: Notify> {
    queue: Queue<N>,
}

impl<N: Notify> Model for FiredList<N> {
    ghost use Rattle.std.specs.Prelude.{List};
    ghost use Rattle.notifiers.specs.declared.notice.Notice.{Notice};
    ghost use Rattle.notifiers.specs.Notices.{AreHeard, AreNumbered};

    ghost Value = { List (Notice N) };

    ghost view = { λ f. f.queue };

    ghost invariant = { λ f. AreHeard N.heard f.queue × AreNumbered N.number f.queue };
}

impl<N: Notify> FiredList<N> {
    /// Nobody.
    pub fn new() -> FiredList<N>
        ensures { result ≡ [] }
    {
        FiredList {
            queue: Queue::new(),
        }
    }

    /// Takes out the first one, with its note.
    pub fn pop(&mut self) -> Option<(u32, Fired<N>)>
        ensures first { IfSome result (λ p. self.old ≡ record { note = p.0; what = p.1.what; outcome = p.1.outcome } ∷ self.new) }
        ensures note { IfSome result (λ p. p.1.note ≡ p.0) }
        ensures empty { IfNone result (self.old ≡ []) }
        ensures stays { IfNone result (self.new ≡ []) }
    {
        let (notice, _node) = self.queue.pop()?;
        Some((
            notice.note,
            Fired {
                heard: Heard {
                    note: notice.note,
                    what: notice.what,
                    outcome: notice.outcome,
                },
            },
        ))
    }
}

impl<N: Notify> Drop for FiredList<N> {
    fn drop(self) {
        let FiredList { queue } = self;
        let mut queue = queue;
        while let Some(_told) = queue.pop() {}
        queue.end();
    }
}
