ghost use Rattle.std.specs.Prelude.{◌≡◌, ℕ, All, Option, None, Some, IfOk, length};
ghost use Rattle.orc_ids.specs.declared.lookup.Outcome.{Outcome};
ghost use Rattle.orc_io.specs.Numbers.{AreNumberedFrom};

use orc_ids::Outcome;
use std::alloc::{AllocError, Global};

/// What a worker passes before each of its jobs, by the number of the job. A test holds a worker back
/// here; it has no effect that a contract sees.
pub trait Gate {
    fn at(&self, job: u32);
}

/// A gate that lets every worker pass at once.
#[derive(Clone, Copy)]
pub struct OpenGate;

impl Gate for OpenGate {
    fn at(&self, _job: u32) {}
}

/// What is told, once, how a lookup ended (ORC: the `NotifyComplete` of an asynchronous lookup).
pub trait Notify: Drop {
    /// The outcome that was heard, or none.
    ghost heard: { Self → Option Outcome };
    /// The number that tells it from others, which it keeps: that of the note that its lookup is asked with.
    ghost number: { Self → ℕ };

    fn told(&mut self, outcome: Outcome)
        requires { heard self.old ≡ None }
        ensures outcome { heard self.new ≡ Some outcome }
        ensures same { number self.new ≡ number self.old };
}

/// A notifier that keeps the outcome.
#[derive(Drop)]
pub struct Note {
    pub number: u32,
    pub outcome: Option<Outcome>,
}

impl Note {
    /// A notifier of this number that has heard nothing.
    pub fn new(number: u32) -> Note
        ensures number { result.number ≡ number }
        ensures unheard { result.outcome ≡ None }
    {
        Note {
            number,
            outcome: None,
        }
    }

    /// So many notifiers that have heard nothing, numbered from 0 on.
    pub fn numbered(alloc: Global, count: u32) -> Result<Vec<Note>, AllocError>
        ensures count { IfOk result (λ notes. length notes.items ≡ count) }
        ensures unheard { IfOk result (λ notes. All (λ n. n.outcome ≡ None) notes.items) }
        ensures numbered { IfOk result (λ notes. AreNumberedFrom (λ (n : Note). n.number) 0 notes.items) }
    {
        let mut notes = Vec::new(alloc);
        for number in 0..count {
            notes.push(Note::new(number))?;
        }
        Ok(notes)
    }
}

impl Notify for Note {
    ghost heard = { λ n. n.outcome };

    ghost number = { λ n. n.number };

    fn told(&mut self, outcome: Outcome) {
        self.outcome = Some(outcome);
    }
}
