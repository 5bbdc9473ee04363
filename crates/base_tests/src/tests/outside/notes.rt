//! A notifier that keeps what it was told.
ghost use Rattle.std.specs.Prelude.{◌≡◌, None};

use orc_ids::{End, Outcome, QueryId};
use orc_io::{Gate, Note, Notify, OpenGate};

/// Passes the gate and tells the outcome.
fn tell<N: Notify, G: Gate>(gate: &G, mut note: N, outcome: Outcome) -> N
    requires { N.heard note ≡ None }
{
    gate.at(0);
    note.told(outcome);
    note
}

#[test]
fn a_note_keeps_what_it_was_told(rt: HostRuntime) {
    let outcome = Outcome {
        query: QueryId(3),
        end: End::Found(9),
    };
    let note = tell(&OpenGate, Note::new(4), outcome);
    assert!(rt; note.number == 4);
    assert!(rt; note.outcome == Some(outcome));
}
