//! Notifiers that are told, one and several.

use notifiers::{Armed, FiredList, Fires};
use orc_ids::{End, InstId, Outcome, QueryId};
use orc_io::Note;

/// A value that a thread can be given.
fn sent<T: Send>(value: T) -> T {
    value
}

#[test]
fn an_armed_object_hears_its_outcome(rt: HostRuntime) {
    let armed = sent(Armed::new(rt.alloc(), 3, Note::new(3)).expect(&rt, "memory"));
    assert_eq!(rt; armed.note(), 3);
    let outcome = Outcome {
        query: QueryId(7),
        end: End::Found(12),
    };
    let note = sent(armed.fire(outcome)).object();
    assert_eq!(rt; note.number, 3);
    assert!(rt; note.outcome == Some(outcome));
}

#[test]
fn an_object_comes_back_unheard(rt: HostRuntime) {
    let armed = Armed::new(rt.alloc(), 0, Note::new(0)).expect(&rt, "memory");
    let note = armed.back();
    assert!(rt; note.outcome.is_none());
}

#[test]
fn each_is_told_its_own_outcome_in_order(rt: HostRuntime) {
    let found = Outcome {
        query: QueryId(0),
        end: End::Found(5),
    };
    let lost = Outcome {
        query: QueryId(1),
        end: End::Failed(5, InstId(9)),
    };
    let mut fires = Fires::new();
    let a = Armed::new(rt.alloc(), 1, Note::new(1)).expect(&rt, "memory");
    fires.add(a, found);
    let b = Armed::new(rt.alloc(), 0, Note::new(0)).expect(&rt, "memory");
    fires.add(b, lost);
    let mut done = FiredList::new();
    assert!(rt; done.pop().is_none());
    sent(fires).fire_all(&mut done);
    let (note, fired) = sent(done.pop()).expect(&rt, "the first");
    assert_eq!(rt; note, 1);
    let object = fired.object();
    assert_eq!(rt; object.number, 1);
    assert!(rt; object.outcome == Some(found));
    let (note, fired) = done.pop().expect(&rt, "the second");
    assert_eq!(rt; note, 0);
    let object = fired.object();
    assert_eq!(rt; object.number, 0);
    assert!(rt; object.outcome == Some(lost));
    assert!(rt; done.pop().is_none());
}
