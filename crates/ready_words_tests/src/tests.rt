//! Two passes of one session: the first links an object, and the second peeks.

mod session;

ghost use Rattle.std.specs.Prelude.{◌≡◌, ◌<◌, IfOk, IfSome, None};
ghost use Rattle.shared_session.specs.declared.posts.TheConstants.{POSTS};
ghost use Rattle.ready_words.specs.Peeks.{instance_of};
ghost use Rattle.session_units.specs.Units.{meaning_of};
ghost use Rattle.turn_lock.specs.Handles.{view, turn_id, post_count, IsReady};
ghost use Rattle.link_worker.specs.Works.{IsFree};

use elf_read::read_object;
use link_graph::graph_of;
use orc_ids::{InstId, Level, NameId, UnitName};
use orc_io::Note;
use orc_names::{NameHasher, Names};
use ready_words::Peeks;
use sample_objects::HELLO;
use session::{
    PLACES, define, end_session, look_up, look_up_and_post, make_dylib, make_tracker, remove,
};
use session_model::{LookEnd, Peek};
use session_units::ObjectUnit;
use shared_session::{Pass, Shared, close, open_posts};
use std::alloc::Global;
use std::sync::Wait;

/// Where `main` lies.
const MAIN: u64 = 0x1000_0000;

/// The unit of the object, and what its entry is called.
fn hello(alloc: Global) -> Option<(ObjectUnit, NameId)>
    ensures { IfSome result (λ r. (meaning_of r.0).source ≡ None) }
{
    let mut names = Names::new(alloc);
    let object = read_object(alloc, HELLO.as_slice()).ok()?;
    let graph = graph_of(alloc, &object, &mut names).ok()?;
    let unit = ObjectUnit::of_graph(alloc, UnitName::Object(0), graph).ok()?;
    Some((unit, names.find(b"main")?))
}

/// A table that knows what this name was found to be.
fn learnt(alloc: Global, name: NameId, i: Option<InstId>) -> Option<Peeks>
    ensures { IfSome result (λ peeks. instance_of name peeks ≡ i) }
{
    let mut peeks = Peeks::new(alloc, NameHasher::Fixed);
    peeks.learn(name, i).ok()?;
    Some(peeks)
}

/// What a pass is told of a name that was found to be this.
fn told(
    alloc: Global,
    shared: &Shared<ObjectUnit, Note, PLACES>,
    pass: &mut Pass<ObjectUnit, Note, PLACES>,
    name: NameId,
    i: Option<InstId>,
) -> Option<Peek>
    requires ready { IsReady (turn_id shared.now) pass.old }
    requires there { IfSome i (λ j. j.0 < post_count shared.now) }
    ensures ready { IsReady (turn_id shared.now) pass.new }
{
    let peeks = learnt(alloc, name, i)?;
    Some(peeks.peek(shared, pass, name))
}

/// The dylib is made, and the unit is defined in it.
fn set_up<R: Wait>(
    rt: &R,
    shared: &Shared<ObjectUnit, Note, PLACES>,
    pass: &mut Pass<ObjectUnit, Note, PLACES>,
    unit: ObjectUnit,
    name: NameId,
) -> bool
    requires ready { IsReady (turn_id shared.now) pass.old }
    requires free { IsFree meaning_of (view pass.old) }
    requires source { (meaning_of unit).source ≡ None }
    ensures ready { IsReady (turn_id shared.now) pass.new }
    ensures free { IsFree meaning_of (view pass.new) }
{
    let dylib = make_dylib(rt, shared, pass, name).is_ok();
    let tracker = make_tracker(rt, shared, pass).is_ok();
    let defined = define(rt, shared, pass, unit).is_ok();
    dylib && tracker && defined
}

/// The lookup found the entry.
fn has_found(end: &LookEnd) -> bool {
    match end {
        LookEnd::Found(matches) => matches.as_slice() == [Some((InstId(0), MAIN))].as_slice(),
        _ => false,
    }
}

/// What the second pass is told of the entry, as the first one goes on: before it is looked up; once it
/// was found at Resolved; once it was found at Ready; and once its unit was removed. Whether the first
/// found it both times, and how many entries there are.
#[derive(Drop)]
struct Row {
    told: [Option<Peek>; 4],
    found: bool,
    entries: u64,
}

/// What comes of it.
fn play<R: Wait>(
    rt: &R,
    alloc: Global,
    shared: &Shared<ObjectUnit, Note, PLACES>,
    first: &mut Pass<ObjectUnit, Note, PLACES>,
    second: &mut Pass<ObjectUnit, Note, PLACES>,
    name: NameId,
) -> Row
    requires first { IsReady (turn_id shared.now) first.old }
    requires free { IsFree meaning_of (view first.old) }
    requires second { IsReady (turn_id shared.now) second.old }
    requires posts { post_count shared.now ≡ POSTS }
    ensures first { IsReady (turn_id shared.now) first.new }
    ensures second { IsReady (turn_id shared.now) second.new }
{
    let main = Some(InstId(0));
    let unfound = told(alloc, shared, second, name, None);
    let resolved = look_up(rt, alloc, shared, first, name, Level::Resolved);
    let not_yet = told(alloc, shared, second, name, main);
    let ready = look_up_and_post(rt, alloc, shared, first, name);
    let posted = told(alloc, shared, second, name, main);
    let entries = shared.front(second);
    let removed = remove(rt, shared, first).is_ok();
    let still = told(alloc, shared, second, name, main);
    Row {
        told: [unfound, not_yet, posted, still],
        found: has_found(&resolved) && has_found(&ready) && removed,
        entries,
    }
}

/// The row, in a session of its own; `None` where memory runs out.
fn played<R: Wait>(rt: &R, alloc: Global) -> Option<Row> {
    let (unit, name) = hello(alloc)?;
    let Ok((shared, mut first)) = open_posts::<ObjectUnit, Note, PLACES>(alloc, 2) else {
        return None;
    };
    let mut second = shared.split(&mut first);
    let done = set_up(rt, &shared, &mut first, unit, name);
    let row = play(rt, alloc, &shared, &mut first, &mut second, name);
    shared.join(&mut first, second);
    end_session(close(rt, shared, first));
    if done { Some(row) } else { None }
}

#[test]
fn what_one_pass_posts_the_other_is_told(rt: HostRuntime) {
    let Some(row) = played(&rt, rt.alloc()) else {
        panic!(rt; "memory")
    };
    let told = row.told;
    let main = Peek::Ready(MAIN);
    let wanted = [Peek::Unfound, Peek::NotYet, main, main];
    assert!(rt; told == wanted.map(Some));
    assert!(rt; row.found);
    assert_eq!(rt; row.entries, 13);
}
