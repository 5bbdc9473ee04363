use super::one::One;
use generators::Generators;
use orc_ids::{DylibId, GENERATOR_LIMIT, GenId, NameId, Scope};
use std::alloc::Global;
use std::process::Abort;

/// What generators are told, or asked with what is answered.
#[derive(Drop)]
pub(super) enum Step {
    /// Room is made for a generator of so many names.
    Room(u32),
    /// A generator of one name is attached to the dylib, and gets this number; others see the name,
    /// or they don't.
    Attach(DylibId, NameId, bool, GenId),
    /// The generator is spent.
    Spend(GenId),
    /// Who offers the name in the dylib.
    Offered(DylibId, NameId, Scope, Option<GenId>),
    /// Whether the generator is spent, if it is there.
    Spent(GenId, Option<bool>),
    /// How many generators there are.
    Len(usize),
}

/// Attaches a generator of one name.
fn attach(
    generators: &mut Generators<One>,
    d: DylibId,
    name: NameId,
    exported: bool,
) -> Option<GenId> {
    if generators.len() >= GENERATOR_LIMIT || generators.room(1).is_err() {
        return None;
    }
    Some(generators.attach(d, One { name, exported }))
}

fn spend(generators: &mut Generators<One>, g: GenId) -> bool {
    generators.spend(g);
    true
}

/// Whether the generator is spent, if it is there.
fn spent(generators: &Generators<One>, g: GenId) -> Option<bool> {
    Some(generators.get(g)?.spent)
}

/// Whether the step is done, or answered, as it says.
fn is_done(generators: &mut Generators<One>, step: &Step) -> bool {
    match step {
        Step::Room(count) => generators.room(*count).is_ok(),
        Step::Attach(d, name, exported, g) => {
            attach(generators, *d, *name, *exported) == Some(*g)
        }
        Step::Spend(g) => spend(generators, *g),
        Step::Offered(d, name, scope, g) => generators.offered(*d, *name, *scope) == *g,
        Step::Spent(g, spent_or_not) => spent(generators, *g) == *spent_or_not,
        Step::Len(count) => generators.len() == *count,
    }
}

/// The first step that isn't done, or answered, as it says.
fn first_wrong(alloc: Global, steps: &[Step]) -> Option<usize> {
    let mut generators = Generators::new(alloc);
    for (k, step) in steps.iter().enumerate() {
        if !is_done(&mut generators, step) {
            return Some(k);
        }
    }
    None
}

/// Plays the steps on no generators. Each is done, or answered, as it says.
pub(super) fn play(rt: &impl Abort, alloc: Global, steps: &[Step]) {
    assert_eq!(rt; first_wrong(alloc, steps), None);
}
