//! Tables of calls of a frontier, and of what is answered.
ghost use Rattle.std.specs.Prelude.{◌≡◌, ◌<◌, ◌≤◌, ◌∷◌, [], ℕ, IsTrue, IfOk, Contains};
ghost use Rattle.dep_groups.specs.Frontier.{Absent, entry_at};

use dep_groups::Frontier;
use orc_ids::{Group, InstId, Items};
use std::alloc::{AllocError, Global};
use std::process::Abort;
use std::test::Fail;

/// A call of a frontier, or what it says by then.
#[derive(Clone, Copy)]
pub enum Step<'a> {
    /// Makes places for so many instances.
    Room(usize),
    /// Emits an instance in a group of its own, with what it depends on.
    Emit(u32, &'a [u32]),
    /// Emits no group.
    EmitNone,
    /// Emits two instances at once, each in a group of its own; the second depends on these.
    EmitTwo(u32, u32, &'a [u32]),
    /// Emits a group of two instances.
    EmitGroup(u32, u32),
    /// Fails an instance that is not ready.
    Fail(u32),
    /// The instance is ready.
    Ready(u32),
    /// The instance is not ready.
    Unready(u32),
    /// The instance reaches so many that are not emitted.
    Pending(u32, usize),
    /// These became ready at the last emission.
    Told(&'a [u32]),
    /// These are hit by the last failure.
    Hit(&'a [u32]),
}

/// A frontier, and beside it what its next calls rest on.
#[derive(Drop)]
struct Played {
    frontier: Frontier,
    /// Every instance that was emitted.
    emitted: Vec<u32>,
    /// How many places were asked for.
    places: usize,
    ghost absent: { (i : ℕ) → (Contains emitted.items i → ⊥) → entry_at frontier.entries i ≡ Absent },
    ghost room: { places ≤ frontier.places },
}

/// A list of instances.
fn instances(alloc: Global, numbers: &[u32]) -> Result<Items<InstId>, AllocError> {
    let mut instances = Vec::new(alloc);
    for number in numbers {
        instances.push(InstId(*number))?;
    }
    Ok(Items::from_vec(instances))
}

/// A group of one instance.
fn group_of(alloc: Global, member: u32, deps: &[u32]) -> Result<Group, AllocError>
    ensures { IfOk result (λ g. g.members ≡ record { 0 = member } ∷ []) }
{
    let deps = instances(alloc, deps)?;
    Ok(Group {
        members: Items::from_vec(vec![in alloc; InstId(member)]?),
        deps,
    })
}

/// Emits a group of one instance.
fn emit_one(
    alloc: Global,
    frontier: &mut Frontier,
    member: u32,
    deps: &[u32],
) -> Result<bool, AllocError>
    requires { entry_at frontier.old.entries member ≡ Absent }
    ensures others { (i : ℕ) → (member ≡ i → ⊥) → entry_at frontier.new.entries i ≡ entry_at frontier.old.entries i }
    ensures more { frontier.old.places ≤ frontier.new.places }
{
    let group = group_of(alloc, member, deps)?;
    frontier.emit(&[group])?;
    Ok(true)
}

/// Emits two groups of one instance; the first depends on nothing.
fn emit_two(
    alloc: Global,
    frontier: &mut Frontier,
    one: u32,
    other: u32,
    deps: &[u32],
) -> Result<bool, AllocError>
    requires apart { one ≡ other → ⊥ }
    requires one { entry_at frontier.old.entries one ≡ Absent }
    requires other { entry_at frontier.old.entries other ≡ Absent }
    ensures others { (i : ℕ) → (one ≡ i → ⊥) → (other ≡ i → ⊥) → entry_at frontier.new.entries i ≡ entry_at frontier.old.entries i }
    ensures more { frontier.old.places ≤ frontier.new.places }
{
    let first = group_of(alloc, one, &[])?;
    let second = group_of(alloc, other, deps)?;
    frontier.emit(&[first, second])?;
    Ok(true)
}

/// Emits a group of two instances that depend on nothing.
fn emit_pair(
    alloc: Global,
    frontier: &mut Frontier,
    one: u32,
    other: u32,
) -> Result<bool, AllocError>
    requires one { entry_at frontier.old.entries one ≡ Absent }
    requires other { entry_at frontier.old.entries other ≡ Absent }
    ensures others { (i : ℕ) → (one ≡ i → ⊥) → (other ≡ i → ⊥) → entry_at frontier.new.entries i ≡ entry_at frontier.old.entries i }
    ensures more { frontier.old.places ≤ frontier.new.places }
{
    let group = Group {
        members: Items::from_vec(vec![in alloc; InstId(one), InstId(other)]?),
        deps: Items::new(alloc),
    };
    frontier.emit(&[group])?;
    Ok(true)
}

/// The instances are those of these numbers, each once.
fn are(instances: &[InstId], numbers: &[u32]) -> bool {
    for number in numbers {
        if !instances.contains(&InstId(*number)) {
            return false;
        }
    }
    instances.len() == numbers.len()
}

impl Played {
    /// Nothing is emitted.
    fn new(alloc: Global) -> Played {
        Played {
            frontier: Frontier::new(alloc),
            emitted: Vec::new(alloc),
            places: 0,
        }
    }

    /// Makes places for so many instances.
    fn room(&mut self, count: usize) -> Result<bool, AllocError> {
        self.frontier.room(count)?;
        self.places = count;
        Ok(true)
    }

    /// Whether an instance was never emitted.
    fn is_new(&self, member: u32) -> bool
        ensures { IsTrue result → Contains self.now.emitted.items member → ⊥ }
    {
        !self.emitted.contains(&member)
    }

    /// Emits an instance, unless it was emitted.
    fn emit(&mut self, alloc: Global, member: u32, deps: &[u32]) -> Result<bool, AllocError> {
        if !self.is_new(member) {
            return Ok(false);
        }
        self.emitted.push(member)?;
        emit_one(alloc, &mut self.frontier, member, deps)
    }

    /// Emits no group.
    fn emit_none(&mut self) -> Result<bool, AllocError> {
        self.frontier.emit(&[])?;
        Ok(true)
    }

    /// Emits two groups of one instance, unless one was emitted.
    fn emit_two(
        &mut self,
        alloc: Global,
        one: u32,
        other: u32,
        deps: &[u32],
    ) -> Result<bool, AllocError> {
        if one == other || !self.is_new(one) || !self.is_new(other) {
            return Ok(false);
        }
        self.emitted.extend_from_slice(&[one, other])?;
        emit_two(alloc, &mut self.frontier, one, other, deps)
    }

    /// Emits a group of two instances, unless one was emitted.
    fn emit_pair(&mut self, alloc: Global, one: u32, other: u32) -> Result<bool, AllocError> {
        if !self.is_new(one) || !self.is_new(other) {
            return Ok(false);
        }
        self.emitted.extend_from_slice(&[one, other])?;
        emit_pair(alloc, &mut self.frontier, one, other)
    }

    /// Fails an instance, unless it is ready or has no place.
    fn fail(&mut self, root: u32) -> bool {
        if root as usize >= self.places || self.frontier.is_ready(InstId(root)) {
            return false;
        }
        self.frontier.fail(&[InstId(root)]);
        true
    }

    /// Plays a step; whether it is as the table says.
    fn step(&mut self, alloc: Global, step: &Step<'_>) -> Result<bool, AllocError> {
        match step {
            Step::Room(count) => self.room(*count),
            Step::Emit(member, deps) => self.emit(alloc, *member, deps),
            Step::EmitNone => self.emit_none(),
            Step::EmitTwo(one, other, deps) => self.emit_two(alloc, *one, *other, deps),
            Step::EmitGroup(one, other) => self.emit_pair(alloc, *one, *other),
            Step::Fail(root) => Ok(self.fail(*root)),
            Step::Ready(instance) => Ok(self.frontier.is_ready(InstId(*instance))),
            Step::Unready(instance) => Ok(!self.frontier.is_ready(InstId(*instance))),
            Step::Pending(instance, count) => {
                Ok(self.frontier.pending_count(InstId(*instance)) == *count)
            }
            Step::Told(numbers) => Ok(are(self.frontier.told(), numbers)),
            Step::Hit(numbers) => Ok(are(self.frontier.hits(), numbers)),
        }
    }
}

/// Plays a table; a step that is not as it says is named by its number.
pub fn play(rt: &impl Abort, alloc: Global, steps: &[Step<'_>]) -> Result<(), Fail> {
    let mut played = Played::new(alloc);
    for (number, step) in steps.iter().enumerate() {
        assert!(rt; played.step(alloc, step)?, "step {number}");
    }
    Ok(())
}
