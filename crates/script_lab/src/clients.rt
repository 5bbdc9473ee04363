//! Random lines of clients.
ghost use Rattle.std.specs.Prelude.{◌≡◌, ◌≤◌, All, length, IfOk};
ghost use Rattle.script_model.specs.Plans.{IsUnheard};
ghost use Rattle.script_lab.specs.Plans.{IsCallable};
ghost use Rattle.script_lab.specs.SettingUp.{IsMade};

use crate::note::LabNote;
use crate::random::Random;
use crate::set_up::{SetUp, order};
use crate::unit::LabUnit;
use crate::units::{name, object};
use orc_ids::{Items, Level, NameId, TrackId, Wanted};
use script_model::{ClientCall, Lookup};
use std::alloc::{AllocError, Global};

/// A line of a client.
pub type Line = ClientCall<LabUnit, LabNote>;

/// What lines are made by: the set-up before them, how many notes there are, and the name that the client looked
/// up last.
#[derive(Drop)]
pub struct Maker {
    pub set_up: SetUp,
    pub notes: u32,
    pub sought: Option<NameId>,
}

/// A name, which half of the time has to have a match.
fn sought(random: &mut Random) -> Wanted {
    Wanted {
        name: name(random),
        weak: random.once_in(2),
    }
}

/// A name, and up to two others.
fn wanted(alloc: Global, random: &mut Random, first: NameId) -> Result<Vec<Wanted>, AllocError>
    ensures { IfOk result (λ wanted. length wanted.items ≤ 64) }
{
    let weak = random.once_in(4);
    let mut wanted = vec![in alloc; Wanted { name: first, weak }]?;
    for _ in 0..random.below(5) / 2 {
        wanted.push(sought(random))?;
    }
    Ok(wanted)
}

fn level(random: &mut Random) -> Level {
    if random.once_in(2) {
        Level::Resolved
    } else {
        Level::Ready
    }
}

/// The arguments of a run.
fn arguments(alloc: Global, random: &mut Random) -> Result<Items<u64>, AllocError>
    ensures { IfOk result (λ args. length args ≤ 8) }
{
    let mut args = Vec::new(alloc);
    for _ in 0..random.below(3) {
        args.push(u64::from(random.below(1000)))?;
    }
    Ok(Items::from_vec(args))
}

impl Maker {
    fn tracker(&self, random: &mut Random) -> TrackId
        requires { IsMade self.now.set_up }
    {
        self.set_up.home(random).1
    }

    /// A note with its number, for half of the lookups.
    fn watch(&mut self, random: &mut Random) -> Option<(u32, LabNote)>
        ensures fresh { IsUnheard (λ n. n.outcome) (λ n. n.number) result }
        ensures set_up { self.new.set_up ≡ self.old.set_up }
    {
        if random.once_in(2) {
            return None;
        }
        let number = self.notes;
        self.notes = number.wrapping_add(1);
        Some((number, LabNote::new(number)))
    }

    /// A lookup.
    fn look_up(&mut self, alloc: Global, random: &mut Random) -> Result<Line, AllocError>
        requires { IsMade self.old.set_up }
        ensures can { IfOk result IsCallable }
        ensures set_up { self.new.set_up ≡ self.old.set_up }
    {
        let (d, first) = self.set_up.known_name(random);
        let order = order(alloc, random, d, self.set_up.dylibs)?;
        let wanted = wanted(alloc, random, first)?;
        self.sought = Some(first);
        let level = level(random);
        let names = Lookup {
            order: Items::from_vec(order),
            wanted: Items::from_vec(wanted),
            level,
        };
        Ok(ClientCall::LookUp(names, self.watch(random)))
    }

    /// A definition.
    fn define(&mut self, alloc: Global, random: &mut Random) -> Result<Line, AllocError>
        requires { IsMade self.old.set_up }
        ensures can { IfOk result IsCallable }
        ensures made { IsMade self.new.set_up }
    {
        let number = self.set_up.next_unit();
        let (d, t) = self.set_up.home(random);
        Ok(ClientCall::Define(d, t, object(alloc, random, number)?))
    }

    /// Mostly the name that was looked up last.
    fn last_name(&self, random: &mut Random) -> NameId {
        match self.sought {
            Some(last) if !random.once_in(6) => last,
            _ => name(random),
        }
    }

    /// A run, mostly of the name that was looked up last.
    fn run(&self, alloc: Global, random: &mut Random) -> Result<Line, AllocError>
        ensures { IfOk result IsCallable }
    {
        let from = self.last_name(random);
        Ok(ClientCall::Run(from, 10, arguments(alloc, random)?))
    }

    /// A peek, mostly at the name that was looked up last.
    fn peek(&self, random: &mut Random) -> Line
        ensures { IsCallable result }
    {
        ClientCall::Peek(self.last_name(random))
    }

    /// A line of any kind.
    fn line(&mut self, alloc: Global, random: &mut Random) -> Result<Line, AllocError>
        requires { IsMade self.old.set_up }
        ensures can { IfOk result IsCallable }
        ensures made { IsMade self.new.set_up }
    {
        match random.below(16) {
            0..=7 => self.look_up(alloc, random),
            8..=9 => self.define(alloc, random),
            10 => {
                let from = self.tracker(random);
                Ok(ClientCall::Move(from, self.tracker(random)))
            }
            11 => Ok(ClientCall::Remove(self.tracker(random))),
            12 => Ok(self.peek(random)),
            _ if self.sought.is_some() => self.run(alloc, random),
            _ => self.look_up(alloc, random),
        }
    }

    /// Up to eight lines.
    pub fn lines(&mut self, alloc: Global, random: &mut Random) -> Result<Vec<Line>, AllocError>
        requires { IsMade self.old.set_up }
        ensures can { IfOk result (λ lines. All IsCallable lines.items) }
        ensures made { IsMade self.new.set_up }
    {
        self.sought = None;
        let mut lines = Vec::new(alloc);
        for _ in 0..random.below(8) + 1 {
            lines.push(self.line(alloc, random)?)?;
        }
        Ok(lines)
    }
}
