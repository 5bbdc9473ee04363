//! Random set-ups: dylibs with trackers and orders, and what is defined in them before clients come.
ghost use Rattle.std.specs.Prelude.{◌≡◌, ◌≤◌, ◌<◌, ◌+◌, ◌^◌, ℕ, length, IfOk, IfSome, OnOk};
ghost use Rattle.orc_ids.specs.declared.limits.TheConstants.{DYLIB_LIMIT};
ghost use Rattle.script_lab.specs.SettingUp.{CanAdd, IsMade};
ghost use Rattle.script_lab.specs.Units.{lab_meaning};

use crate::random::Random;
use crate::unit::LabUnit;
use crate::units::{alias, name, object};
use orc_ids::{DYLIB_LIMIT, DylibId, Items, NameId, OrderItem, Scope, TrackId};
use script_model::SetUpCall;
use session_model::UnitKind;
use std::alloc::{AllocError, Global};

/// The calls of a set-up, and what they make.
#[derive(Drop)]
pub struct SetUp {
    pub calls: Vec<SetUpCall<LabUnit>>,
    pub dylibs: u32,
    /// The dylib of each tracker.
    pub trackers: Vec<DylibId>,
    /// The names that units offer, with the dylibs of these.
    pub offered: Vec<(DylibId, NameId)>,
    /// How many units were made.
    pub units: u32,
}

/// One of the scopes.
fn scope(random: &mut Random) -> Scope {
    if random.once_in(3) {
        Scope::Exported
    } else {
        Scope::All
    }
}

/// One of so many dylibs; once in a while one that isn't there.
fn any_dylib(random: &mut Random, dylibs: u32) -> DylibId
    requires { dylibs < 2 ^ 31 }
{
    let beyond = u32::from(random.once_in(24));
    DylibId(random.below((dylibs + beyond).max(1)))
}

/// An order of this dylib, and up to two of so many others.
pub fn order(
    alloc: Global,
    random: &mut Random,
    first: DylibId,
    dylibs: u32,
) -> Result<Vec<OrderItem>, AllocError>
    requires { dylibs < 2 ^ 31 }
    ensures { IfOk result (λ order. length order.items ≤ 64) }
{
    let mut order = Vec::new(alloc);
    let mut dylib = first;
    for _ in 0..random.below(3) + 1 {
        order.push(OrderItem {
            dylib,
            scope: scope(random),
        })?;
        dylib = any_dylib(random, dylibs);
    }
    Ok(order)
}

impl SetUp {
    /// No calls.
    fn new(alloc: Global) -> SetUp
        ensures made { IsMade result }
        ensures dylibs { result.dylibs ≡ 0 }
    {
        SetUp {
            calls: Vec::new(alloc),
            dylibs: 0,
            trackers: Vec::new(alloc),
            offered: Vec::new(alloc),
            units: 0,
        }
    }

    /// One more dylib, with a tracker.
    fn add_dylib(&mut self) -> Result<(), AllocError>
        requires made { IsMade self.old }
        requires few { self.old.dylibs < DYLIB_LIMIT }
        ensures made { OnOk result (IsMade self.new) }
        ensures dylibs { OnOk result (self.new.dylibs ≡ self.old.dylibs + 1) }
    {
        let d = self.dylibs;
        self.calls.push(SetUpCall::Dylib(NameId(d)))?;
        self.dylibs = d + 1;
        self.add_tracker(DylibId(d))
    }

    /// A call that makes no dylib.
    fn add(&mut self, call: SetUpCall<LabUnit>) -> Result<(), AllocError>
        requires made { IsMade self.old }
        requires can { CanAdd self.old.dylibs call }
        ensures made { OnOk result (IsMade self.new) }
        ensures dylibs { self.new.dylibs ≡ self.old.dylibs }
    {
        self.calls.push(call)?;
        Ok(())
    }

    /// A tracker of the dylib.
    fn add_tracker(&mut self, d: DylibId) -> Result<(), AllocError>
        requires { IsMade self.old }
        ensures made { OnOk result (IsMade self.new) }
        ensures dylibs { self.new.dylibs ≡ self.old.dylibs }
    {
        self.trackers.push(d)?;
        self.add(SetUpCall::Tracker(d))
    }

    /// An order of a dylib, which may not be there.
    fn add_order(&mut self, alloc: Global, random: &mut Random) -> Result<(), AllocError>
        requires { IsMade self.old }
        ensures made { OnOk result (IsMade self.new) }
        ensures dylibs { self.new.dylibs ≡ self.old.dylibs }
    {
        let d = any_dylib(random, self.dylibs);
        let first = any_dylib(random, self.dylibs);
        let order = order(alloc, random, first, self.dylibs)?;
        self.add(SetUpCall::Order(d, Items::from_vec(order)))
    }

    /// A tracker with its dylib; once in a while with another one.
    pub fn home(&self, random: &mut Random) -> (DylibId, TrackId)
        requires few { self.now.dylibs ≤ DYLIB_LIMIT }
    {
        let count = u32::try_from(self.trackers.len()).unwrap_or(0);
        let beyond = u32::from(random.once_in(24));
        let t = random.below(count.saturating_add(beyond).max(1));
        let d = match self.trackers.get(t as usize) {
            Some(d) if !random.once_in(24) => *d,
            _ => any_dylib(random, self.dylibs),
        };
        (d, TrackId(t))
    }

    /// The number of one more unit.
    pub fn next_unit(&mut self) -> u32
        ensures calls { self.new.calls ≡ self.old.calls }
        ensures dylibs { self.new.dylibs ≡ self.old.dylibs }
    {
        let number = self.units;
        self.units = number.wrapping_add(1);
        number
    }

    /// A name with a dylib that has it, mostly; or any.
    pub fn known_name(&self, random: &mut Random) -> (DylibId, NameId)
        requires { self.now.dylibs ≤ DYLIB_LIMIT }
    {
        let count = u32::try_from(self.offered.len()).unwrap_or(0);
        let k = random.below(count.saturating_add(count / 4).saturating_add(1));
        match self.offered.get(k as usize) {
            Some(known) => *known,
            None => (any_dylib(random, self.dylibs), name(random)),
        }
    }

    /// A definition of a unit, or a generator of it.
    fn add_object(
        &mut self,
        alloc: Global,
        random: &mut Random,
        defines: bool,
    ) -> Result<(), AllocError>
        requires { IsMade self.old }
        ensures made { OnOk result (IsMade self.new) }
        ensures dylibs { self.new.dylibs ≡ self.old.dylibs }
    {
        let number = self.next_unit();
        let (d, t) = self.home(random);
        let unit = object(alloc, random, number)?;
        keep_offers(&mut self.offered, d, &unit)?;
        self.add(hand_in(defines, d, t, unit))
    }

    /// The same of an alias.
    fn add_alias(
        &mut self,
        alloc: Global,
        random: &mut Random,
        defines: bool,
    ) -> Result<(), AllocError>
        requires made { IsMade self.old }
        requires some { 0 < self.old.dylibs }
        ensures made { OnOk result (IsMade self.new) }
        ensures dylibs { self.new.dylibs ≡ self.old.dylibs }
    {
        let number = self.next_unit();
        let (d, t) = self.home(random);
        let unit = alias(alloc, random, self.dylibs, number)?;
        keep_offers(&mut self.offered, d, &unit)?;
        self.add(hand_in(defines, d, t, unit))
    }

    /// A random call.
    fn add_any(&mut self, alloc: Global, random: &mut Random) -> Result<(), AllocError>
        requires made { IsMade self.old }
        requires some { 0 < self.old.dylibs }
        ensures made { OnOk result (IsMade self.new) }
        ensures dylibs { self.new.dylibs ≡ self.old.dylibs }
    {
        let defines = !random.once_in(4);
        match random.below(16) {
            0..=1 => self.add_tracker(DylibId(random.below(self.dylibs))),
            2..=3 => self.add_order(alloc, random),
            4..=6 => self.add_alias(alloc, random, defines),
            _ => self.add_object(alloc, random, defines),
        }
    }
}

/// Keeps the names that a unit in the dylib offers.
fn keep_offers(
    offered: &mut Vec<(DylibId, NameId)>,
    d: DylibId,
    unit: &LabUnit,
) -> Result<(), AllocError> {
    for k in 0..unit.count() {
        offered.push((d, unit.offer(k).0))?;
    }
    Ok(())
}

/// The call that hands a unit in, for a definition or a generator.
fn hand_in(defines: bool, d: DylibId, t: TrackId, unit: LabUnit) -> SetUpCall<LabUnit>
    ensures { (dylibs : ℕ) → IfSome (lab_meaning unit).source (λ source. source.0 < dylibs) → CanAdd dylibs result }
{
    if defines {
        SetUpCall::Define(d, t, unit)
    } else {
        SetUpCall::Attach(d, t, unit)
    }
}

/// A random set-up: one to four dylibs, each with a tracker and mostly with an order, and up to 20 calls more.
pub fn make_set_up(alloc: Global, random: &mut Random) -> Result<SetUp, AllocError>
    ensures made { IfOk result IsMade }
    ensures some { IfOk result (λ s. 0 < s.dylibs) }
{
    let mut set_up = SetUp::new(alloc);
    for _ in 0..random.below(4) + 1 {
        set_up.add_dylib()?;
    }
    for _ in 0..random.below(4) {
        set_up.add_order(alloc, random)?;
    }
    for _ in 0..random.below(17) + 8 {
        set_up.add_any(alloc, random)?;
    }
    Ok(set_up)
}
