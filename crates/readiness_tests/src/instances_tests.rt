//! Two units, carried as far as an instance comes, call by call.

ghost use Rattle.std.specs.Prelude.{◌≡◌, ◌∷◌, [], true, false, None, IfOk};
ghost use Rattle.orc_ids.specs.declared.ids.UnitName.TheVariants.{Absolute};

use instances::Instances;
use orc_ids::{DylibId, Group, InstId, Items, NameId, Shape, SymFlags, UnitId, UnitName, Wanted};
use session_model::{InstRow, Phase, UnitKind};
use std::alloc::{AllocError, Global};
use std::test::Fail;

const FLAGS: SymFlags = SymFlags {
    weak: false,
    common: false,
    exported: true,
    callable: true,
};

/// A unit that offers one name, at its start, and wants another one.
#[derive(Drop)]
struct One;

impl UnitKind for One {
    ghost meaning = { λ u. record {
      name = Absolute 0;
      offers = (record { 0 = 0 }, record { weak = false; common = false; exported = true; callable = true }) ∷ [];
      shape = λ live. None;
      address = λ k base. base;
      source = None;
      externals = λ live. record { name = record { 0 = 1 }; weak = true } ∷ [];
      image = λ live base bound. [];
      groups = λ live base bound own. record { members = own; deps = [] } ∷ [];
      refusal = λ live base bound. None;
    } };

    fn known(&self) {}

    fn count(&self) -> u32 {
        1
    }

    fn offer(&self, _k: u32) -> (NameId, SymFlags) {
        (NameId(0), FLAGS)
    }

    fn source(&self) -> Option<DylibId> {
        None
    }

    fn share(&self, _alloc: Global) -> Result<One, AllocError> {
        Ok(One)
    }

    fn name(&self) -> UnitName {
        UnitName::Absolute(0)
    }

    fn shape(&self, _live: &[bool]) -> Option<Shape> {
        None
    }

    fn address(&self, _k: u32, base: u64) -> u64 {
        base
    }

    fn externals(&self, alloc: Global, _live: &[bool]) -> Result<Vec<Wanted>, AllocError> {
        let wanted = Wanted {
            name: NameId(1),
            weak: true,
        };
        Ok(vec![in alloc; wanted]?)
    }
}

/// The phase of a row as a letter: `-` unsearched, `c` claimed, `r` resolved, `e` emitted, `f` failed; a
/// row that isn't present is `.`.
fn letter(row: &InstRow) -> u8 {
    if !row.present {
        return b'.';
    }
    match row.phase {
        Phase::Unsearched => b'-',
        Phase::Claimed => b'c',
        Phase::Resolved(_) => b'r',
        Phase::Emitted(_, _) => b'e',
        Phase::Failed => b'f',
    }
}

/// Whether these are the letters of the rows.
fn reads(table: &Instances, letters: &[u8]) -> bool {
    let rows = table.rows();
    if rows.len() != letters.len() {
        return false;
    }
    for at in 0..rows.len() {
        if letter(&rows[at]) != letters[at] {
            return false;
        }
    }
    true
}

/// A call on two units, or what is read of them by then.
#[derive(Clone, Copy)]
enum Step<'a> {
    /// The unit of this number is claimed.
    Claim(u32),
    /// These instances fail.
    Fail(&'a [InstId]),
    /// These instances are replaced.
    Replace(&'a [InstId]),
    /// The unit of this number is removed.
    Remove(u32),
    /// The phases of the rows, a letter each.
    Reads(&'a [u8]),
    /// The names of the two rows.
    Names(u32, u32),
    /// The unsearched unit of an instance.
    Unsearched(u32, Option<UnitId>),
    /// The instances of the unit of this number.
    Own(u32, &'a [InstId]),
}

/// Two units.
#[derive(Drop)]
struct Two {
    table: Instances,
    ghost units: { table.units ≡ 2 },
}

impl Two {
    /// A unit of two names, of which the first stays, and a unit of one name.
    fn new(alloc: Global) -> Result<Two, AllocError> {
        let mut table = Instances::new(alloc);
        table.room(2)?;
        table.define(
            DylibId(0),
            &[(NameId(0), FLAGS), (NameId(1), FLAGS)],
            &[true, false],
        );
        table.room(1)?;
        table.define(DylibId(0), &[(NameId(2), FLAGS)], &[true]);
        Ok(Two { table })
    }

    fn claim(&mut self, unit: u32) -> bool {
        if unit < 2 {
            self.table.claim(UnitId(unit));
        }
        unit < 2
    }

    fn fail(&mut self, hit: &[InstId]) -> bool {
        self.table.fail(hit);
        true
    }

    fn replace(&mut self, gone: &[InstId]) -> bool {
        self.table.replace(gone);
        true
    }

    fn remove(&mut self, unit: u32) -> bool {
        if unit < 2 {
            self.table.remove(UnitId(unit));
        }
        unit < 2
    }

    /// Whether there are two rows, of these names.
    fn are_named(&self, first: u32, second: u32) -> bool {
        match self.table.rows() {
            [a, b] => a.name == NameId(first) && b.name == NameId(second),
            _ => false,
        }
    }

    /// Whether these are the unit's instances.
    fn owns(&self, unit: u32, expected: &[InstId]) -> bool {
        if unit >= 2 {
            return false;
        }
        match self.table.own(UnitId(unit)) {
            Ok(own) => own.as_slice() == expected,
            Err(_) => false,
        }
    }

    /// Whether the call is made, or that is read.
    fn makes(&mut self, step: Step<'_>) -> bool {
        match step {
            Step::Claim(unit) => self.claim(unit),
            Step::Fail(hit) => self.fail(hit),
            Step::Replace(gone) => self.replace(gone),
            Step::Remove(unit) => self.remove(unit),
            Step::Reads(letters) => reads(&self.table, letters),
            Step::Names(first, second) => self.are_named(first, second),
            Step::Unsearched(i, unit) => self.table.unsearched_unit(InstId(i)) == unit,
            Step::Own(unit, expected) => self.owns(unit, expected),
        }
    }
}

/// The number of the first step that two units don't take so, from 0 on.
fn play(alloc: Global, steps: &[Step<'_>]) -> Result<Option<usize>, AllocError> {
    let mut units = Two::new(alloc)?;
    for at in 0..steps.len() {
        if !units.makes(steps[at]) {
            return Ok(Some(at));
        }
    }
    Ok(None)
}

#[test]
fn each_name_that_stays_has_an_instance(rt: HostRuntime) -> Result<(), Fail> {
    let steps = [
        Step::Reads(b"--"),
        Step::Names(0, 2),
        Step::Own(0, &[InstId(0)]),
        Step::Own(1, &[InstId(1)]),
    ];
    assert_eq!(rt; play(rt.alloc(), &steps)?, None);
    Ok(())
}

#[test]
fn a_claim_is_of_one_unit(rt: HostRuntime) -> Result<(), Fail> {
    let steps = [
        Step::Unsearched(1, Some(UnitId(1))),
        Step::Claim(1),
        Step::Reads(b"-c"),
        Step::Unsearched(1, None),
        Step::Unsearched(2, None),
    ];
    assert_eq!(rt; play(rt.alloc(), &steps)?, None);
    Ok(())
}

#[test]
fn what_fails_goes_or_is_replaced(rt: HostRuntime) -> Result<(), Fail> {
    let steps = [
        Step::Fail(&[InstId(1), InstId(7)]),
        Step::Reads(b"-f"),
        Step::Replace(&[InstId(0)]),
        Step::Reads(b".f"),
        Step::Remove(1),
        Step::Reads(b".."),
        Step::Own(1, &[]),
    ];
    assert_eq!(rt; play(rt.alloc(), &steps)?, None);
    Ok(())
}

/// Emitted at 64, and dependent on the first instance.
fn depends_on_itself(phase: &Phase) -> bool {
    match phase {
        Phase::Emitted(address, deps) => {
            *address == 64 && deps.as_slice() == [InstId(0)].as_slice()
        }
        _ => false,
    }
}

/// The one instance is Emitted at 64, and depends on itself.
fn is_emitted(table: &Instances) -> bool {
    match table.rows() {
        [row] => depends_on_itself(&row.phase),
        _ => false,
    }
}

/// A group of the first instance, which depends on itself.
fn group_of_first(alloc: Global) -> Result<Group, AllocError> {
    Ok(Group {
        members: Items::from_vec(vec![in alloc; InstId(0)]?),
        deps: Items::from_vec(vec![in alloc; InstId(0)]?),
    })
}

/// A unit of one name, claimed and resolved at 64.
fn resolved_unit(alloc: Global) -> Result<Instances, AllocError>
    ensures { IfOk result (λ table. table.units ≡ 1) }
{
    let mut table = Instances::new(alloc);
    table.room(1)?;
    table.define(DylibId(0), &[(NameId(0), FLAGS)], &[true]);
    table.claim(UnitId(0));
    table.resolve(UnitId(0), &One, 64);
    Ok(table)
}

/// Whether a unit is resolved, and emitted then.
fn is_resolved_and_emitted(alloc: Global) -> Result<[bool; 2], AllocError> {
    let group = group_of_first(alloc)?;
    let mut table = resolved_unit(alloc)?;
    let resolved = reads(&table, b"r");
    table.emit(UnitId(0), &[group])?;
    Ok([resolved, is_emitted(&table)])
}

#[test]
fn a_unit_is_resolved_and_emitted(rt: HostRuntime) -> Result<(), Fail> {
    assert_eq!(rt; is_resolved_and_emitted(rt.alloc())?, [true, true]);
    Ok(())
}
