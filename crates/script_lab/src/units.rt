//! Random units: few names, so that definitions meet, and little memory or none or too much.
ghost use Rattle.std.specs.Prelude.{◌≡◌, None, IfOk, IfSome};
ghost use Rattle.std.specs.Prelude.{◌<◌};
ghost use Rattle.script_lab.specs.Units.{lab_meaning};

use crate::random::Random;
use crate::unit::LabUnit;
use orc_ids::{DylibId, NameId, Place, Shape, SymFlags, UnitName, Wanted};
use session_check::KnownUnit;
use std::alloc::{AllocError, Global};

/// How many names units offer.
const OFFERED: u32 = 6;

/// How many names there are.
const NAMES: u32 = 7;

/// How many bytes of code memory there are.
const ALL: u64 = 0x400_0000;

/// One of the names; one of them is offered by no unit.
pub fn name(random: &mut Random) -> NameId {
    NameId(random.below(NAMES))
}

/// One of so many dylibs.
fn dylib(random: &mut Random, dylibs: u32) -> DylibId
    requires { 0 < dylibs }
    ensures { result.0 < dylibs }
{
    DylibId(random.below(dylibs))
}

/// Mostly strong and exported.
fn flags(random: &mut Random) -> SymFlags {
    let weak = random.once_in(2);
    SymFlags {
        weak,
        common: weak && random.once_in(2),
        exported: !random.once_in(5),
        callable: random.once_in(2),
    }
}

/// Up to three names, which differ.
fn offers(alloc: Global, random: &mut Random) -> Result<Vec<(NameId, SymFlags)>, AllocError> {
    let mut offers = Vec::new(alloc);
    for n in 0..OFFERED {
        if offers.as_slice().len() < 3 && random.once_in(3) {
            offers.push((NameId(n), flags(random)))?;
        }
    }
    Ok(offers)
}

/// Up to two names, some of which may be missing.
fn externals(alloc: Global, random: &mut Random) -> Result<Vec<Wanted>, AllocError> {
    let mut wanted = Vec::new(alloc);
    for _ in 0..random.below(3) {
        wanted.push(Wanted {
            name: name(random),
            weak: random.once_in(2),
        })?;
    }
    Ok(wanted)
}

/// Room for the code of three names and some more; once in a while more than there is.
fn shape(random: &mut Random) -> Shape {
    let align = 4 << random.below(5);
    let need = if random.once_in(16) {
        ALL + 8
    } else {
        u64::from(random.below(6)) * 8 + 24
    };
    Shape { need, align }
}

/// One unit of sixteen has an edge that is out of range.
fn refusal(random: &mut Random) -> Option<(Place, u32, i64)> {
    if random.once_in(16) {
        let place = Place {
            block: 0,
            offset: 4,
        };
        Some((place, 17, 1_048_576))
    } else {
        None
    }
}

/// The name, the memory and the externals of a unit: one of eight has absolute symbols alone.
fn kind(
    alloc: Global,
    random: &mut Random,
    number: u32,
) -> Result<(UnitName, Option<Shape>, Vec<Wanted>), AllocError> {
    if random.once_in(8) {
        Ok((UnitName::Absolute(number), None, Vec::new(alloc)))
    } else {
        let shape = Some(shape(random));
        Ok((UnitName::Object(number), shape, externals(alloc, random)?))
    }
}

/// A unit, with a number that a run of it answers; no alias.
pub fn object(alloc: Global, random: &mut Random, number: u32) -> Result<LabUnit, AllocError>
    ensures { IfOk result (λ unit. (lab_meaning unit).source ≡ None) }
{
    let offers = offers(alloc, random)?;
    let (name, shape, externals) = kind(alloc, random, number)?;
    let refusal = refusal(random);
    match KnownUnit::new(name, offers, shape, externals, refusal) {
        Some(known) => Ok(LabUnit {
            known,
            answer: (number % 256) as u8,
        }),
        None => Err(AllocError),
    }
}

/// An alias of a name in one of so many dylibs.
pub fn alias(
    alloc: Global,
    random: &mut Random,
    dylibs: u32,
    number: u32,
) -> Result<LabUnit, AllocError>
    requires { 0 < dylibs }
    ensures { IfOk result (λ unit. IfSome (lab_meaning unit).source (λ source. source.0 < dylibs)) }
{
    let name = NameId(random.below(OFFERED));
    let source = dylib(random, dylibs);
    let target = NameId(random.below(NAMES));
    Ok(LabUnit {
        known: KnownUnit::alias(alloc, UnitName::Alias(number), name, source, target)?,
        answer: 0,
    })
}
