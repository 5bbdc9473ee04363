//! Random units: few names and externals, little memory or none or too much, and aliases.

use crate::random::Random;
use orc_ids::{DylibId, NameId, Place, Shape, SymFlags, UnitName, Wanted};
use session_check::KnownUnit;
use std::alloc::{AllocError, Global};

/// How many names there are.
pub const NAMES: u32 = 6;

/// How many dylibs are spoken of.
pub const DYLIBS: u32 = 3;

/// How many bytes of code memory there are.
const ALL: u64 = 0x400_0000;

/// One of the names.
pub fn name(random: &mut Random) -> NameId {
    NameId(random.below(NAMES))
}

/// One of the dylibs that are spoken of.
pub fn dylib(random: &mut Random) -> DylibId {
    DylibId(random.below(DYLIBS))
}

/// Mostly strong and exported.
fn flags(random: &mut Random) -> SymFlags {
    let weak = random.once_in(3);
    SymFlags {
        weak,
        common: weak && random.once_in(2),
        exported: !random.once_in(4),
        callable: random.once_in(2),
    }
}

/// Up to three names, which differ.
fn offers(alloc: Global, random: &mut Random) -> Result<Vec<(NameId, SymFlags)>, AllocError> {
    let mut offers = Vec::new(alloc);
    for n in 0..NAMES {
        if offers.as_slice().len() < 3 && random.once_in(3) {
            offers.push((NameId(n), flags(random)))?;
        }
    }
    Ok(offers)
}

/// Up to two names, some of which may be missing.
fn externals(alloc: Global, random: &mut Random) -> Result<Vec<Wanted>, AllocError> {
    let mut wanted = Vec::new(alloc);
    for _ in 0..random.below(3) {
        wanted.push(Wanted {
            name: name(random),
            weak: random.once_in(4),
        })?;
    }
    Ok(wanted)
}

/// Mostly 1 to 64 bytes; none, or more than there are.
fn shape(random: &mut Random) -> Option<Shape> {
    let align = 1 << random.below(6);
    match random.below(8) {
        0 => None,
        1 => Some(Shape {
            need: ALL + 16,
            align,
        }),
        _ => Some(Shape {
            need: u64::from(random.below(64)) + 1,
            align,
        }),
    }
}

/// One edge of twelve is out of range.
fn refusal(random: &mut Random) -> Option<(Place, u32, i64)> {
    if random.once_in(12) {
        let place = Place {
            block: 0,
            offset: 4,
        };
        Some((place, 17, 1_048_576))
    } else {
        None
    }
}

/// What a unit is made of, but for an alias.
fn made(alloc: Global, random: &mut Random) -> Result<Option<KnownUnit>, AllocError> {
    let offers = offers(alloc, random)?;
    let externals = externals(alloc, random)?;
    let shape = shape(random);
    let refusal = refusal(random);
    Ok(KnownUnit::new(UnitName::Object(0), offers, shape, externals, refusal))
}

/// A unit; one in four is an alias.
pub fn unit(alloc: Global, random: &mut Random) -> Result<Option<KnownUnit>, AllocError> {
    if random.once_in(4) {
        let alias = KnownUnit::alias(
            alloc,
            UnitName::Absolute(0),
            name(random),
            dylib(random),
            name(random),
        )?;
        return Ok(Some(alias));
    }
    made(alloc, random)
}
