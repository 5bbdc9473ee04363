ghost use Rattle.std.specs.Prelude.{◌≡◌, ◌↔◌, ℕ, ◌<◌, ◌≤◌, ◌^◌, ◌+◌, ◌++◌, map, length, slice_get, All, IsTrue, IfOk, IfSome, IfNone, filter_map, ◌∷◌, [], OnOk};
ghost use Rattle.session_model.specs.Answer.{AnswersPlace, Apart};
ghost use Rattle.session_model.specs.Plain.{placement, placements, unit_shape};
ghost use Rattle.session_plain.specs.Meant.{meant, unit_row, LiveFit};
ghost use Rattle.session_plain.specs.Placing.{align_up, FitsAt, FitsNotBehind};

use crate::calls::shape_of;
use crate::plain::{PlainSession, PlainUnit};
use orc_ids::{CODE_END, CODE_START, Shape};
use session_model::{Range, Reply, UnitKind};
use std::alloc::{AllocError, Global};

/// The range of a unit that is placed.
fn range_of<U: UnitKind>(x: &PlainUnit<U>) -> Option<Range>
    requires { length x.now.live ≡ length (U.meaning x.now.unit).offers }
    ensures { result ≡ placement (unit_row U.meaning x.now) }
{
    match (x.base, shape_of(x)) {
        (Some(base), Some(shape)) => Some(Range {
            base,
            need: shape.need,
        }),
        _ => None,
    }
}

fn keep_range(all: &mut Vec<Range>, range: Option<Range>) -> Result<(), AllocError>
    ensures { OnOk result (all.new.items ≡ all.old.items ++ filter_map (λ r. r) (range ∷ [])) }
{
    if let Some(range) = range {
        all.push(range)?;
    }
    Ok(())
}

/// The ranges of all units that are placed.
fn ranges<U: UnitKind>(alloc: Global, units: &[PlainUnit<U>]) -> Result<Vec<Range>, AllocError>
    requires { LiveFit U.meaning units.now }
    ensures { IfOk result (λ all. all.items ≡ placements (map (unit_row U.meaning) units.now)) }
{
    let mut all = Vec::new(alloc);
    for x in units {
        keep_range(&mut all, range_of(x))?;
    }
    Ok(all)
}

fn end_of(r: Range) -> u128
    ensures end { result ≡ r.base + r.need }
    ensures within { result < 2 ^ 65 }
{
    r.base as u128 + r.need as u128
}

fn is_apart(r: Range, base: u64, need: u64) -> bool
    ensures { IsTrue result ↔ Apart r base need }
{
    end_of(r) <= base as u128 || base as u128 + need as u128 <= r.base as u128
}

fn all_apart(ranges: &[Range], base: u64, need: u64) -> bool
    ensures { IsTrue result ↔ All (λ r. Apart r base need) ranges.now }
{
    for r in ranges {
        if !is_apart(*r, base, need) {
            return false;
        }
    }
    true
}

/// Whether the base is aligned, in code memory, and apart from all of the ranges.
fn fits_at(ranges: &[Range], shape: Shape, base: u64) -> bool
    requires { 0 < shape.align }
    ensures { IsTrue result ↔ FitsAt ranges.now shape base }
{
    base % shape.align == 0
        && CODE_START <= base
        && base as u128 + shape.need as u128 <= CODE_END as u128
        && all_apart(ranges, base, shape.need)
}

/// The least multiple of the alignment that is no less.
fn aligned(at: u128, align: u64) -> u128
    requires at { at < 2 ^ 66 }
    requires align { 0 < align }
    ensures aligned { result ≡ align_up at align }
    ensures within { result < 2 ^ 67 }
{
    let step = align as u128;
    (at + (step - 1)) / step * step
}

/// Whether the base right behind this address fits.
fn fits_behind(ranges: &[Range], shape: Shape, at: u128) -> bool
    requires at { at < 2 ^ 66 }
    requires align { 0 < shape.align }
    ensures { IsTrue result ↔ FitsAt ranges.now shape (align_up at shape.align) }
{
    let base = aligned(at, shape.align);
    base <= CODE_END as u128 && fits_at(ranges, shape, base as u64)
}

/// Whether no base fits. The lowest one that does lies right behind the start of code memory, or
/// behind one of the ranges.
fn fits_nowhere(ranges: &[Range], shape: Shape) -> bool
    requires { 0 < shape.align }
    ensures { IsTrue result ↔ ((base : ℕ) → FitsAt ranges.now shape base → ⊥) }
{
    if fits_behind(ranges, shape, CODE_START as u128) {
        return false;
    }
    for r in ranges {
        if fits_behind(ranges, shape, end_of(*r)) {
            return false;
        }
    }
    true
}

/// Whether this is what is needed, and no base fits.
fn lacks_room(ranges: &[Range], shape: Shape, need: u64) -> bool
    requires { 0 < shape.align }
    ensures { IsTrue result ↔ (need ≡ shape.need) × ((base : ℕ) → FitsAt ranges.now shape base → ⊥) }
{
    need == shape.need && fits_nowhere(ranges, shape)
}

/// Whether a unit of this shape may be placed so.
fn answers_place<U: UnitKind>(
    alloc: Global,
    s: &PlainSession<U>,
    shape: Shape,
    reply: &Reply,
) -> Result<bool, AllocError>
    requires live { LiveFit U.meaning s.now.units.items }
    requires align { 0 < shape.align }
    ensures { IfOk result (λ right. IsTrue right ↔ AnswersPlace (meant U.meaning s.now) shape reply.now) }
{
    let taken = ranges(alloc, &s.units)?;
    match reply {
        Reply::Placed(base) => Ok(fits_at(&taken, shape, *base)),
        Reply::NoRoom(need) => Ok(lacks_room(&taken, shape, *need)),
        _ => Ok(false),
    }
}

fn shape_is(a: Shape, b: Shape) -> bool
    ensures { IsTrue result ↔ (a ≡ b) }
{
    a.need == b.need && a.align == b.align
}

/// Whether a unit that may be placed needs this memory, and is placed so.
pub fn may_be_placed<U: UnitKind>(
    alloc: Global,
    s: &PlainSession<U>,
    x: &PlainUnit<U>,
    shape: Shape,
    reply: &Reply,
) -> Result<bool, AllocError>
    requires session { LiveFit U.meaning s.now.units.items }
    requires unit { length x.now.live ≡ length (U.meaning x.now.unit).offers }
    ensures { IfOk result (λ right. IsTrue right ↔ (unit_shape (unit_row U.meaning x.now) ≡ Some shape) × AnswersPlace (meant U.meaning s.now) shape reply.now) }
{
    x.unit.known();
    match shape_of(x) {
        Some(own) => {
            if shape_is(own, shape) {
                answers_place(alloc, s, shape, reply)
            } else {
                Ok(false)
            }
        }
        None => Ok(false),
    }
}
