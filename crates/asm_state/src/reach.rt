ghost use Rattle.std.specs.Prelude.{◌≡◌};
ghost use Rattle.link_model.specs.declared.kinds.Span.TheVariants.{Branch, Jump};
ghost use Rattle.link_model.specs.Kinds.{in_span};
ghost use Rattle.asm_state.specs.Reach as want;

use crate::marks::{Definition, Marks};
use orc_words::fits_signed;
use rv_insn::Insn;

/// How far a local label of the same section is from a place.
#[tactic(auto, unfolding(crate::specs::Reach::distance_to))]
pub fn distance_to(section: u32, at: u64, marks: Marks) -> Option<i128>
    ensures { result ≡ want.distance_to section at marks }
{
    if marks.global || marks.weak {
        return None;
    }
    label_distance(section, at, marks.definition)
}

fn label_distance(section: u32, at: u64, definition: Definition) -> Option<i128>
    ensures { result ≡ want.label_distance section at definition }
{
    match definition {
        Definition::Label {
            section: place,
            offset,
        } => (place == section).then_some(offset as i128 - at as i128),
        _ => None,
    }
}

fn is_even(n: i64) -> bool
    ensures { result ≡ want.is_even n }
{
    n.cast_unsigned() & 1 == 0
}

fn is_jump_distance(distance: i128) -> bool
    ensures { result ≡ in_span Jump distance }
{
    fits_signed::<21>(distance) && is_even(distance as i64)
}

fn is_branch_distance(distance: i128) -> bool
    ensures { result ≡ in_span Branch distance }
{
    fits_signed::<13>(distance) && is_even(distance as i64)
}

/// Whether a branch or a jump can go so far.
#[tactic(auto, unfolding(crate::specs::Reach::reaches))]
pub fn reaches(insn: Insn, distance: i128) -> bool
    ensures { result ≡ want.reaches insn distance }
{
    match insn {
        Insn::Jal { .. } => is_jump_distance(distance),
        _ => is_branch_distance(distance),
    }
}

/// Whether a branch or a jump is filled in and can't go so far.
pub fn is_far(insn: Insn, distance: Option<i128>) -> bool
    ensures { result ≡ want.is_far insn distance }
{
    match distance {
        None => false,
        Some(distance) => !reaches(insn, distance),
    }
}
