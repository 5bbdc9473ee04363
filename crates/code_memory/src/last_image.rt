ghost use Rattle.std.specs.Prelude.{◌≡◌, IfOk, IsTrue};
ghost use Rattle.std.specs.Arc.{arc_value};
ghost use Rattle.std.specs.BTreeMap as tree;
ghost use Rattle.code_memory.specs.Kept.{keyed};
ghost use Rattle.code_memory.specs.LastImage.{based_below, lowest, IsSame, IsLastOf, IsLastOfAny, Touches, Leaves};
ghost use Rattle.code_memory.specs.Mapped.{AreSegments};
ghost use Rattle.code_memory.specs.Places.{deposits, AreLaidOut};

use crate::image::{Image, Segment};
use crate::placement::Placement;
use crate::ranges::{is_deposited, list_deposits, renew};
use std::alloc::{AllocError, Global};
use std::collections::BTreeMap;
use std::sync::Arc;

/// The image that was asked for last, unless none was or memory ran out since, and the lowest base
/// at which what is deposited has changed since then.
#[derive(Drop)]
pub(crate) struct LastImage {
    image: Option<Image>,
    changed: Option<u64>,
}

impl LastImage {
    /// Nothing was asked for; takes no memory.
    pub(crate) fn new() -> LastImage
        ensures { IsLastOfAny result }
    {
        LastImage {
            image: None,
            changed: None,
        }
    }

    /// From which base on there may be deposits that no image has shared.
    pub(crate) fn unshared_from(&self) -> u64 {
        match &self.image {
            Some(_) => self.changed.unwrap_or(u64::MAX),
            None => 0,
        }
    }

    /// What is deposited changed at a base.
    pub(crate) fn touch(&mut self, base: u64)
        ensures { Touches base self.old self.new }
    {
        self.changed = Some(lower_of(self.changed, base));
    }

    /// The placement at a base goes.
    pub(crate) fn leave(&mut self, placed: &BTreeMap<u64, Placement>, base: u64)
        ensures { Leaves placed.now.entries base self.old self.new }
    {
        if !is_deposited(placed, base) {
            return;
        }
        self.touch(base);
    }

    /// An image of what is deposited, at the cost of what changed since the last one. Where memory
    /// runs out, the next one is made anew.
    pub(crate) fn show(
        &mut self,
        alloc: Global,
        placed: &BTreeMap<u64, Placement>,
    ) -> Result<Image, AllocError>
        requires laid_out { AreLaidOut (tree.values placed.now) }
        requires by_base { placed.now.entries ≡ keyed (tree.values placed.now) }
        requires last { IsLastOf self.old (deposits (tree.values placed.now)) }
        ensures image { IfOk result (λ image. image ≡ deposits (tree.values placed.now)) }
        ensures last { IsLastOf self.new (deposits (tree.values placed.now)) }
    {
        let current = self.take_current(alloc, placed)?;
        let image = current.share()?;
        self.image = Some(current);
        self.changed = None;
        Ok(image)
    }

    /// The last image, brought up to date, or the first.
    fn take_current(
        &mut self,
        alloc: Global,
        placed: &BTreeMap<u64, Placement>,
    ) -> Result<Image, AllocError>
        requires laid_out { AreLaidOut (tree.values placed.now) }
        requires by_base { placed.now.entries ≡ keyed (tree.values placed.now) }
        requires last { IsLastOf self.old (deposits (tree.values placed.now)) }
        ensures image { IfOk result (λ image. image ≡ deposits (tree.values placed.now)) }
        ensures taken { IsLastOfAny self.new }
    {
        match self.image.take() {
            Some(image) => up_to_date(alloc, image, self.changed, placed),
            None => new_image(alloc, placed),
        }
    }
}

/// The lower of two bases, or the one that there is.
fn lower_of(changed: Option<u64>, base: u64) -> u64
    ensures { result ≡ lowest changed base }
{
    match changed {
        Some(earlier) if earlier < base => earlier,
        _ => base,
    }
}

/// An image that is up to date, of one that was the last.
fn up_to_date(
    alloc: Global,
    image: Image,
    changed: Option<u64>,
    placed: &BTreeMap<u64, Placement>,
) -> Result<Image, AllocError>
    requires laid_out { AreLaidOut (tree.values placed.now) }
    requires by_base { placed.now.entries ≡ keyed (tree.values placed.now) }
    requires same { IsSame changed image (deposits (tree.values placed.now)) }
    ensures { IfOk result (λ image. image ≡ deposits (tree.values placed.now)) }
{
    match changed {
        Some(base) => renew_image(alloc, image, base, placed),
        None => Ok(image),
    }
}

/// An image that is up to date, of one that is so below a base: its list is used again, unless
/// another image has it.
fn renew_image(
    alloc: Global,
    image: Image,
    base: u64,
    placed: &BTreeMap<u64, Placement>,
) -> Result<Image, AllocError>
    requires laid_out { AreLaidOut (tree.values placed.now) }
    requires by_base { placed.now.entries ≡ keyed (tree.values placed.now) }
    requires same { based_below base image ≡ based_below base (deposits (tree.values placed.now)) }
    ensures { IfOk result (λ image. image ≡ deposits (tree.values placed.now)) }
{
    let mut list = image.into_list();
    if renew_alone(alloc, &mut list, base, placed)? {
        return Ok(Image::from_list(list));
    }
    new_image(alloc, placed)
}

/// Brings a list up to date that is so below a base, unless another image has it.
fn renew_alone(
    alloc: Global,
    list: &mut Arc<Vec<Segment>, Global>,
    base: u64,
    placed: &BTreeMap<u64, Placement>,
) -> Result<bool, AllocError>
    requires laid_out { AreLaidOut (tree.values placed.now) }
    requires by_base { placed.now.entries ≡ keyed (tree.values placed.now) }
    requires segments { AreSegments (arc_value list.old).items }
    requires same { based_below base (arc_value list.old).items ≡ based_below base (deposits (tree.values placed.now)) }
    ensures { IfOk result (λ alone. IsTrue alone → (arc_value list.new).items ≡ deposits (tree.values placed.now)) }
{
    match Arc::get_mut(list) {
        Some(segments) => {
            renew(alloc, segments, base, placed)?;
            Ok(true)
        }
        None => Ok(false),
    }
}

/// An image that has nothing of an earlier one.
fn new_image(alloc: Global, placed: &BTreeMap<u64, Placement>) -> Result<Image, AllocError>
    requires { AreLaidOut (tree.values placed.now) }
    ensures { IfOk result (λ image. image ≡ deposits (tree.values placed.now)) }
{
    let segments = list_deposits(alloc, placed)?;
    Ok(Image::from_list(Arc::new(alloc, segments)?))
}
