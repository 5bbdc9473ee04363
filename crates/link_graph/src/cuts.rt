ghost use Rattle.std.specs.Prelude.{◌≡◌, ◌<◌, ◌≤◌, ◌^◌, length, pos, IfOk};
ghost use Rattle.std.specs.List.{AllWithin};
ghost use Rattle.link_graph.specs.Padding.{boundary, padding, needed, is_align, cut_of, cuts_of, deleted, moved, raised, AreMet, all_cuts};
ghost use Rattle.link_graph.specs.Parts.{InTurn};
ghost use Rattle.link_graph.specs.declared.cuts.Cut.{Cut as CutSeen};

use elf_read::{Reloc, Section};
use link_model::kinds::ALIGN;
use std::alloc::{AllocError, Global};
use std::marker::Model;

/// The greatest boundary that an ALIGN may ask for.
pub const BOUNDARY_LIMIT: u64 = 4_096;

/// The bytes that are deleted of one ALIGN's padding, by their places in the section.
#[derive(Clone, Copy)]
pub(crate) struct Cut {
    pub(crate) from: u64,
    pub(crate) to: u64,
    /// How many bytes of the section are deleted before these.
    pub(crate) before: u64,
    pub(crate) boundary: u64,
}

/// The cuts of a section, in order. Contracts see the list.
#[derive(Drop)]
pub(crate) struct Cuts {
    items: Vec<Cut>,
}

impl Model for Cuts {
    ghost use Rattle.std.specs.Prelude.{List};
    ghost use Rattle.link_graph.specs.declared.cuts.Cut.{Cut};
    ghost use Rattle.link_graph.specs.Parts.{InTurn};

    ghost Value = { List Cut };

    ghost view = { λ c. c.items.items };

    ghost invariant = { λ c. InTurn 0 0 c.items.items };
}

impl Cuts {
    pub(crate) fn as_slice(&self) -> &[Cut]
        ensures same { result.now ≡ self.now }
        ensures in_turn { InTurn 0 0 self.now }
    {
        self.items.as_slice()
    }

    /// How many deleted bytes lie before a place. The time is logarithmic in the number of cuts.
    pub(crate) fn deleted(&self, at: u64) -> u64
        ensures exact { result ≡ deleted self.now at }
        ensures few { result ≤ at }
    {
        deleted_before(self.items.as_slice(), at)
    }

    /// Where a place of the file is after deletion.
    pub(crate) fn moved(&self, at: u64) -> u64
        ensures { result ≡ moved self.now at }
    {
        at - self.deleted(at)
    }

    /// The greatest of an alignment and the boundaries.
    pub(crate) fn raised(&self, align: u64) -> u64
        ensures { result ≡ raised align self.now }
    {
        self.items
            .iter()
            .fold(align, |align, cut| align.max(cut.boundary))
    }
}

/// How many cuts start before a place.
fn cuts_before(cuts: &[Cut], at: u64) -> usize
    requires { InTurn 0 0 cuts.now }
    ensures before { AllWithin (λ (c : CutSeen). c.from < at) cuts.now 0 result }
    ensures after { AllWithin (λ (c : CutSeen). at ≤ c.from) cuts.now result (length cuts.now) }
    ensures few { result ≤ length cuts.now }
{
    cuts.partition_point(|cut| cut.from < at)
}

fn deleted_before(cuts: &[Cut], at: u64) -> u64
    requires { InTurn 0 0 cuts.now }
    ensures exact { result ≡ deleted cuts.now at }
    ensures few { result ≤ at }
{
    let count = cuts_before(cuts, at);
    if count == 0 {
        return 0;
    }
    let last = cuts[count - 1];
    last.before + (at - last.from).min(last.to - last.from)
}

/// Whether the relocation is an ALIGN.
pub(crate) fn is_align(r: &Reloc) -> bool
    ensures { result ≡ is_align r.now }
{
    r.kind == ALIGN
}

/// The length of an ALIGN's padding.
pub(crate) fn padding(addend: i64) -> u64
    ensures exact { result ≡ padding addend }
    ensures small { result < 2 ^ 63 }
{
    addend.max(0) as u64
}

/// The least power of two that is greater.
pub(crate) fn power_over(a: u64) -> u64
    requires { a < 2 ^ 63 }
    ensures exact { result ≡ boundary a }
    ensures positive { 0 < result }
    ensures small { result ≤ 2 ^ 63 }
{
    let mut power = 1;
    for round in 0..64_u32 {
        if a < power {
            return power;
        }
        power = 2 * power;
    }
    power
}

/// How many bytes of padding lead from a place to the next multiple of a boundary.
pub(crate) fn needed(at: u64, boundary: u64) -> u64
    requires { 0 < boundary }
    ensures exact { result ≡ needed at boundary }
    ensures small { result < boundary }
{
    (boundary - at % boundary) % boundary
}

/// The cut of the padding at a place, if it can be made.
fn padding_cut(size: u64, end: u64, before: u64, at: u64, padding: u64) -> Option<Cut>
    requires { padding < 2 ^ 63 }
    ensures { result ≡ cut_of size end before at (pos padding) }
{
    if at < end || size < padding || size - padding < at {
        return None;
    }
    let boundary = power_over(padding);
    let kept = needed(at.saturating_sub(before), boundary);
    if boundary > BOUNDARY_LIMIT || kept > padding {
        return None;
    }
    Some(Cut {
        from: at + kept,
        to: at + padding,
        before,
        boundary,
    })
}

/// The cut of an ALIGN, if it can be made. The cuts before it end at `end`, and delete `before` bytes.
pub(crate) fn cut_of(size: u64, end: u64, before: u64, r: &Reloc) -> Option<Cut>
    ensures { result ≡ cut_of size end before r.now.at r.now.addend }
{
    if r.addend < 0 {
        return None;
    }
    padding_cut(size, end, before, r.at, r.addend as u64)
}

/// The cuts of a section, found in one pass over its relocations.
fn section_cuts(alloc: Global, section: &Section) -> Result<Cuts, AllocError>
    ensures exact { IfOk result (λ cuts. cuts ≡ cuts_of section.now) }
    ensures met { IfOk result (λ cuts. AreMet cuts) }
{
    let mut items = Vec::new(alloc);
    let mut end = 0;
    let mut before = 0;
    for r in section.relocs.as_slice() {
        if is_align(r) {
            let Some(cut) = cut_of(section.size, end, before, r) else {
                return Ok(Cuts { items });
            };
            items.push(cut)?;
            end = cut.to;
            before += cut.to - cut.from;
        }
    }
    Ok(Cuts { items })
}

/// The cuts of each section.
pub(crate) fn all_cuts(alloc: Global, sections: &[Section]) -> Result<Vec<Cuts>, AllocError>
    ensures { IfOk result (λ cuts. cuts.items ≡ all_cuts sections.now) }
{
    let mut cuts = Vec::new(alloc);
    for section in sections {
        cuts.push(section_cuts(alloc, section)?)?;
    }
    Ok(cuts)
}
