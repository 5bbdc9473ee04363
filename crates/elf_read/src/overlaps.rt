ghost use Rattle.std.specs.Prelude.{◌≡◌, ℕ, ◌+◌, ◌<◌, ◌≤◌, ◌||◌, false, length, slice_index_or, MatchBool, OnOk, IfOk, replicate, None, IsTrue};
ghost use Rattle.elf_read.specs.Choice.{Agrees, AgreesIfRoom, first_below};
ghost use Rattle.elf_read.specs.File.{section, lies_in};
ghost use Rattle.elf_read.specs.Index.{within, is_owned, spans_at, taken_by, takers};
ghost use Rattle.elf_read.specs.Sections.{is_used, takes_bytes, section_refusal, overlap_refusal};

use crate::error::ElfError;
use crate::gabi::{HEADER_SIZE, SECTION_SIZE};
use crate::sections::is_used_section;
use crate::spans::{Span, lie_apart};
use crate::table::Table;
use std::alloc::{AllocError, Global};

/// Whether no byte of a range is taken.
fn is_free(taken: &[bool], start: usize, size: usize) -> bool
    requires { start + size ≤ length taken.now }
    ensures { MatchBool result
        ((k : ℕ) → start ≤ k → k < start + size → slice_index_or taken.now k false ≡ false)
        ((k : ℕ) × (start ≤ k) × (k < start + size) × IsTrue (slice_index_or taken.now k false)) }
{
    for k in start..start + size {
        if taken[k] {
            return false;
        }
    }
    true
}

/// Takes the bytes of a range.
fn take(taken: &mut [bool], start: usize, size: usize)
    requires { start + size ≤ length taken.old }
    ensures { (k : ℕ) → k < length taken.old → slice_index_or taken.new k false ≡ (slice_index_or taken.old k false || within start size k) }
{
    for k in start..start + size {
        taken[k] = true;
    }
}

/// Whether section i takes bytes of the file.
#[tactic(auto, unfolding(crate::specs::Sections::takes_bytes))]
fn takes(table: &Table, i: u32) -> bool
    ensures { result ≡ takes_bytes table.now i }
{
    is_used_section(table, i) && table.section(i).size > 0
}

/// Takes the bytes of section i, which no earlier part of the file may have taken.
fn check_overlap(taken: &mut [bool], table: &Table, i: u32) -> Result<(), ElfError>
    requires number { i < table.now.count }
    requires inside { IsTrue (is_used table.now i) → IsTrue (lies_in table.now.bytes (section table.now i).offset (section table.now i).size) }
    requires len { length taken.old ≡ length table.now.bytes }
    requires owned { (k : ℕ) → k < length taken.old → slice_index_or taken.old k false ≡ is_owned table.now i k }
    ensures agrees { Agrees result (overlap_refusal table.now i) }
    ensures owned { OnOk result ((k : ℕ) → k < length taken.new → slice_index_or taken.new k false ≡ is_owned table.now (i + 1) k) }
{
    if !takes(table, i) {
        return Ok(());
    }
    let section = table.section(i);
    let (start, size) = (section.offset as usize, section.size as usize);
    if !is_free(taken, start, size) {
        return Err(ElfError::Overlap(i));
    }
    take(taken, start, size);
    Ok(())
}

fn check_each(taken: &mut [bool], table: &Table) -> Result<(), ElfError>
    requires sections { first_below table.now.count (section_refusal table.now) ≡ None }
    requires len { length taken.old ≡ length table.now.bytes }
    requires owned { (k : ℕ) → k < length taken.old → slice_index_or taken.old k false ≡ is_owned table.now 0 k }
    ensures { Agrees result (first_below table.now.count (overlap_refusal table.now)) }
{
    for i in 0..table.count() {
        check_overlap(taken, table, i)?;
    }
    Ok(())
}

fn check_parts(taken: &mut [bool], table: &Table) -> Result<(), ElfError>
    requires sections { first_below table.now.count (section_refusal table.now) ≡ None }
    requires none { taken.old ≡ replicate (length table.now.bytes) false }
    ensures { Agrees result (first_below table.now.count (overlap_refusal table.now)) }
{
    let place = table.place();
    take(taken, 0, HEADER_SIZE);
    take(taken, place, SECTION_SIZE * table.count() as usize);
    check_each(taken, table)
}

/// The same, by a look at each byte of the file that is taken.
fn check_bytes(alloc: Global, table: &Table) -> Result<(), ElfError>
    requires { first_below table.now.count (section_refusal table.now) ≡ None }
    ensures { AgreesIfRoom result (first_below table.now.count (overlap_refusal table.now)) }
{
    let mut taken = Vec::new(alloc);
    taken.resize(table.bytes().len(), false)?;
    check_parts(&mut taken, table)
}

/// The spans of the header and of the section table.
fn opening_spans(alloc: Global, table: &Table) -> Result<Vec<Span>, AllocError>
    ensures { IfOk result (λ spans. (k : ℕ) → spans_at spans.items k ≡ takers table.now 0 k) }
{
    let mut spans = Vec::new(alloc);
    spans.push(Span {
        start: 0,
        size: HEADER_SIZE as u64,
    })?;
    spans.push(Span {
        start: table.place() as u64,
        size: SECTION_SIZE as u64 * table.count() as u64,
    })?;
    Ok(spans)
}

/// Adds the span of section i, if it takes bytes.
fn add_section(spans: &mut Vec<Span>, table: &Table, i: u32) -> Result<(), AllocError>
    ensures { OnOk result ((k : ℕ) → spans_at spans.new.items k ≡ spans_at spans.old.items k + taken_by table.now i k) }
{
    if !takes(table, i) {
        return Ok(());
    }
    let section = table.section(i);
    spans.push(Span {
        start: section.offset,
        size: section.size,
    })?;
    Ok(())
}

/// The spans of the header, of the section table and of the sections that take bytes.
fn taken_spans(alloc: Global, table: &Table) -> Result<Vec<Span>, AllocError>
    ensures { IfOk result (λ spans. (k : ℕ) → spans_at spans.items k ≡ takers table.now table.now.count k) }
{
    let mut spans = opening_spans(alloc, table)?;
    for i in 0..table.count() {
        add_section(&mut spans, table, i)?;
    }
    Ok(spans)
}

/// The first section that takes a byte of the header, of the section table or of a section before it.
///
/// Where all that is taken lies apart, this is found by a sort of the sections. Else each byte of the
/// file is taken once, so the work is no more than the file is long.
pub(crate) fn check_overlaps(alloc: Global, table: &Table) -> Result<(), ElfError>
    requires { first_below table.now.count (section_refusal table.now) ≡ None }
    ensures { AgreesIfRoom result (first_below table.now.count (overlap_refusal table.now)) }
{
    if lie_apart(taken_spans(alloc, table)?) {
        return Ok(());
    }
    check_bytes(alloc, table)
}
