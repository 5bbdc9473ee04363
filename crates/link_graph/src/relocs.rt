ghost use Rattle.std.specs.Prelude.{◌≡◌, ◌+◌, ◌<◌, ◌≤◌, ◌^◌, ◌||◌, nat_lt, length, IsTrue};
ghost use Rattle.link_graph.specs.Checks.{symbol_error, reloc_place, is_passed_symbol, align_error, meets_cut, reloc_error, end_after, table_error, relocs_error};
ghost use Rattle.link_graph.specs.Padding.{is_align, padding, all_cuts};

use crate::cuts::{Cuts, cut_of, is_align, padding};
use crate::edges::marks_only;
use crate::error::GraphError;
use elf_read::{Reloc, Section, SymPlace, Symbol};
use orc_ids::Place;

/// `STT_TLS` and `STT_GNU_IFUNC`.
const TLS: u8 = 6;

const IFUNC: u8 = 10;

/// `SHT_NOBITS`.
const NOBITS: u32 = 8;

/// The first symbol that is thread-local or an indirect function.
pub(crate) fn symbols_refused(symbols: &[Symbol]) -> Option<GraphError>
    requires { length symbols.now ≤ 2 ^ 32 }
    ensures { result ≡ symbol_error 0 symbols.now }
{
    for (k, symbol) in symbols.iter().enumerate() {
        if symbol.kind == TLS || symbol.kind == IFUNC {
            return Some(GraphError::TlsOrIfunc(k as u32));
        }
    }
    None
}

/// Whether the symbol of a number lies in a section that is passed over.
fn passes_symbol(symbols: &[Symbol], number: u32) -> bool
    ensures { result ≡ is_passed_symbol symbols.now number }
{
    match symbols.get(number as usize) {
        Some(symbol) => matches!(symbol.place, SymPlace::Passed),
        None => false,
    }
}

fn passes_end(size: u64, at: u64, width: usize) -> bool
    ensures { result ≡ nat_lt size (at + width) }
{
    size < width as u64 || size - (width as u64) < at
}

fn place_in(block: u32, r: &Reloc) -> Place
    ensures { result ≡ reloc_place block r.now }
{
    Place {
        block,
        offset: r.at,
    }
}

/// Whether some of the bytes of a relocation are deleted.
fn meets_cut(cuts: &Cuts, at: u64, width: usize) -> bool
    requires { at + width < 2 ^ 64 }
    ensures { result ≡ meets_cut cuts.now at width }
{
    cuts.deleted(at) < cuts.deleted(at + width as u64)
}

/// Whether some of the bytes of a relocation lie outside the section, or are deleted.
fn is_outside(section: &Section, cuts: &Cuts, at: u64, width: usize) -> bool
    ensures { result ≡ (nat_lt section.now.size (at + width) || meets_cut cuts.now at width) }
{
    passes_end(section.size, at, width) || meets_cut(cuts, at, width)
}

fn align_refused(
    section: &Section,
    cuts: &Cuts,
    end: u64,
    r: &Reloc,
    place: Place,
) -> Option<GraphError>
    ensures { result ≡ align_error section.now cuts.now end r.now place }
{
    match cut_of(section.size, end, cuts.deleted(r.at), r) {
        Some(_) => None,
        None => Some(GraphError::NeedsAlign(place)),
    }
}

/// The check that a relocation fails. The padding of the ALIGNs before it ends at `end`.
fn reloc_refused(
    symbols: &[Symbol],
    block: u32,
    section: &Section,
    cuts: &Cuts,
    end: u64,
    r: &Reloc,
) -> Option<GraphError>
    ensures { result ≡ reloc_error symbols.now block section.now cuts.now end r.now }
{
    let place = place_in(block, r);
    let Some(rule) = reloc_table::find(r.kind) else {
        return Some(GraphError::UnknownReloc(r.kind, place));
    };
    if marks_only(r) {
        return None;
    }
    if section.kind == NOBITS || passes_symbol(symbols, r.symbol) {
        return Some(GraphError::RelocOutside(place));
    }
    if is_align(r) {
        return align_refused(section, cuts, end, r, place);
    }
    if is_outside(section, cuts, r.at, rule.width) {
        return Some(GraphError::RelocOutside(place));
    }
    None
}

/// Where the padding of the ALIGNs so far ends.
fn end_after(end: u64, r: &Reloc) -> u64
    requires { IsTrue (is_align r.now) → r.now.at + padding r.now.addend < 2 ^ 64 }
    ensures { result ≡ end_after end r.now }
{
    if is_align(r) {
        r.at + padding(r.addend)
    } else {
        end
    }
}

/// The first relocation of one section that fails a check.
fn section_refused(
    symbols: &[Symbol],
    block: u32,
    section: &Section,
    cuts: &Cuts,
) -> Option<GraphError>
    ensures { result ≡ table_error symbols.now block section.now cuts.now 0 section.now.relocs }
{
    let _size = section.size;
    let mut end = 0;
    for r in section.relocs.as_slice() {
        let refused = reloc_refused(symbols, block, section, cuts, end, r);
        if refused.is_some() {
            return refused;
        }
        end = end_after(end, r);
    }
    None
}

/// The first relocation that fails a check.
pub(crate) fn relocs_refused(
    symbols: &[Symbol],
    sections: &[Section],
    cuts: &[Cuts],
) -> Option<GraphError>
    requires few { length sections.now ≤ 2 ^ 32 }
    requires same { cuts.now ≡ all_cuts sections.now }
    ensures { result ≡ relocs_error symbols.now 0 sections.now }
{
    for (block, section) in sections.iter().enumerate() {
        let refused = section_refused(symbols, block as u32, section, &cuts[block]);
        if refused.is_some() {
            return refused;
        }
    }
    None
}
