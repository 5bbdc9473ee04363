ghost use Rattle.std.specs.Prelude.{◌≡◌, ◌+◌, ◌-◌, ◌||◌, nat_lt, length, sum_by, filter, not, Some, None, if◌then◌else◌};
ghost use Rattle.elf_read.specs.declared.object.Section.{Section as SectionSeen};
ghost use Rattle.elf_read.specs.declared.object.Symbol.{Symbol as SymbolSeen};
ghost use Rattle.elf_read.specs.declared.object.Reloc.{Reloc as RelocSeen};
ghost use Rattle.link_model.specs.Sound.{MAX_BLOCKS, MAX_SYMBOLS, MAX_EDGES, MAX_BYTES};
ghost use Rattle.link_graph.specs.Object.{is_mark, common_symbols};
ghost use Rattle.link_graph.specs.Checks.{edge_count, byte_count, is_too_large};

use crate::blocks::in_common;
use crate::edges::marks_only;
use elf_read::{ElfObject, Section, Symbol};

/// The most blocks of a unit.
pub const BLOCK_LIMIT: usize = 16_384;

/// The most symbols of a unit, symbol 0 among them.
pub const SYMBOL_LIMIT: usize = 65_536;

/// The most edges of a unit.
pub const EDGE_LIMIT: usize = 262_144;

/// The most bytes of a unit's blocks, zeros included.
pub const BYTE_LIMIT: u64 = 16 * 1_024 * 1_024;

/// How many common symbols there are.
fn common_count(symbols: &[Symbol]) -> usize
    ensures { result ≡ length (common_symbols symbols.now) }
{
    symbols.iter().filter(|s| in_common(s.place)).count()
}

/// Whether an object has more sections, common symbols or symbols than a unit may have.
fn is_long(o: &ElfObject) -> bool
    ensures { result ≡ (nat_lt MAX_BLOCKS (length o.now.sections + length (common_symbols o.now.symbols)) || nat_lt MAX_SYMBOLS (length o.now.symbols)) }
{
    let sections = o.sections.as_slice().len();
    sections > BLOCK_LIMIT
        || common_count(o.symbols.as_slice()) > BLOCK_LIMIT - sections
        || o.symbols.as_slice().len() > SYMBOL_LIMIT
}

/// How many edges a section has.
fn section_edge_count(section: &Section) -> usize
    ensures { result ≡ length (filter (λ (r : RelocSeen). not (is_mark r)) section.now.relocs) }
{
    section
        .relocs
        .as_slice()
        .iter()
        .filter(|r| !marks_only(r))
        .count()
}

/// Whether the sections have more edges than a unit may have.
fn has_many_edges(sections: &[Section]) -> bool
    ensures { result ≡ nat_lt MAX_EDGES (edge_count sections.now) }
{
    let mut left = EDGE_LIMIT;
    for section in sections {
        let count = section_edge_count(section);
        if count > left {
            return true;
        }
        left -= count;
    }
    false
}

/// How many bytes a unit may still have beside the sections, if they aren't too many.
fn bytes_left(sections: &[Section]) -> Option<u64>
    ensures { result ≡ (if nat_lt MAX_BYTES (sum_by (λ (s : SectionSeen). s.size) sections.now) then None else Some (MAX_BYTES - sum_by (λ (s : SectionSeen). s.size) sections.now)) }
{
    let mut left = BYTE_LIMIT;
    for section in sections {
        if section.size > left {
            return None;
        }
        left -= section.size;
    }
    Some(left)
}

/// Whether the common symbols have more bytes than so many.
fn commons_exceed(limit: u64, symbols: &[Symbol]) -> bool
    ensures { result ≡ nat_lt limit (sum_by (λ (s : SymbolSeen). s.size) (common_symbols symbols.now)) }
{
    let mut left = limit;
    for symbol in symbols {
        if in_common(symbol.place) {
            if symbol.size > left {
                return true;
            }
            left -= symbol.size;
        }
    }
    false
}

/// Whether sections and common symbols have more bytes than a unit may have.
fn has_many_bytes(o: &ElfObject) -> bool
    ensures { result ≡ nat_lt MAX_BYTES (byte_count o.now) }
{
    match bytes_left(o.sections.as_slice()) {
        Some(left) => commons_exceed(left, o.symbols.as_slice()),
        None => true,
    }
}

/// Whether an object has more than a unit may have, by the sizes of the file.
pub(crate) fn is_too_large(o: &ElfObject) -> bool
    ensures { result ≡ is_too_large o.now }
{
    is_long(o) || has_many_edges(o.sections.as_slice()) || has_many_bytes(o)
}
