ghost use Rattle.std.specs.Prelude.{◌≡◌, ◌++◌, ◌-◌, map, take, drop, IfOk, OnOk};
ghost use Rattle.link_graph.specs.Object.{is_common, section_block, common_block, common_symbols, blocks_of};
ghost use Rattle.link_graph.specs.Padding.{kept_bytes, Keeps, trimmed_by, trimmed_section, all_cuts, trimmed};

use crate::cuts::Cuts;
use elf_read::{ElfObject, Section, SymPlace, Symbol};
use link_model::Block;
use orc_ids::Bytes;
use shared_bytes::SharedBytes;
use std::alloc::{AllocError, Global};

/// Whether the place is that of a common symbol.
pub(crate) fn in_common(place: SymPlace) -> bool
    ensures { result ≡ is_common place }
{
    matches!(place, SymPlace::Common)
}

/// The bytes from one place to another, as far as they are there.
fn part(bytes: &[u8], from: u64, to: u64) -> &[u8]
    ensures { result.now ≡ take (to - from) (drop from bytes.now) }
{
    let end = (to as usize).min(bytes.len());
    let start = (from as usize).min(end);
    &bytes[start..end]
}

/// The bytes from a place on.
fn rest(bytes: &[u8], from: u64) -> &[u8]
    ensures { result.now ≡ drop from bytes.now }
{
    let start = (from as usize).min(bytes.len());
    &bytes[start..]
}

/// A copy of the bytes that lie in no cut.
fn uncut_parts(alloc: Global, bytes: &[u8], cuts: &Cuts) -> Result<Bytes, AllocError>
    ensures exact { IfOk result (λ kept. kept ≡ kept_bytes 0 cuts.now bytes.now) }
    ensures kept { IfOk result (λ kept. Keeps cuts.now bytes.now kept) }
{
    let mut kept = Vec::new(alloc);
    let mut from = 0;
    for cut in cuts.as_slice() {
        kept.extend_from_slice(part(bytes, from, cut.from))?;
        from = cut.to;
    }
    kept.extend_from_slice(rest(bytes, from))?;
    Ok(Bytes::from_vec(kept))
}

/// The bytes that lie in no cut. Where nothing is cut, none is copied.
fn kept_bytes(alloc: Global, bytes: &SharedBytes, cuts: &Cuts) -> Result<SharedBytes, AllocError>
    ensures exact { IfOk result (λ kept. kept ≡ kept_bytes 0 cuts.now bytes.now) }
    ensures kept { IfOk result (λ kept. Keeps cuts.now bytes.now kept) }
{
    if cuts.as_slice().is_empty() {
        return bytes.share();
    }
    SharedBytes::from_bytes(alloc, uncut_parts(alloc, bytes.as_slice(), cuts)?)
}

fn block_of_section(alloc: Global, s: &Section, cuts: &Cuts) -> Result<Block, AllocError>
    ensures { IfOk result (λ block. block ≡ section_block (trimmed_by cuts.now s.now)) }
{
    Ok(Block {
        bytes: kept_bytes(alloc, &s.bytes, cuts)?,
        size: cuts.moved(s.size),
        align: cuts.raised(s.align),
    })
}

fn block_of_common(s: &Symbol) -> Block
    ensures { result ≡ common_block s.now }
{
    Block {
        bytes: SharedBytes::empty(),
        size: s.size,
        align: s.value,
    }
}

fn section_blocks(
    alloc: Global,
    sections: &[Section],
    cuts: &[Cuts],
) -> Result<Vec<Block>, AllocError>
    requires { cuts.now ≡ all_cuts sections.now }
    ensures { IfOk result (λ blocks. blocks.items ≡ map section_block (map trimmed_section sections.now)) }
{
    let mut blocks = Vec::new(alloc);
    for (k, section) in sections.iter().enumerate() {
        blocks.push(block_of_section(alloc, section, &cuts[k])?)?;
    }
    Ok(blocks)
}

/// Adds a block for each common symbol.
fn add_commons(blocks: &mut Vec<Block>, symbols: &[Symbol]) -> Result<(), AllocError>
    ensures { OnOk result (blocks.new.items ≡ blocks.old.items ++ map common_block (common_symbols symbols.now)) }
{
    for symbol in symbols {
        if in_common(symbol.place) {
            blocks.push(block_of_common(symbol))?;
        }
    }
    Ok(())
}

/// The blocks of an object after deletion.
pub(crate) fn all_blocks(
    alloc: Global,
    o: &ElfObject,
    cuts: &[Cuts],
) -> Result<Vec<Block>, AllocError>
    requires { cuts.now ≡ all_cuts o.now.sections }
    ensures { IfOk result (λ blocks. blocks.items ≡ blocks_of (trimmed o.now)) }
{
    let mut blocks = section_blocks(alloc, o.sections.as_slice(), cuts)?;
    add_commons(&mut blocks, o.symbols.as_slice())?;
    Ok(blocks)
}
