use elf_read::read_object;
use link_graph::{GraphError, graph_of};
use link_model::{Block, Edge, GPlace, GSym, LinkGraph};
use orc_ids::{NameId, Place};
use orc_names::Names;
use sample_objects::{HELLO, NOTHING};
use std::alloc::{AllocError, Global};
use std::process::Abort;
use std::test::Fail;

/// An object whose padding is left to the linker: two instructions, ALIGN at 8 with addend 12, its
/// padding, and from 20 on a jump to the return that follows it.
const PADDED: [u8; 664] = [
    127, 69, 76, 70, 2, 1, 1, 0, 0, 0, 0, 0, 0, 0, 0, 0, 1, 0, 243, 0, 1, 0, 0, 0, 0, 0, 0, 0, 0,
    0, 0, 0, 0, 0, 0, 0, 0, 0, 0, 0, 24, 1, 0, 0, 0, 0, 0, 0, 0, 0, 0, 0, 64, 0, 0, 0, 0, 0, 64, 0,
    6, 0, 5, 0, 19, 5, 16, 0, 19, 5, 21, 0, 19, 0, 0, 0, 19, 0, 0, 0, 19, 0, 0, 0, 111, 0, 0, 0,
    103, 128, 0, 0, 0, 0, 0, 0, 8, 0, 0, 0, 0, 0, 0, 0, 43, 0, 0, 0, 0, 0, 0, 0, 12, 0, 0, 0, 0, 0,
    0, 0, 20, 0, 0, 0, 0, 0, 0, 0, 17, 0, 0, 0, 1, 0, 0, 0, 0, 0, 0, 0, 0, 0, 0, 0, 0, 0, 0, 0, 0,
    0, 0, 0, 0, 0, 0, 0, 0, 0, 0, 0, 0, 0, 0, 0, 0, 0, 0, 0, 1, 0, 0, 0, 0, 0, 1, 0, 24, 0, 0, 0,
    0, 0, 0, 0, 0, 0, 0, 0, 0, 0, 0, 0, 5, 0, 0, 0, 16, 0, 1, 0, 0, 0, 0, 0, 0, 0, 0, 0, 0, 0, 0,
    0, 0, 0, 0, 0, 0, 102, 105, 110, 0, 109, 97, 105, 110, 0, 0, 0, 0, 0, 0, 0, 0, 46, 116, 101,
    120, 116, 0, 46, 114, 101, 108, 97, 46, 116, 101, 120, 116, 0, 46, 115, 121, 109, 116, 97, 98,
    0, 46, 115, 116, 114, 116, 97, 98, 0, 46, 115, 104, 115, 116, 114, 116, 97, 98, 0, 0, 0, 0, 0,
    0, 0, 0, 0, 0, 0, 0, 0, 0, 0, 0, 0, 0, 0, 0, 0, 0, 0, 0, 0, 0, 0, 0, 0, 0, 0, 0, 0, 0, 0, 0, 0,
    0, 0, 0, 0, 0, 0, 0, 0, 0, 0, 0, 0, 0, 0, 0, 0, 0, 0, 0, 0, 0, 0, 0, 0, 0, 0, 0, 0, 0, 0, 0, 0,
    1, 0, 0, 0, 1, 0, 0, 0, 6, 0, 0, 0, 0, 0, 0, 0, 0, 0, 0, 0, 0, 0, 0, 0, 64, 0, 0, 0, 0, 0, 0,
    0, 28, 0, 0, 0, 0, 0, 0, 0, 0, 0, 0, 0, 0, 0, 0, 0, 16, 0, 0, 0, 0, 0, 0, 0, 0, 0, 0, 0, 0, 0,
    0, 0, 7, 0, 0, 0, 4, 0, 0, 0, 64, 0, 0, 0, 0, 0, 0, 0, 0, 0, 0, 0, 0, 0, 0, 0, 96, 0, 0, 0, 0,
    0, 0, 0, 48, 0, 0, 0, 0, 0, 0, 0, 3, 0, 0, 0, 1, 0, 0, 0, 8, 0, 0, 0, 0, 0, 0, 0, 24, 0, 0, 0,
    0, 0, 0, 0, 18, 0, 0, 0, 2, 0, 0, 0, 0, 0, 0, 0, 0, 0, 0, 0, 0, 0, 0, 0, 0, 0, 0, 0, 144, 0, 0,
    0, 0, 0, 0, 0, 72, 0, 0, 0, 0, 0, 0, 0, 4, 0, 0, 0, 2, 0, 0, 0, 8, 0, 0, 0, 0, 0, 0, 0, 24, 0,
    0, 0, 0, 0, 0, 0, 26, 0, 0, 0, 3, 0, 0, 0, 0, 0, 0, 0, 0, 0, 0, 0, 0, 0, 0, 0, 0, 0, 0, 0, 216,
    0, 0, 0, 0, 0, 0, 0, 10, 0, 0, 0, 0, 0, 0, 0, 0, 0, 0, 0, 0, 0, 0, 0, 1, 0, 0, 0, 0, 0, 0, 0,
    0, 0, 0, 0, 0, 0, 0, 0, 34, 0, 0, 0, 3, 0, 0, 0, 0, 0, 0, 0, 0, 0, 0, 0, 0, 0, 0, 0, 0, 0, 0,
    0, 232, 0, 0, 0, 0, 0, 0, 0, 44, 0, 0, 0, 0, 0, 0, 0, 0, 0, 0, 0, 0, 0, 0, 0, 1, 0, 0, 0, 0, 0,
    0, 0, 0, 0, 0, 0, 0, 0, 0, 0,
];

/// A file with some bytes changed.
fn changed(alloc: Global, file: &[u8], changes: &[(usize, u8)]) -> Result<Vec<u8>, AllocError> {
    let mut bytes = file.to_vec(alloc)?;
    for (at, value) in changes {
        if let Some(byte) = bytes.get_mut(*at) {
            *byte = *value;
        }
    }
    Ok(bytes)
}

/// What is answered to a file with some bytes changed.
fn answer(
    alloc: Global,
    file: &[u8],
    changes: &[(usize, u8)],
    names: &mut Names,
) -> Result<Result<LinkGraph, GraphError>, Fail> {
    let bytes = changed(alloc, file, changes)?;
    let object = read_object(alloc, bytes.as_slice())?;
    Ok(graph_of(alloc, &object, names))
}

/// The graph of a file with some bytes changed.
fn graph(alloc: Global, file: &[u8], changes: &[(usize, u8)]) -> Result<LinkGraph, Fail> {
    let mut names = Names::new(alloc);
    Ok(answer(alloc, file, changes, &mut names)??)
}

/// The graph of a file, where one name was interned earlier.
fn graph_after_a_name(alloc: Global, file: &[u8]) -> Result<LinkGraph, Fail> {
    let mut names = Names::new(alloc);
    names.intern(b"earlier")?;
    Ok(answer(alloc, file, &[], &mut names)??)
}

/// A block that is made.
#[derive(Clone, Copy)]
struct BlockRow<'a> {
    bytes: &'a [u8],
    size: u64,
    align: u64,
}

/// The number of the first block that is not that of the table.
fn other_block(blocks: &[Block], rows: &[BlockRow<'_>]) -> Option<usize> {
    for (number, (block, row)) in blocks.iter().zip(rows).enumerate() {
        if block.bytes.as_slice() != row.bytes
            || block.size != row.size
            || block.align != row.align
        {
            return Some(number);
        }
    }
    if blocks.len() == rows.len() {
        None
    } else {
        Some(rows.len())
    }
}

/// The number of the first symbol whose place and name are not those of the table.
fn other_symbol(symbols: &[GSym], rows: &[(GPlace, Option<NameId>)]) -> Option<usize> {
    for (number, (symbol, (place, name))) in symbols.iter().zip(rows).enumerate() {
        if symbol.place != *place || symbol.name != *name {
            return Some(number);
        }
    }
    if symbols.len() == rows.len() {
        None
    } else {
        Some(rows.len())
    }
}

/// The last symbol is offered to other units.
fn is_last_exported(symbols: &[GSym]) -> bool {
    match symbols {
        [.., last] => last.flags.exported,
        [] => false,
    }
}

#[test]
fn the_blocks_of_the_file(rt: HostRuntime) -> Result<(), Fail> {
    let graph = graph(rt.alloc(), &HELLO, &[])?;
    let rows = [
        BlockRow {
            bytes: &HELLO[64..100],
            size: 36,
            align: 4,
        },
        BlockRow {
            bytes: b"hello\n",
            size: 6,
            align: 1,
        },
    ];
    assert_eq!(rt; other_block(graph.blocks.as_slice(), &rows), None);
    Ok(())
}

#[test]
fn the_symbols_of_the_file(rt: HostRuntime) -> Result<(), Fail> {
    let graph = graph_after_a_name(rt.alloc(), &HELLO)?;
    let rows = [
        (GPlace::Abs(0), None),
        (GPlace::In(0, 4), None),
        (GPlace::In(1, 0), None),
        (GPlace::In(0, 0), Some(NameId(1))),
    ];
    assert_eq!(rt; other_symbol(graph.symbols.as_slice(), &rows), None);
    assert!(rt; is_last_exported(graph.symbols.as_slice()));
    Ok(())
}

/// Two edges are the same.
fn is_same_edge(a: &Edge, b: &Edge) -> bool {
    a.block == b.block
        && a.offset == b.offset
        && a.kind == b.kind
        && a.target == b.target
        && a.addend == b.addend
}

/// Two lists of edges are the same.
fn are_same_edges(a: &[Edge], b: &[Edge]) -> bool {
    for (a, b) in a.iter().zip(b) {
        if !is_same_edge(a, b) {
            return false;
        }
    }
    a.len() == b.len()
}

#[test]
fn the_edges_of_the_file(rt: HostRuntime) -> Result<(), Fail> {
    let graph = graph(rt.alloc(), &HELLO, &[])?;
    let low = Edge {
        block: 0,
        offset: 8,
        kind: 24,
        target: 1,
        addend: 0,
    };
    let upper = Edge {
        offset: 4,
        kind: 23,
        target: 2,
        ..low
    };
    assert!(rt; are_same_edges(graph.edges.as_slice(), &[upper, low]));
    Ok(())
}

/// A place in the first section.
fn at(offset: u64) -> Place {
    Place { block: 0, offset }
}

/// Whether a file with some bytes changed is refused so, and no name is interned.
fn is_refused(
    alloc: Global,
    file: &[u8],
    changes: &[(usize, u8)],
    why: GraphError,
) -> Result<bool, Fail> {
    let mut names = Names::new(alloc);
    let answered = answer(alloc, file, changes, &mut names)?;
    Ok(answered.err() == Some(why) && names.is_empty())
}

/// A file with some bytes changed, and why it is refused.
type Refusal<'a> = (&'a [(usize, u8)], GraphError);

/// The file is refused with the changes of each row.
fn expect_refused(
    rt: &impl Abort,
    alloc: Global,
    file: &[u8],
    rows: &[Refusal<'_>],
) -> Result<(), Fail> {
    for (number, (changes, why)) in rows.iter().enumerate() {
        assert!(rt; is_refused(alloc, file, changes, *why)?, "row {number}");
    }
    Ok(())
}

#[test]
fn refuses_a_changed_relocation(rt: HostRuntime) -> Result<(), Fail> {
    let rows: [Refusal<'_>; 2] = [
        (&[(120, 0x3c)], GraphError::UnknownReloc(60, at(4))),
        (&[(112, 0x22)], GraphError::RelocOutside(at(34))),
    ];
    expect_refused(&rt, rt.alloc(), &HELLO, &rows)
}

#[test]
fn refuses_a_changed_symbol(rt: HostRuntime) -> Result<(), Fail> {
    let rows: [Refusal<'_>; 3] = [
        (&[(212, 0x06)], GraphError::TlsOrIfunc(2)),
        (&[(148, 0x02)], GraphError::BadPair(at(8))),
        (&[(120, 0x2b)], GraphError::BadPair(at(8))),
    ];
    expect_refused(&rt, rt.alloc(), &HELLO, &rows)
}

/// Where the section's alignment stands, and the place and addend of its ALIGN, the place of its jump,
/// the kind and addend of that, and the jump's symbol's value.
const SECTION_ALIGN: usize = 392;

const ALIGN_AT: usize = 96;

const ALIGN_ADDEND: usize = 112;

const JUMP_AT: usize = 120;

const JUMP_KIND: usize = 128;

const JUMP_ADDEND: usize = 136;

const TARGET_VALUE: usize = 176;

const ALIGN: u8 = 43;

/// The only block is the padded section without 4 bytes of its padding.
fn is_without_padding(blocks: &[Block]) -> bool {
    match blocks {
        [block] => {
            block.bytes.as_slice().get(..16) == Some(&PADDED[64..80])
                && block.bytes.as_slice().get(16..) == Some(&PADDED[84..92])
                && block.size == 24
                && block.align == 16
        }
        _ => false,
    }
}

#[test]
fn deletes_padding(rt: HostRuntime) -> Result<(), Fail> {
    for section_align in [8, 16] {
        let graph = graph(rt.alloc(), &PADDED, &[(SECTION_ALIGN, section_align)])?;
        assert!(rt;
            is_without_padding(graph.blocks.as_slice()),
            "{section_align}"
        );
    }
    Ok(())
}

#[test]
fn moves_what_follows_padding(rt: HostRuntime) -> Result<(), Fail> {
    let graph = graph(rt.alloc(), &PADDED, &[])?;
    let align = Edge {
        block: 0,
        offset: 8,
        kind: 43,
        target: 0,
        addend: 8,
    };
    let jump = Edge {
        offset: 16,
        kind: 17,
        target: 1,
        addend: 0,
        ..align
    };
    assert!(rt; are_same_edges(graph.edges.as_slice(), &[align, jump]));
    Ok(())
}

/// The place of the jump's target, the second of three symbols, where some bytes of the padded file are
/// changed.
fn target(alloc: Global, changes: &[(usize, u8)]) -> Result<Option<GPlace>, Fail> {
    let graph = graph(alloc, &PADDED, changes)?;
    match graph.symbols.as_slice() {
        [_, target, _] => Ok(Some(target.place)),
        _ => Ok(None),
    }
}

#[test]
fn moves_symbols_with_padding(rt: HostRuntime) -> Result<(), Fail> {
    assert!(rt; target(rt.alloc(), &[])? == Some(GPlace::In(0, 20)));
    let inside = target(rt.alloc(), &[(TARGET_VALUE, 18)])?;
    assert!(rt; inside == Some(GPlace::In(0, 16)));
    Ok(())
}

#[test]
fn refuses_changed_padding(rt: HostRuntime) -> Result<(), Fail> {
    let rows: [Refusal<'_>; 5] = [
        // an end past the section, a boundary above 4,096, a negative addend
        (&[(ALIGN_ADDEND, 24)], GraphError::NeedsAlign(at(8))),
        (&[(ALIGN_ADDEND + 1, 16)], GraphError::NeedsAlign(at(8))),
        (&[(ALIGN_ADDEND + 7, 0x80)], GraphError::NeedsAlign(at(8))),
        // less padding than is needed: 7 bytes lead from 9 to 16
        (
            &[(ALIGN_AT, 9), (ALIGN_ADDEND, 4)],
            GraphError::NeedsAlign(at(9)),
        ),
        // a second ALIGN inside the padding of the first
        (
            &[(JUMP_AT, 16), (JUMP_KIND, ALIGN), (JUMP_ADDEND, 4)],
            GraphError::NeedsAlign(at(16)),
        ),
    ];
    expect_refused(&rt, rt.alloc(), &PADDED, &rows)
}

/// The place of the second edge where the jump's place is changed.
fn jump_at(alloc: Global, place: u8) -> Result<Option<u64>, Fail> {
    let graph = graph(alloc, &PADDED, &[(JUMP_AT, place)])?;
    Ok(graph.edges.as_slice().get(1).map(|e| e.offset))
}

#[test]
fn refuses_relocations_of_deleted_bytes(rt: HostRuntime) -> Result<(), Fail> {
    for place in 13..20_u8 {
        let why = GraphError::RelocOutside(at(place as u64));
        let refused = is_refused(rt.alloc(), &PADDED, &[(JUMP_AT, place)], why)?;
        assert!(rt; refused, "{place}");
    }
    Ok(())
}

#[test]
fn takes_a_relocation_of_the_last_bytes_before(rt: HostRuntime) -> Result<(), Fail> {
    assert_eq!(rt; jump_at(rt.alloc(), 12)?, Some(12));
    Ok(())
}

/// The file has no block, no edge, one symbol, and no name.
fn is_nothing(alloc: Global) -> Result<bool, Fail> {
    let mut names = Names::new(alloc);
    let graph = answer(alloc, &NOTHING, &[], &mut names)??;
    Ok(
        graph.blocks.as_slice().is_empty()
            && graph.edges.as_slice().is_empty()
            && other_symbol(graph.symbols.as_slice(), &[(GPlace::Abs(0), None)]).is_none()
            && names.is_empty(),
    )
}

#[test]
fn memory_is_enough_for_the_graph_of_nothing(rt: HostRuntime) -> Result<(), Fail> {
    assert!(rt; is_nothing(rt.alloc())?);
    Ok(())
}
