ghost use Rattle.std.specs.Prelude.{◌<◌};

use elf_read::read_object;
use elf_write::write_object;
use generated_objects::{graph_of_function, next, object_of};
use link_graph::graph_of;
use link_model::{Block, Edge, GSym, LinkGraph};
use orc_ids::Bytes;
use orc_names::Names;
use rv_asm::assemble;
use std::alloc::Global;
use std::test::Fail;

/// The file of function `k` of `n`.
fn file_of(alloc: Global, n: u32, k: u32) -> Result<Bytes, Fail>
    requires { k < n }
{
    let object = object_of(alloc, n, k)?;
    Ok(write_object(alloc, &object)?)
}

/// The file of function `k` of `n` is what the assembler makes of a source.
fn is_assembled(alloc: Global, n: u32, k: u32, source: &str) -> Result<bool, Fail>
    requires { k < n }
{
    let file = file_of(alloc, n, k)?;
    let object = assemble(alloc, source.as_bytes())?;
    Ok(write_object(alloc, &object)?.as_slice() == file.as_slice())
}

/// Function `k` of `n` calls this one.
fn is_next(n: u32, k: u32, called: u32) -> bool {
    k < n && next(n, k) == called
}

#[test]
fn a_ring_of_seven_closes(rt: HostRuntime) {
    let rows = [
        (15, 0, 1),
        (15, 6, 0),
        (15, 12, 13),
        (15, 13, 7),
        // The last ring has one function.
        (15, 14, 14),
        (16, 15, 14),
    ];
    for (n, k, called) in rows {
        assert!(rt; is_next(n, k, called), "{k} of {n}");
    }
}

/// The words are those of `riscv64-linux-gnu-as` for these instructions.
const CALLS_ANOTHER: &str =
    ".globl f12\nf12: .word 0x00050863\naddi a0, a0, -1\ntail f13\naddi a0, zero, 12\nret\n";

#[test]
fn an_object_is_that_of_its_source(rt: HostRuntime) -> Result<(), Fail> {
    assert!(rt; is_assembled(rt.alloc(), 15, 12, CALLS_ANOTHER)?);
    Ok(())
}

/// 300 modulo 256 is 44; the last of its ring is alone.
const CALLS_ITSELF: &str =
    ".globl f301\nf301: .word 0x00050863\naddi a0, a0, -1\ntail f301\naddi a0, zero, 45\nret\n";

#[test]
fn one_that_is_alone_calls_itself(rt: HostRuntime) -> Result<(), Fail> {
    assert!(rt; is_assembled(rt.alloc(), 302, 301, CALLS_ITSELF)?);
    Ok(())
}

/// The texts of a session of eight objects, in order.
const TEXTS: [&str; 12] = [
    "j0", "j1", "j2", "j3", "f0", "f1", "f2", "f3", "f4", "f5", "f6", "f7",
];

/// The names of a session of eight objects.
fn session_names(alloc: Global) -> Result<Names, Fail> {
    let mut names = Names::new(alloc);
    for text in TEXTS {
        names.intern(text.as_bytes())?;
    }
    Ok(names)
}

/// The graph of the file of function `k` of eight.
fn read_graph(alloc: Global, k: u32, names: &mut Names) -> Result<LinkGraph, Fail>
    requires { k < 8 }
{
    let object = read_object(alloc, file_of(alloc, 8, k)?.as_slice())?;
    Ok(graph_of(alloc, &object, names)?)
}

/// Two blocks are the same.
fn is_same_block(a: &Block, b: &Block) -> bool {
    a.bytes.as_slice() == b.bytes.as_slice() && a.size == b.size && a.align == b.align
}

/// Two lists of blocks are the same.
fn are_same_blocks(a: &[Block], b: &[Block]) -> bool {
    for (a, b) in a.iter().zip(b) {
        if !is_same_block(a, b) {
            return false;
        }
    }
    a.len() == b.len()
}

/// Two symbols are the same.
fn is_same_symbol(a: &GSym, b: &GSym) -> bool {
    a.name == b.name && a.place == b.place && a.flags == b.flags && a.global == b.global
}

/// Two lists of symbols are the same.
fn are_same_symbols(a: &[GSym], b: &[GSym]) -> bool {
    for (a, b) in a.iter().zip(b) {
        if !is_same_symbol(a, b) {
            return false;
        }
    }
    a.len() == b.len()
}

/// Two edges are the same.
fn is_same_edge(a: &Edge, b: &Edge) -> bool {
    a.block == b.block
        && a.offset == b.offset
        && a.kind == b.kind
        && a.target == b.target
        && a.addend == b.addend
}

/// Two lists of edges are the same.
fn are_same_edges(a: &[Edge], b: &[Edge]) -> bool {
    for (a, b) in a.iter().zip(b) {
        if !is_same_edge(a, b) {
            return false;
        }
    }
    a.len() == b.len()
}

/// All parts of two graphs are the same.
fn is_same_graph(a: &LinkGraph, b: &LinkGraph) -> bool {
    are_same_blocks(a.blocks.as_slice(), b.blocks.as_slice())
        && are_same_symbols(a.symbols.as_slice(), b.symbols.as_slice())
        && are_same_edges(a.edges.as_slice(), b.edges.as_slice())
}

/// The graph of function `k` of eight is that of its file.
fn is_read_back(alloc: Global, k: u32, names: &mut Names) -> Result<bool, Fail>
    requires { k < 8 }
{
    let read = read_graph(alloc, k, names)?;
    let made = graph_of_function(alloc, 8, k)?;
    Ok(is_same_graph(&made, &read))
}

#[test]
fn the_graph_is_that_of_the_object_read(rt: HostRuntime) -> Result<(), Fail> {
    let mut names = session_names(rt.alloc())?;
    for k in 0..8 {
        assert!(rt; is_read_back(rt.alloc(), k, &mut names)?, "{k}");
    }
    assert_eq!(rt; names.len(), 12);
    Ok(())
}

/// The object of function `k` of `n` has one section, and its graph one block.
fn is_of_one_part(alloc: Global, n: u32, k: u32) -> Result<bool, Fail>
    requires below { k < n }
    requires few { n < 9 }
{
    let object = object_of(alloc, n, k)?;
    let graph = graph_of_function(alloc, n, k)?;
    Ok(object.sections.as_slice().len() == 1 && graph.blocks.as_slice().len() == 1)
}

/// The last ring of each number of functions has one of seven lengths.
#[test]
fn memory_is_enough_for_any_number_of_functions(rt: HostRuntime) -> Result<(), Fail> {
    for n in 1..9 {
        for k in 0..n {
            assert!(rt; is_of_one_part(rt.alloc(), n, k)?, "{k} of {n}");
        }
    }
    Ok(())
}
