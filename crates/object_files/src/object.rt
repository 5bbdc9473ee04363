ghost use Rattle.std.specs.Prelude.{◌≡◌, ◌<◌, ℕ, IfOk, IfErr, Ok, slice_index};
ghost use Rattle.orc_names.specs.Numbers.{KeepsNumbers};
ghost use Rattle.elf_read.specs.Object.{object_of};
ghost use Rattle.link_model.specs.Sound.{IsSized};
ghost use Rattle.session_units.specs.Units.{meaning_of};
ghost use Rattle.object_files.specs.Steps.{HasValues, IsGraphOf, IsUnitOf, RefusesBytes};

use crate::error::{LoadError, ObjectWhy};
use elf_read::{ElfError, ElfObject, read_shared};
use link_graph::{GraphError, graph_of};
use link_model::LinkGraph;
use orc_ids::{Bytes, UnitName};
use orc_names::Names;
use session_units::ObjectUnit;
use shared_bytes::SharedBytes;
use std::alloc::Global;

/// What the type of bytes says of each.
fn known_bytes(bytes: &[u8])
    ensures { (k : ℕ) → slice_index bytes.now k < 256 }
{}

/// The object that the bytes of a file are.
fn read_file_bytes(alloc: Global, file: &SharedBytes, number: u32) -> Result<ElfObject, LoadError>
    ensures read { IfOk result (λ object. object_of file.now ≡ Ok object) }
    ensures values { IfOk result (λ object. HasValues object) }
    ensures refused { IfErr result (λ e. RefusesBytes number file.now e) }
{
    // (called for its clause)
    known_bytes(file.as_slice());
    match read_shared(alloc, file) {
        Ok(object) => Ok(object),
        Err(ElfError::NoMemory) => Err(LoadError::NoMemory),
        Err(why) => Err(LoadError::Refused(number, ObjectWhy::Elf(why))),
    }
}

/// The object that the bytes of a file are. The bytes are given up; what has ranges of them keeps them.
fn object_of(alloc: Global, bytes: Bytes, number: u32) -> Result<ElfObject, LoadError>
    ensures read { IfOk result (λ object. object_of bytes ≡ Ok object) }
    ensures values { IfOk result (λ object. HasValues object) }
    ensures refused { IfErr result (λ e. RefusesBytes number bytes e) }
{
    let file = SharedBytes::from_bytes(alloc, bytes)?;
    read_file_bytes(alloc, &file, number)
}

/// The graph of the object that bytes are. The bytes are given up.
fn graph_of_bytes(
    alloc: Global,
    bytes: Bytes,
    number: u32,
    names: &mut Names,
) -> Result<LinkGraph, LoadError>
    ensures made { IfOk result (λ g. IsGraphOf names.new bytes g) }
    ensures sized { IfOk result (λ g. IsSized g) }
    ensures older { KeepsNumbers names.old names.new }
    ensures refused { IfErr result (λ e. RefusesBytes number bytes e) }
{
    let object = object_of(alloc, bytes, number)?;
    match graph_of(alloc, &object, names) {
        Ok(graph) => Ok(graph),
        Err(GraphError::NoMemory) => Err(LoadError::NoMemory),
        Err(why) => Err(LoadError::Refused(number, ObjectWhy::Graph(why))),
    }
}

/// The unit of the object that the bytes of a file are.
pub(crate) fn unit_of_bytes(
    alloc: Global,
    bytes: Bytes,
    number: u32,
    names: &mut Names,
) -> Result<ObjectUnit, LoadError>
    ensures unit { IfOk result (λ unit. IsUnitOf names.new number bytes (meaning_of unit)) }
    ensures older { KeepsNumbers names.old names.new }
    ensures refused { IfErr result (λ e. RefusesBytes number bytes e) }
{
    let graph = graph_of_bytes(alloc, bytes, number, names)?;
    Ok(ObjectUnit::of_graph(alloc, UnitName::Object(number), graph)?)
}
