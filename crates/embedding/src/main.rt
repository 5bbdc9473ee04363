//! An example: a program that links and runs by a session of its own.
//!
//! Two texts are assembled, each of which needs the other; the objects in their files become units of one
//! dylib; `main` is looked up at Ready, for which both are linked; and what `main` was linked to is run on a
//! copy of the session's memory. One line says how the run ended and how many events the session has had.
//!
//! A runtime does the same in its place. It has objects from elsewhere, or a kind of unit of its own; a lookup
//! may be answered by a notifier; and beside the thread that looks up others may do jobs (`link_worker::assist`
//! on a `crew`). `session` has the calls, `run` what is done with what was found. Read `session` next.
#![tactic(auto)]

ghost use Rattle.std.specs.Prelude.{◌≡◌, None, IfOk};
ghost use Rattle.session_units.specs.Units.{meaning_of};

mod run;
mod session;

use crate::run::link_and_run;
use crate::session::{PLACES, end_session};
use anyhow::Result;
use elf_read::read_object;
use elf_write::write_object;
use link_graph::graph_of;
use orc_ids::UnitName;
use orc_io::Note;
use orc_names::Names;
use rv_asm::assemble;
use session_units::ObjectUnit;
use shared_session::{close, open};
use std::alloc::Global;

/// `main` asks `twice` of the other text for twice 20.
const MAIN: &str = ".text
.globl main
main: addi a0, zero, 20
tail twice
.globl two
two: addi a1, zero, 2
ret
";

/// `twice` adds `two` of the first text.
const TWICE: &str = ".text
.globl twice
twice: add a0, a0, a0
mv s1, ra
call two
add a0, a0, a1
mv ra, s1
ret
";

/// The unit of the object in the file that a text is assembled to.
fn unit_of(alloc: Global, names: &mut Names, text: &str, number: u32) -> Result<ObjectUnit>
    ensures { IfOk result (λ unit. (meaning_of unit).source ≡ None) }
{
    let file = write_object(alloc, &assemble(alloc, text.as_bytes())?)?;
    let object = read_object(alloc, file.as_slice())?;
    let graph = graph_of(alloc, &object, names)?;
    Ok(ObjectUnit::of_graph(alloc, UnitName::Object(number), graph)?)
}

fn main(rt: HostRuntime) -> Result<()> {
    let alloc = rt.alloc();
    let mut names = Names::new(alloc);
    let first = unit_of(alloc, &mut names, MAIN, 0)?;
    let second = unit_of(alloc, &mut names, TWICE, 1)?;
    let entry = names.intern(b"main")?;
    let (shared, mut pass) = open::<ObjectUnit, Note, PLACES>(alloc, 1)?;
    let end = link_and_run(&rt, alloc, &shared, &mut pass, (first, second), entry);
    let session = close(&rt, shared, pass);
    let entries = session.journal().len();
    end_session(session);
    println!(rt; "{:?} after {entries} entries", end?)?;
    Ok(())
}
