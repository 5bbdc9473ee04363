//! The calls of clients.
ghost use Rattle.std.specs.Prelude.{◌≡◌, ◌≤◌, All, length, map, flat_map, IfOk};
ghost use Rattle.std.specs.Vec.Iter.{into_iter_items};
ghost use Rattle.script_model.specs.Plans.{line_of};
ghost use Rattle.session_units.specs.Units.{meaning_of};
ghost use Rattle.script_plan.specs.Asked.{asked_line};
ghost use Rattle.script_plan.specs.Notes.{AreTaken, watch_of, watches_of};
ghost use Rattle.session_script.specs.WellFormed.{IsClientLine, note_of, notes_of};

use crate::parts::{copy_of, unit_of_file};
use orc_ids::Items;
use orc_io::Notify;
use script_model::{ClientCall, Lookup};
use session_script::{ClientLine, LookupLine};
use session_units::ObjectUnit;
use std::alloc::{AllocError, Global};
use std::vec::IntoIter;

/// The calls that the lines of each client ask for.
pub(crate) fn plan_clients<N: Notify>(
    alloc: Global,
    units: &[ObjectUnit],
    clients: &[Items<ClientLine>],
    notes: &mut IntoIter<N, Global>,
) -> Result<Vec<Vec<ClientCall<ObjectUnit, N>>>, AllocError>
    requires well { All (All (IsClientLine (length units.now))) clients.now }
    requires enough { length (notes_of clients.now) ≤ length (into_iter_items notes.old) }
    ensures asked { IfOk result (λ plans.
        map (λ calls. map (line_of meaning_of) calls.items) plans.items ≡ map (map (asked_line (map meaning_of units.now))) clients.now) }
    ensures taken { IfOk result (λ plans.
        AreTaken (watches_of (map (λ calls. calls.items) plans.items)) (into_iter_items notes.old) (into_iter_items notes.new)) }
{
    let mut plans = Vec::new(alloc);
    for lines in clients {
        plans.push(plan_client(alloc, units, lines.as_slice(), notes)?)?;
    }
    Ok(plans)
}

/// The calls that the lines of a client ask for.
fn plan_client<N: Notify>(
    alloc: Global,
    units: &[ObjectUnit],
    lines: &[ClientLine],
    notes: &mut IntoIter<N, Global>,
) -> Result<Vec<ClientCall<ObjectUnit, N>>, AllocError>
    requires well { All (IsClientLine (length units.now)) lines.now }
    requires enough { length (flat_map note_of lines.now) ≤ length (into_iter_items notes.old) }
    ensures asked { IfOk result (λ calls.
        map (line_of meaning_of) calls.items ≡ map (asked_line (map meaning_of units.now)) lines.now) }
    ensures taken { IfOk result (λ calls.
        AreTaken (flat_map watch_of calls.items) (into_iter_items notes.old) (into_iter_items notes.new)) }
{
    let mut calls = Vec::new(alloc);
    for line in lines {
        calls.push(client_call(alloc, units, line, notes)?)?;
    }
    Ok(calls)
}

/// The call of a line. A watch takes the next note.
fn client_call<N: Notify>(
    alloc: Global,
    units: &[ObjectUnit],
    line: &ClientLine,
    notes: &mut IntoIter<N, Global>,
) -> Result<ClientCall<ObjectUnit, N>, AllocError>
    requires well { IsClientLine (length units.now) line.now }
    requires enough { length (note_of line.now) ≤ length (into_iter_items notes.old) }
    ensures asked { IfOk result (λ call. line_of meaning_of call ≡ asked_line (map meaning_of units.now) line.now) }
    ensures taken { IfOk result (λ call. AreTaken (watch_of call) (into_iter_items notes.old) (into_iter_items notes.new)) }
{
    match line {
        ClientLine::Define(dylib, tracker, file) => {
            let unit = unit_of_file(alloc, units, *file)?;
            Ok(ClientCall::Define(*dylib, *tracker, unit))
        }
        ClientLine::Lookup(names) => Ok(ClientCall::LookUp(lookup_of(alloc, names)?, None)),
        ClientLine::Watch(note, names) => {
            let names = lookup_of(alloc, names)?;
            let watch = notes.next().map(|what| (*note, what));
            Ok(ClientCall::LookUp(names, watch))
        }
        ClientLine::Move(from, to) => Ok(ClientCall::Move(*from, *to)),
        ClientLine::Remove(tracker) => Ok(ClientCall::Remove(*tracker)),
        ClientLine::Run(name, fuel, args) => {
            Ok(ClientCall::Run(*name, *fuel, copy_of(alloc, args)?))
        }
        ClientLine::Peek(name) => Ok(ClientCall::Peek(*name)),
    }
}

/// What a line looks up.
fn lookup_of(alloc: Global, line: &LookupLine) -> Result<Lookup, AllocError>
    ensures order { IfOk result (λ names. names.order ≡ line.now.order) }
    ensures wanted { IfOk result (λ names. names.wanted ≡ line.now.wanted) }
    ensures level { IfOk result (λ names. names.level ≡ line.now.level) }
{
    Ok(Lookup {
        order: copy_of(alloc, &line.order)?,
        wanted: copy_of(alloc, &line.wanted)?,
        level: line.level,
    })
}
