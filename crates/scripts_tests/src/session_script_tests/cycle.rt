//! The script of two objects that call each other.

use super::read;
use orc_ids::{DylibId, Level, NameId, OrderItem, Scope, TrackId, Wanted};
use session_script::{ClientLine, FileTable, LookupLine, Script, ScriptError, SetupLine};
use std::alloc::Global;
use std::test::Fail;

const TEXT: &str = "dylib main\ntracker main t\nobject main t a.o\nobject main t b.o\n\
                    client\nlookup ready main:all main\nrun main 1000\n";

const MAIN: DylibId = DylibId(0);

const T: TrackId = TrackId(0);

fn is_object(line: &SetupLine, file: u32) -> bool {
    match line {
        SetupLine::Object(dylib, tracker, number) => {
            *dylib == MAIN && *tracker == T && *number == file
        }
        _ => false,
    }
}

/// Whether two lines are set up, and then the objects of the first two files.
fn sets_up(lines: &[SetupLine]) -> bool {
    match lines {
        [_, _, first, second] => is_object(first, 0) && is_object(second, 1),
        _ => false,
    }
}

/// Whether the files have these two names.
fn are_named(files: &FileTable, first: &str, second: &str) -> bool {
    files.len() == 2 && files.name(0) == first && files.name(1) == second
}

/// Whether the two objects are set up, and of which files they are.
fn sets_two_up(alloc: Global) -> Result<[bool; 2], ScriptError> {
    let script = read(alloc, TEXT)?;
    let lines = script.setup.as_slice();
    Ok([sets_up(lines), are_named(&script.files, "a.o", "b.o")])
}

#[test]
fn two_objects_are_set_up(rt: HostRuntime) -> Result<(), Fail> {
    assert_eq!(rt; sets_two_up(rt.alloc())?, [true, true]);
    Ok(())
}

/// Whether the first name is looked up in all of the first dylib, up to Ready.
fn looks_up_main(line: &LookupLine) -> bool {
    let item = OrderItem {
        dylib: MAIN,
        scope: Scope::All,
    };
    let main = Wanted {
        name: NameId(0),
        weak: false,
    };
    line.level == Level::Ready
        && line.order.as_slice() == [item].as_slice()
        && line.wanted.as_slice() == [main].as_slice()
}

/// Whether the calls look the first name up, and run it with no arguments.
fn looks_up_and_runs(lines: &[ClientLine]) -> bool {
    match lines {
        [ClientLine::Lookup(line), ClientLine::Run(name, 1000, args)] => {
            looks_up_main(line) && *name == NameId(0) && args.is_empty()
        }
        _ => false,
    }
}

/// Whether there is one client, which looks the first name up and runs it.
fn one_looks_up_and_runs(alloc: Global) -> Result<bool, ScriptError> {
    let script = read(alloc, TEXT)?;
    match script.clients.as_slice() {
        [client] => Ok(looks_up_and_runs(client.as_slice())),
        _ => Ok(false),
    }
}

#[test]
fn one_client_looks_up_and_runs(rt: HostRuntime) -> Result<(), Fail> {
    assert!(rt; one_looks_up_and_runs(rt.alloc())?);
    Ok(())
}
