//! Lines that were written by hand from the forms of the results.

use exec_run::RunEnd;
use orc_ids::{Bytes, DylibId, InstId, Items, NameId, Stop, UnitId, Wanted};
use orc_names::Names;
use result_text::{are_known_ends, text_of_results};
use rv_hart::Cause;
use script_model::LineEnd;
use session_model::{LookEnd, Peek, Reply};
use std::alloc::{AllocError, Global};
use std::process::Abort;
use std::test::Fail;

const MAIN: Wanted = Wanted {
    name: NameId(0),
    weak: false,
};

const PRINT: Wanted = Wanted {
    name: NameId(1),
    weak: true,
};

/// The names of the lines below: `main` and `print`, from 0.
fn names(alloc: Global) -> Result<Names, Fail> {
    let mut names = Names::new(alloc);
    names.intern(b"main")?;
    names.intern(b"print")?;
    Ok(names)
}

fn list<T: Copy>(alloc: Global, items: &[T]) -> Result<Items<T>, AllocError> {
    Ok(Items::from_vec(items.to_vec(alloc)?))
}

/// The lines of clients.
fn check(
    rt: &impl Abort,
    alloc: Global,
    wanted: &[Items<Items<Wanted>>],
    ends: &[Vec<LineEnd>],
    want: &[u8],
) -> Result<(), Fail> {
    let names = names(alloc)?;
    assert!(rt; are_known_ends(&names, wanted, ends));
    let text = text_of_results(alloc, &names, wanted, ends)?;
    assert_eq!(rt; text.as_slice(), want);
    Ok(())
}

/// The one line of one client.
fn says(
    rt: &impl Abort,
    alloc: Global,
    wanted: &[Wanted],
    end: LineEnd,
    want: &[u8],
) -> Result<(), Fail> {
    let lines = vec![in alloc; list(alloc, wanted)?]?;
    let clients = vec![in alloc; Items::from_vec(lines)]?;
    let ends = vec![in alloc; vec![in alloc; end]?]?;
    let mut line = b"c1 l1 ".to_vec(alloc)?;
    line.extend_from_slice(want)?;
    line.push(b'\n')?;
    check(rt, alloc, &clients, &ends, &line)
}

#[test]
fn of_lookups_that_were_found(rt: HostRuntime) -> Result<(), Fail> {
    let alloc = rt.alloc();
    let matches = list(alloc, &[Some((InstId(4), 0x1000_00a0)), None])?;
    let found = LineEnd::Looked(LookEnd::Found(matches));
    says(
        &rt,
        alloc,
        &[MAIN, PRINT],
        found,
        b"found main@100000a0 print@none",
    )?;
    let none = LineEnd::Looked(LookEnd::Found(Items::new(alloc)));
    says(&rt, alloc, &[], none, b"found")
}

#[test]
fn of_lookups_that_were_not(rt: HostRuntime) -> Result<(), Fail> {
    let alloc = rt.alloc();
    let failed = LineEnd::Looked(LookEnd::Failed(InstId(7)));
    says(&rt, alloc, &[MAIN], failed, b"failed i7")?;
    let in_error = LineEnd::Looked(LookEnd::InError(InstId(0)));
    says(&rt, alloc, &[MAIN], in_error, b"inerror i0")?;
    let missing = LineEnd::Looked(LookEnd::Missing(PRINT.name));
    says(&rt, alloc, &[MAIN, PRINT], missing, b"missing print")?;
    let no_dylib = LineEnd::Looked(LookEnd::NoDylib(DylibId(2)));
    says(&rt, alloc, &[MAIN], no_dylib, b"nodylib d2")
}

#[test]
fn of_runs(rt: HostRuntime) -> Result<(), Fail> {
    let alloc = rt.alloc();
    let exited = LineEnd::Ran(RunEnd::Exited(42), Bytes::copy_of(alloc, b"Hi\n")?);
    says(&rt, alloc, &[], exited, b"exited 42 48690a")?;
    let trap = RunEnd::Trap(0x800_1000, Cause::Illegal(0));
    let trapped = LineEnd::Ran(trap, Bytes::new(alloc));
    says(&rt, alloc, &[], trapped, b"trap 8001000 illegal 0 -")?;
    let spent = LineEnd::Ran(RunEnd::OutOfFuel, Bytes::copy_of(alloc, &[0, 255])?);
    says(&rt, alloc, &[], spent, b"out of fuel 00ff")
}

#[test]
fn of_other_lines(rt: HostRuntime) -> Result<(), Fail> {
    let alloc = rt.alloc();
    let reply = Reply::Defined(UnitId(3), InstId(12), 40);
    says(
        &rt,
        alloc,
        &[],
        LineEnd::Replied(reply),
        b"defined u3 i12 40",
    )?;
    says(&rt, alloc, &[], LineEnd::Unfound, b"unfound")?;
    says(&rt, alloc, &[], LineEnd::Peeked(Peek::Unfound), b"unfound")?;
    says(&rt, alloc, &[], LineEnd::Peeked(Peek::NotYet), b"notyet")?;
    let ready = LineEnd::Peeked(Peek::Ready(0x1000_0000));
    says(&rt, alloc, &[], ready, b"ready 10000000")?;
    let full = LineEnd::Stopped(Stop::JournalFull(9));
    says(&rt, alloc, &[], full, b"full")?;
    let wanting = LineEnd::Stopped(Stop::NoMemory);
    says(&rt, alloc, &[], wanting, b"nomemory")
}

#[test]
fn of_several_clients(rt: HostRuntime) -> Result<(), Fail> {
    let alloc = rt.alloc();
    let first = vec![in alloc; list(alloc, &[])?, list(alloc, &[MAIN])?]?;
    let third = vec![in alloc; list(alloc, &[])?]?;
    let wanted = vec![in alloc;
        Items::from_vec(first),
        Items::new(alloc),
        Items::from_vec(third),
    ]?;
    let matches = list(alloc, &[Some((InstId(0), 16))])?;
    let found = LineEnd::Looked(LookEnd::Found(matches));
    let first = vec![in alloc; LineEnd::Replied(Reply::Removed), found]?;
    let third = vec![in alloc; LineEnd::Skipped]?;
    let ends = vec![in alloc; first, Vec::new(alloc), third]?;
    let want = b"c1 l1 removed\nc1 l2 found main@10\nc3 l1 skipped\n";
    check(&rt, alloc, &wanted, &ends, want)
}

#[test]
fn a_name_that_is_not_of_the_table(rt: HostRuntime) -> Result<(), Fail> {
    let alloc = rt.alloc();
    let missing = LineEnd::Looked(LookEnd::Missing(NameId(2)));
    let ends = vec![in alloc; vec![in alloc; missing]?]?;
    assert!(rt; !are_known_ends(&names(alloc)?, &[], &ends));
    Ok(())
}
