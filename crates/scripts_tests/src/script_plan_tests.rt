use orc_ids::{Level, NameId, UnitName};
use orc_io::Note;
use orc_names::NameHasher;
use script_model::{ClientCall, Lookup, Plan, SetUpCall};
use script_plan::{Planned, plan_of};
use session_model::UnitKind;
use session_script::read_script;
use session_units::ObjectUnit;
use std::alloc::{AllocError, Global};
use std::test::Fail;

/// A line of each kind, and two of some.
const SCRIPT: &str = "dylib main
dylib other
order main other:exported
tracker main t
tracker other u
object main t two.o
absolute main t low=10 high=20
generator other u one.o
alias main t start=other:begin
absolute other u last=30
alias other u end=main:high
client
lookup ready main:all start
watch resolved main:exported,other:all low high?
move t u
client
define other u one.o
watch ready other:all last
run start 1000 7 8
remove u
";

/// A stand-in for the unit of a file: it offers one name.
fn file_unit(alloc: Global, file: u32) -> Result<ObjectUnit, AllocError> {
    let symbols = [(NameId(file), 4_096)];
    ObjectUnit::of_absolutes(alloc, UnitName::Object(file), symbols.as_slice())
}

/// Stand-ins for the units of two files.
fn two_units(alloc: Global) -> Result<Vec<ObjectUnit>, AllocError> {
    Ok(vec![in alloc; file_unit(alloc, 0)?, file_unit(alloc, 1)?]?)
}

/// Writes the name of a unit at the end of a line.
fn write_name(text: &mut String, name: UnitName) -> Result<(), AllocError> {
    match name {
        UnitName::Object(k) => writeln!(text, "Object({k})"),
        UnitName::Absolute(k) => writeln!(text, "Absolute({k})"),
        UnitName::Alias(k) => writeln!(text, "Alias({k})"),
    }
}

/// Writes a call of a set-up in a line.
fn write_set_up<U: UnitKind>(text: &mut String, call: &SetUpCall<U>) -> Result<(), AllocError> {
    match call {
        SetUpCall::Dylib(name) => writeln!(text, "dylib n{}", name.0)?,
        SetUpCall::Order(d, order) => writeln!(text, "order d{} {}", d.0, order.len())?,
        SetUpCall::Tracker(d) => writeln!(text, "tracker d{}", d.0)?,
        SetUpCall::Define(d, t, unit) => {
            write!(text, "define d{} t{} ", d.0, t.0)?;
            write_name(text, unit.name())?;
        }
        SetUpCall::Attach(d, t, unit) => {
            write!(text, "attach d{} t{} ", d.0, t.0)?;
            write_name(text, unit.name())?;
        }
    }
    Ok(())
}

/// Writes a lookup in a line, with the number of its note and the note, if it has one.
fn write_lookup(
    text: &mut String,
    names: &Lookup,
    note: &Option<(u32, Note)>,
) -> Result<(), AllocError> {
    let wanted = names.wanted.len();
    let level = match names.level {
        Level::Resolved => "Resolved",
        Level::Ready => "Ready",
    };
    match note {
        Some((note, what)) => {
            writeln!(text, "{level} {wanted} {note}: {}", what.number)?;
        }
        None => writeln!(text, "{level} {wanted}")?,
    }
    Ok(())
}

/// Writes a call of a client in a line.
fn write_call<U: UnitKind>(
    text: &mut String,
    call: &ClientCall<U, Note>,
) -> Result<(), AllocError> {
    match call {
        ClientCall::Define(d, t, unit) => {
            write!(text, "define d{} t{} ", d.0, t.0)?;
            write_name(text, unit.name())?;
        }
        ClientCall::LookUp(names, note) => write_lookup(text, names, note)?,
        ClientCall::Move(t, to) => writeln!(text, "move t{} t{}", t.0, to.0)?,
        ClientCall::Remove(t) => writeln!(text, "remove t{}", t.0)?,
        ClientCall::Run(name, fuel, args) => {
            writeln!(text, "run n{} {fuel} {:?}", name.0, args.as_slice())?;
        }
        ClientCall::Peek(name) => writeln!(text, "peek n{}", name.0)?,
    }
    Ok(())
}

/// Writes a client's calls, below a line of their own.
fn write_client<U: UnitKind>(
    text: &mut String,
    calls: &[ClientCall<U, Note>],
) -> Result<(), AllocError> {
    writeln!(text, "client")?;
    for call in calls {
        write_call(text, call)?;
    }
    Ok(())
}

/// Writes a plan and the notes that it doesn't use, a line each.
fn write_plan<U: UnitKind>(
    text: &mut String,
    plan: &Plan<U, Note>,
    unused: &[Note],
) -> Result<(), AllocError> {
    for call in &plan.set_up {
        write_set_up(text, call)?;
    }
    for calls in &plan.clients {
        write_client(text, calls.as_slice())?;
    }
    for note in unused {
        writeln!(text, "unused {}", note.number)?;
    }
    Ok(())
}

/// The lines of a plan and of the notes that it doesn't use.
fn lines_of(alloc: Global, planned: Planned<Note>) -> Result<String, Fail> {
    let mut text = String::new(alloc);
    write_plan(&mut text, &planned.plan, planned.unused.as_slice())?;
    Ok(text)
}

/// The lines of a script's plan, with these units for its files and three notes.
fn planned(alloc: Global, script: &str, units: &[ObjectUnit]) -> Result<String, Fail> {
    let script = read_script(alloc, script.as_bytes(), 3, NameHasher::Fixed)?;
    if units.len() != script.files.len() {
        return Err(Fail::from("other files"));
    }
    let planned = plan_of(alloc, &script, units, Note::numbered(alloc, 3)?)?;
    lines_of(alloc, planned)
}

#[test]
fn a_line_of_each_kind_has_its_call(rt: HostRuntime) -> Result<(), Fail> {
    let units = two_units(rt.alloc())?;
    let lines = planned(rt.alloc(), SCRIPT, units.as_slice())?;
    assert_eq!(rt;
        lines.as_str(),
        "dylib n0
dylib n1
order d0 1
tracker d0
tracker d1
define d0 t0 Object(0)
define d0 t0 Absolute(0)
attach d1 t1 Object(1)
define d0 t0 Alias(0)
define d1 t1 Absolute(1)
define d1 t1 Alias(1)
client
Ready 1
Resolved 2 0: 0
move t0 t1
client
define d1 t1 Object(1)
Ready 1 1: 1
run n4 1000 [7, 8]
remove t1
unused 2
"
    );
    Ok(())
}

/// A script that gives so many symbols their addresses, in one line.
fn absolute_script(alloc: Global, symbols: u32) -> Result<String, AllocError> {
    let mut text = String::new(alloc);
    write!(text, "dylib main\ntracker main t\nabsolute main t")?;
    for symbol in 0..symbols {
        write!(text, " a{symbol}=0")?;
    }
    Ok(text)
}

#[test]
fn a_line_may_have_more_symbols_than_an_object(rt: HostRuntime) -> Result<(), Fail> {
    let script = absolute_script(rt.alloc(), 65_537)?;
    let lines = planned(rt.alloc(), script.as_str(), &[])?;
    assert_eq!(rt;
        lines.as_str(),
        "dylib n0
tracker d0
define d0 t0 Absolute(0)
unused 0
unused 1
unused 2
"
    );
    Ok(())
}
