use object_files::{LoadError, ObjectWhy, distinct_files, load_files};
use orc_ids::{Bytes, NameId, UnitName};
use orc_io::{Files, MemFiles, SureFiles};
use orc_names::{NameHasher, Names};
use sample_objects::{HELLO, TWO};
use session_model::UnitKind;
use std::alloc::{AllocError, Global};
use std::process::Abort;
use std::test::Fail;

/// The words of a command line, with one file in it twice.
const WORDS: [&str; 3] = ["two.o", "hello.o", "two.o"];

/// An object whose first relocation has an unknown type.
fn of_unknown_type(alloc: Global) -> Result<Bytes, AllocError> {
    let mut unknown = HELLO.to_vec(alloc)?;
    if let Some(kind) = unknown.get_mut(120) {
        *kind = 255;
    }
    Ok(Bytes::from_vec(unknown))
}

/// Some files, and one that is no object and one whose first relocation has an unknown type.
fn some_files(alloc: Global) -> Result<MemFiles, Fail> {
    let mut files = MemFiles::new(alloc, Vec::new(alloc));
    let known = [
        ("hello.o", HELLO.as_slice()),
        ("two.o", TWO.as_slice()),
        ("text.o", b"no object".as_slice()),
    ];
    for (name, bytes) in known {
        files.put(alloc, name, Bytes::copy_of(alloc, bytes)?)?;
    }
    files.put(alloc, "unknown.o", of_unknown_type(alloc)?)?;
    Ok(files)
}

/// The units have these names.
fn are_named<U: UnitKind>(units: &[U], names: &[UnitName]) -> bool {
    for (unit, name) in units.iter().zip(names) {
        if unit.name() != *name {
            return false;
        }
    }
    units.len() == names.len()
}

/// So many reads make units of the files, which have these names; a name that was interned before has its
/// number still.
fn are_loaded(
    alloc: Global,
    file_names: &[&str],
    unit_names: &[UnitName],
    reads: u64,
) -> Result<bool, Fail> {
    let mut files = some_files(alloc)?;
    let mut names = Names::new(alloc);
    names.intern(b"main")?;
    let units = load_files(alloc, &mut files, file_names, &mut names)?;
    Ok(
        files.plan.calls == reads
            && names.find(b"main") == Some(NameId(0))
            && are_named(units.as_slice(), unit_names),
    )
}

/// Why a load is stopped, by the number of a file.
#[derive(Clone, Copy)]
enum Stop {
    /// It is missing.
    Fault(u32),
    /// It is too long.
    Long(u32),
    /// It is no object.
    Elf(u32),
    /// It has no graph.
    Graph(u32),
}

/// The load is stopped as the table says.
fn is_stop(why: LoadError, stop: Stop) -> bool {
    match (why, stop) {
        (LoadError::Fault(file), Stop::Fault(number)) => file == number,
        (LoadError::TooLong(file), Stop::Long(number)) => file == number,
        (LoadError::Refused(file, ObjectWhy::Elf(_)), Stop::Elf(number)) => file == number,
        (LoadError::Refused(file, ObjectWhy::Graph(_)), Stop::Graph(number)) => file == number,
        _ => false,
    }
}

/// The load of the files of these names is stopped so.
fn is_stopped<F: Files>(alloc: Global, files: &mut F, file_names: &[&str], stop: Stop) -> bool {
    let mut names = Names::new(alloc);
    match load_files(alloc, files, file_names, &mut names) {
        Ok(_) => false,
        Err(why) => is_stop(why, stop),
    }
}

/// The loads of the rows, one after another, are stopped so, and there are so many faults at the end.
fn expect_stops(
    rt: &impl Abort,
    alloc: Global,
    rows: &[(&[&str], Stop)],
    faults: u64,
) -> Result<(), Fail> {
    let mut files = some_files(alloc)?;
    for (number, (file_names, stop)) in rows.iter().enumerate() {
        assert!(rt;
            is_stopped(alloc, &mut files, file_names, *stop),
            "row {number}"
        );
    }
    assert_eq!(rt; files.plan.faults, faults);
    Ok(())
}

#[test]
fn a_file_that_is_named_twice_is_one_file(rt: HostRuntime) -> Result<(), Fail> {
    let alloc = rt.alloc();
    let distinct = distinct_files(alloc, NameHasher::Fixed, WORDS.as_slice())?;
    assert_eq!(rt; distinct.files.as_slice(), ["two.o", "hello.o"].as_slice());
    assert_eq!(rt; distinct.numbers.as_slice(), [0, 1, 0].as_slice());
    Ok(())
}

#[test]
fn each_file_becomes_a_unit(rt: HostRuntime) -> Result<(), Fail> {
    let names = [UnitName::Object(0), UnitName::Object(1)];
    assert!(rt; are_loaded(rt.alloc(), &["two.o", "hello.o"], &names, 2)?);
    Ok(())
}

#[test]
fn a_missing_file_stops_the_load(rt: HostRuntime) -> Result<(), Fail> {
    let rows = [(["hello.o", "none.o", "text.o"].as_slice(), Stop::Fault(1))];
    expect_stops(&rt, rt.alloc(), &rows, 1)
}

#[test]
fn a_refused_file_stops_the_load(rt: HostRuntime) -> Result<(), Fail> {
    let rows = [
        (["text.o", "none.o"].as_slice(), Stop::Elf(0)),
        (&["two.o", "hello.o", "unknown.o"], Stop::Graph(2)),
    ];
    expect_stops(&rt, rt.alloc(), &rows, 0)
}

/// A file of so many zeros.
fn long_file(alloc: Global, len: usize) -> Result<SureFiles, Fail> {
    let mut bytes = Vec::new(alloc);
    bytes.resize(len, 0)?;
    let mut files = SureFiles::new(alloc);
    files.put(alloc, "long.o", Bytes::from_vec(bytes))?;
    Ok(files)
}

#[test]
fn a_file_of_more_than_16_mib_is_too_long(rt: HostRuntime) -> Result<(), Fail> {
    let mut files = long_file(rt.alloc(), 16 * 1024 * 1024 + 1)?;
    assert!(rt; is_stopped(rt.alloc(), &mut files, &["long.o"], Stop::Long(0)));
    Ok(())
}
