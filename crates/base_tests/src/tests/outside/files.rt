//! Files in memory.
use orc_ids::Bytes;
use orc_io::{FileError, Files, MemFiles, SureFiles};
use std::alloc::{AllocError, Global};
use std::test::Fail;

/// A call of files in memory.
#[derive(Clone, Copy)]
enum Step<'a> {
    /// Puts these bytes under a name.
    Put(&'a str, &'a [u8]),
    /// Reads a name, which has these bytes.
    Has(&'a str, &'a [u8]),
    /// Reads a name, which fails.
    Fails(&'a str),
    /// There were so many faults.
    Faults(u64),
}

/// Whether reading a name is answered so.
pub fn reads<F: Files>(
    alloc: Global,
    files: &mut F,
    name: &str,
    expected: Result<&[u8], FileError>,
) -> bool {
    match (files.read_file(alloc, name), expected) {
        (Ok(bytes), Ok(text)) => bytes.as_slice() == text,
        (Err(error), Err(other)) => error == other,
        _ => false,
    }
}

fn puts(alloc: Global, files: &mut MemFiles, name: &str, text: &[u8]) -> Result<(), AllocError> {
    files.put(alloc, name, Bytes::copy_of(alloc, text)?)
}

/// Whether a call is answered so.
fn is_answered(alloc: Global, files: &mut MemFiles, step: Step<'_>) -> bool {
    match step {
        Step::Put(name, text) => puts(alloc, files, name, text).is_ok(),
        Step::Has(name, text) => reads(alloc, files, name, Ok(text)),
        Step::Fails(name) => reads(alloc, files, name, Err(FileError::Failed)),
        Step::Faults(count) => files.plan.faults == count,
    }
}

/// The first call that isn't answered so, of files whose reads with these numbers fail.
fn play(alloc: Global, failing: &[u64], steps: &[Step<'_>]) -> Result<Option<usize>, AllocError> {
    let mut files = MemFiles::new(alloc, failing.to_vec(alloc)?);
    for at in 0..steps.len() {
        if !is_answered(alloc, &mut files, steps[at]) {
            return Ok(Some(at));
        }
    }
    Ok(None)
}

#[test]
fn files_fail_at_their_listed_reads_and_where_one_is_missing(rt: HostRuntime) -> Result<(), Fail> {
    let steps = [
        Step::Put("a.o", b"first"),
        Step::Put("a.o", b"second"),
        Step::Has("a.o", b"second"),
        Step::Fails("a.o"),
        Step::Has("a.o", b"second"),
        Step::Fails("b.o"),
        Step::Faults(2),
    ];
    assert_eq!(rt; play(rt.alloc(), &[1], &steps)?, None);
    Ok(())
}

#[test]
fn memory_is_enough_for_any_number_of_files(rt: HostRuntime) -> Result<(), Fail> {
    let steps = [
        Step::Put("", b""),
        Step::Has("", b""),
        Step::Put("a", b"a"),
        Step::Has("a", b"a"),
        Step::Put("b.o", b"several"),
        Step::Has("b.o", b"several"),
    ];
    assert_eq!(rt; play(rt.alloc(), &[], &steps)?, None);
    Ok(())
}

/// The first of these names that doesn't have these bytes in files that never fail and have one of them.
fn first_other_content(
    alloc: Global,
    put: (&str, &[u8]),
    contents: &[(&str, &[u8])],
) -> Result<Option<usize>, AllocError> {
    let mut files = SureFiles::new(alloc);
    files.put(alloc, put.0, Bytes::copy_of(alloc, put.1)?)?;
    for at in 0..contents.len() {
        let (name, text) = contents[at];
        if !reads(alloc, &mut files, name, Ok(text)) {
            return Ok(Some(at));
        }
    }
    Ok(None)
}

#[test]
fn a_missing_file_is_empty_where_none_fails(rt: HostRuntime) -> Result<(), Fail> {
    let contents: [(&str, &[u8]); 2] = [("a.o", b"first"), ("b.o", b"")];
    let other = first_other_content(rt.alloc(), ("a.o", b"first"), &contents)?;
    assert_eq!(rt; other, None);
    Ok(())
}
