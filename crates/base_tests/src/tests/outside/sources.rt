//! Single reads of a source in memory.
use orc_ids::Bytes;
use orc_io::{MemSource, Source};
use std::alloc::{AllocError, Global};
use std::test::Fail;

/// A source of this text, whose reads with these numbers fail.
pub fn source_of(alloc: Global, text: &[u8], failing: &[u64]) -> Result<MemSource, AllocError> {
    let bytes = Bytes::copy_of(alloc, text)?;
    Ok(MemSource::new(bytes, failing.to_vec(alloc)?))
}

/// Whether a read of two bytes gives these, or fails where none are expected.
fn reads(source: &mut MemSource, expected: Option<&[u8]>) -> bool {
    let mut buf = [0u8; 2];
    match source.read(&mut buf) {
        Ok(count) => expected == Some(&buf[..count]),
        Err(_) => expected.is_none(),
    }
}

/// The first of these reads that isn't answered so.
fn first_other_read(source: &mut MemSource, answers: &[Option<&[u8]>]) -> Option<usize> {
    for at in 0..answers.len() {
        if !reads(source, answers[at]) {
            return Some(at);
        }
    }
    None
}

/// The first read that isn't answered so, and how many faults there were by then.
fn play(
    alloc: Global,
    text: &[u8],
    failing: &[u64],
    answers: &[Option<&[u8]>],
) -> Result<(Option<usize>, u64), AllocError> {
    let mut source = source_of(alloc, text, failing)?;
    let other = first_other_read(&mut source, answers);
    Ok((other, source.plan.faults))
}

#[test]
fn a_source_fails_at_its_listed_reads(rt: HostRuntime) -> Result<(), Fail> {
    let answers = [
        Some(b"ab".as_slice()),
        None,
        Some(b"c".as_slice()),
        None,
        Some(b"".as_slice()),
    ];
    assert_eq!(rt; play(rt.alloc(), b"abc", &[1, 3], &answers)?, (None, 2));
    Ok(())
}
