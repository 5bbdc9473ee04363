//! Sources that are read to their end or past a limit.
use crate::tests::outside::sources::source_of;
use orc_ids::Bytes;
use orc_io::{ReadError, SCRIPT_LIMIT, Source, SureSource, read_expected, read_source};
use std::alloc::{AllocError, Global};
use std::test::Fail;

/// How reading to the end answers.
#[derive(Clone, Copy)]
enum Ended<'a> {
    /// All that there was.
    Whole(&'a [u8]),
    /// The front of what is longer than the limit.
    TooLong(&'a [u8]),
    /// A read failed.
    Failed,
}

fn ends_so(answer: Result<Bytes, ReadError>, expected: Ended<'_>) -> bool {
    match (answer, expected) {
        (Ok(bytes), Ended::Whole(text)) => bytes.as_slice() == text,
        (Err(ReadError::TooLong(front)), Ended::TooLong(text)) => front.as_slice() == text,
        (Err(ReadError::Failed), Ended::Failed) => true,
        _ => false,
    }
}

/// A source that never fails.
fn sure_of(alloc: Global, text: &[u8]) -> Result<SureSource, AllocError> {
    Ok(SureSource::new(Bytes::copy_of(alloc, text)?))
}

/// Whether a source of this text that never fails is so read by this limit.
fn reads(
    alloc: Global,
    text: &[u8],
    limit: usize,
    expected: Ended<'_>,
) -> Result<bool, AllocError> {
    let mut source = sure_of(alloc, text)?;
    Ok(ends_so(read_source(alloc, &mut source, limit), expected))
}

/// So many times the byte 7 are read whole by the limit of a script.
fn many_are_read(alloc: Global, count: usize) -> Result<bool, AllocError> {
    let mut text = Vec::new(alloc);
    text.resize(count, 7)?;
    reads(alloc, &text, SCRIPT_LIMIT, Ended::Whole(&text))
}

/// Whether a source whose reads with these numbers fail is so read by a limit of six.
fn reads_failing(alloc: Global, failing: &[u64], expected: Ended<'_>) -> Result<bool, AllocError> {
    let mut source = source_of(alloc, b"script", failing)?;
    Ok(ends_so(read_source(alloc, &mut source, 6), expected))
}

#[test]
fn a_source_is_read_to_its_end(rt: HostRuntime) -> Result<(), Fail> {
    assert!(rt; many_are_read(rt.alloc(), 200_000)?);
    Ok(())
}

#[test]
fn a_source_is_read_past_its_limit_by_one_byte(rt: HostRuntime) -> Result<(), Fail> {
    assert!(rt; reads(rt.alloc(), b"script", 5, Ended::TooLong(b"script"))?);
    Ok(())
}

#[test]
fn a_source_whose_second_read_fails_is_not_read(rt: HostRuntime) -> Result<(), Fail> {
    assert!(rt; reads_failing(rt.alloc(), &[1], Ended::Failed)?);
    Ok(())
}

/// Texts of each number of bytes up to a limit of two.
const TEXTS: [&[u8]; 3] = [b"", b"a", b"ab"];

/// Whether a source of this text is read whole where so many bytes are expected.
fn reads_expecting(alloc: Global, text: &[u8], expected: usize) -> Result<bool, AllocError> {
    let mut source = sure_of(alloc, text)?;
    let answer = read_expected(alloc, &mut source, 2, expected);
    Ok(ends_so(answer, Ended::Whole(text)))
}

/// The number of the first text that isn't read whole where so many bytes are expected.
fn first_unread_expecting(alloc: Global, expected: usize) -> Result<Option<usize>, AllocError> {
    for at in 0..TEXTS.len() {
        if !reads_expecting(alloc, TEXTS[at], expected)? {
            return Ok(Some(at));
        }
    }
    Ok(None)
}

/// The number of the first text that isn't read whole.
fn first_unread(alloc: Global) -> Result<Option<usize>, AllocError> {
    for at in 0..TEXTS.len() {
        if !reads(alloc, TEXTS[at], 2, Ended::Whole(TEXTS[at]))? {
            return Ok(Some(at));
        }
    }
    Ok(None)
}

/// The first number of expected bytes, below a bound, at which a text isn't read whole.
fn first_unread_below(alloc: Global, bound: usize) -> Result<Option<usize>, AllocError> {
    for expected in 0..bound {
        if first_unread_expecting(alloc, expected)?.is_some() {
            return Ok(Some(expected));
        }
    }
    Ok(None)
}

#[test]
fn memory_is_enough_for_any_number_of_bytes(rt: HostRuntime) -> Result<(), Fail> {
    assert_eq!(rt; first_unread(rt.alloc())?, None);
    assert_eq!(rt; first_unread_below(rt.alloc(), 4)?, None);
    Ok(())
}
