//! Sinks in memory, and the loop that writes a whole text.
use orc_io::{Failed, MemSink, Sink, SureSink, write_all};
use std::alloc::{AllocError, Global};
use std::test::Fail;

/// A call of a sink, or what it holds by then.
#[derive(Clone, Copy)]
enum Step<'a> {
    /// Writes a piece, of which so many bytes are taken.
    Takes(&'a [u8], usize),
    /// Writes a piece, which fails.
    Fails(&'a [u8]),
    /// Writes a text in as many pieces as it needs, which fails.
    FailsWhole(&'a [u8]),
    /// Holds these bytes.
    Holds(&'a [u8]),
    /// There were so many faults.
    Faults(u64),
}

/// Whether a call is answered so.
fn is_answered(sink: &mut MemSink, step: Step<'_>) -> bool {
    match step {
        Step::Takes(piece, count) => sink.write(piece) == Ok(count),
        Step::Fails(piece) => sink.write(piece) == Err(Failed),
        Step::FailsWhole(text) => write_all(sink, text) == Err(Failed),
        Step::Holds(bytes) => sink.bytes() == bytes,
        Step::Faults(count) => sink.plan.faults == count,
    }
}

/// The first call that isn't answered so, of a sink whose writes with these numbers fail and that has
/// room for so many bytes.
fn play(
    alloc: Global,
    failing: &[u64],
    room: usize,
    steps: &[Step<'_>],
) -> Result<Option<usize>, AllocError> {
    let mut sink = MemSink::new(alloc, failing.to_vec(alloc)?, room)?;
    for at in 0..steps.len() {
        if !is_answered(&mut sink, steps[at]) {
            return Ok(Some(at));
        }
    }
    Ok(None)
}

#[test]
fn a_sink_fails_at_its_listed_writes_and_where_it_is_full(rt: HostRuntime) -> Result<(), Fail> {
    let steps = [
        Step::Fails(b"ab"),
        Step::Takes(b"ab", 2),
        Step::Takes(b"cd", 1),
        Step::Fails(b"d"),
        Step::Takes(b"", 0),
        Step::Holds(b"abc"),
        Step::Faults(2),
    ];
    assert_eq!(rt; play(rt.alloc(), &[0], 3, &steps)?, None);
    Ok(())
}

#[test]
fn a_text_is_written_in_part_where_a_sink_is_full(rt: HostRuntime) -> Result<(), Fail> {
    let steps = [Step::FailsWhole(b"journal"), Step::Holds(b"jou")];
    assert_eq!(rt; play(rt.alloc(), &[], 3, &steps)?, None);
    Ok(())
}

/// Whether a sink that never fails takes this text whole.
fn is_written_whole(alloc: Global, text: &[u8]) -> bool {
    let mut sink = SureSink::new(alloc);
    let written = write_all(&mut sink, text);
    written == Ok(()) && sink.bytes() == Some(text)
}

#[test]
fn a_text_is_written_whole(rt: HostRuntime) {
    assert!(rt; is_written_whole(rt.alloc(), b"journal"));
}

#[test]
fn memory_is_enough_for_any_number_of_failures(rt: HostRuntime) -> Result<(), Fail> {
    let steps = [Step::Takes(b"", 0), Step::Holds(b"")];
    assert_eq!(rt; play(rt.alloc(), &[1], 0, &steps)?, None);
    assert_eq!(rt; play(rt.alloc(), &[1, 2], 0, &steps)?, None);
    Ok(())
}
