//! Calls are made, and looked at.
ghost use Rattle.std.specs.Prelude.{◌≤◌};

use super::calls::{Call, Reads};
use super::outside::{Outside, SureOutside};
use super::texts::text_of;
use crate::end_of_call;
use orc_cli::{Ended, JOURNAL_LIMIT, Noted, Notes, orc, orc_sized};
use orc_ids::Outcome;
use orc_io::{Files, Gate, Note, OpenGate, Sink, Source};
use std::alloc::{AllocError, Global};
use std::process::{Abort, ExitCode};
use std::random::RandomSource;
use std::rc::RcStr;
use std::sync::Wait;
use std::test::Fail;
use std::thread::Threads;

/// Makes a call over devices that fail where they are told to, and looks whether it comes to what it is to.
pub fn expect<R: Threads + Wait + Sync + RandomSource + Abort + AllocGlobal>(
    rt: &R,
    call: &Call,
) -> Result<(), Fail> {
    expect_at(rt, call, &OpenGate)
}

/// Makes each of some calls, and looks whether it comes to what it is to.
pub fn expect_each<R: Threads + Wait + Sync + RandomSource + Abort + AllocGlobal>(
    rt: &R,
    calls: &[Call],
) -> Result<(), Fail> {
    for call in calls {
        expect(rt, call)?;
    }
    Ok(())
}

/// Makes a call with a gate that the jobs pass, and looks whether it comes to what it is to.
pub fn expect_at<R: Threads + Wait + Sync + RandomSource + Abort + AllocGlobal, G: Gate + Sync>(
    rt: &R,
    call: &Call,
    gate: &G,
) -> Result<(), Fail> {
    expect_over(rt, call, Outside::new(rt.alloc(), call)?, gate)
}

/// The same over these devices.
pub fn expect_over<R: Threads + Wait + Sync + RandomSource + Abort + AllocGlobal, G: Gate + Sync>(
    rt: &R,
    call: &Call,
    outside: Outside,
    gate: &G,
) -> Result<(), Fail> {
    let mut outside = outside;
    let ended = make(
        rt,
        call,
        &mut outside.source,
        &mut outside.files,
        &mut outside.out,
        &mut outside.log,
        gate,
    )?;
    expect_end(rt, call, ended, &outside)
}

/// Makes a call with a journal of so many places, and looks whether it comes to what it is to.
pub fn expect_sized<
    R: Threads + Wait + Sync + RandomSource + Abort + AllocGlobal,
    const JMAX: usize,
>(rt: &R, call: &Call) -> Result<(), Fail>
    requires { JMAX ≤ JOURNAL_LIMIT }
{
    let mut outside = Outside::new(rt.alloc(), call)?;
    let ended = make_sized::<R, JMAX>(rt, call, &mut outside)?;
    expect_end(rt, call, ended, &outside)
}

/// Makes a call over devices that never fail, and looks whether it comes to what it is to.
pub fn expect_surely<R: Threads + Wait + Sync + RandomSource + Abort + AllocGlobal>(
    rt: &R,
    call: &Call,
) -> Result<(), Fail> {
    let mut outside = SureOutside::new(rt.alloc(), call)?;
    let ended = make_surely(rt, call, &mut outside)?;
    expect_kept(
        rt,
        call,
        ended.status,
        outside.out.bytes(),
        outside.log.bytes(),
    );
    expect_notes(rt, call.notes, ended.notes)
}

/// Makes each of some calls over devices that never fail, and looks whether it comes to what it is to.
pub fn expect_each_surely<R: Threads + Wait + Sync + RandomSource + Abort + AllocGlobal>(
    rt: &R,
    calls: &[Call],
) -> Result<(), Fail> {
    for call in calls {
        expect_surely(rt, call)?;
    }
    Ok(())
}

/// Makes a call as the program does, and looks whether it ends with the call's status.
pub fn expect_exit<R: Threads + Wait + Sync + RandomSource + Abort + AllocGlobal>(
    rt: &R,
    call: &Call,
) -> Result<(), Fail> {
    let mut outside = Outside::new(rt.alloc(), call)?;
    let words = words_of(rt.alloc(), call.words)?;
    let exit = end_of_call(
        rt,
        rt.alloc(),
        words.as_slice(),
        &mut outside.source,
        &mut outside.files,
        &mut outside.out,
        &mut outside.log,
    );
    assert_eq!(rt;
        exit,
        ExitCode::from(call.status),
        "the end of {words:?}",
        words = call.words
    );
    expect_texts(
        rt,
        call,
        call.status,
        outside.out.bytes(),
        outside.log.bytes(),
    );
    expect_reads(rt, call, &outside);
    Ok(())
}

/// Makes a call over devices that never fail.
fn make_surely<R: Threads + Wait + Sync + RandomSource + AllocGlobal>(
    rt: &R,
    call: &Call,
    outside: &mut SureOutside,
) -> Result<Ended<Note>, Fail> {
    make(
        rt,
        call,
        &mut outside.source,
        &mut outside.files,
        &mut outside.out,
        &mut outside.log,
        &OpenGate,
    )
}

/// Makes a call over devices that never fail, whatever it comes to.
pub fn make_quietly<R: Threads + Wait + Sync + RandomSource + AllocGlobal>(
    rt: &R,
    call: &Call,
    outside: &mut SureOutside,
) -> Result<(), Fail> {
    let _ = make_surely(rt, call, outside)?;
    Ok(())
}

/// Makes a call over some devices.
fn make<
    R: Threads + Wait + Sync + RandomSource + AllocGlobal,
    S: Source,
    F: Files,
    O: Sink,
    L: Sink,
    G: Gate + Sync,
>(
    rt: &R,
    call: &Call,
    source: &mut S,
    files: &mut F,
    out: &mut O,
    log: &mut L,
    gate: &G,
) -> Result<Ended<Note>, Fail> {
    let alloc = rt.alloc();
    let words = words_of(alloc, call.words)?;
    let notes = Note::numbered(alloc, u32::try_from(call.notes.len())?)?;
    Ok(orc(
        rt,
        alloc,
        words.as_slice(),
        source,
        files,
        out,
        log,
        gate,
        notes,
    ))
}

/// Makes a call whose journal has so many places.
fn make_sized<R: Threads + Wait + Sync + RandomSource + AllocGlobal, const JMAX: usize>(
    rt: &R,
    call: &Call,
    outside: &mut Outside,
) -> Result<Ended<Note>, Fail>
    requires { JMAX ≤ JOURNAL_LIMIT }
{
    let alloc = rt.alloc();
    let words = words_of(alloc, call.words)?;
    let notes = Note::numbered(alloc, u32::try_from(call.notes.len())?)?;
    Ok(orc_sized::<_, _, _, _, _, _, _, JMAX>(
        rt,
        alloc,
        words.as_slice(),
        &mut outside.source,
        &mut outside.files,
        &mut outside.out,
        &mut outside.log,
        &OpenGate,
        notes,
    ))
}

/// The words of a command line.
fn words_of(alloc: Global, texts: &[&str]) -> Result<Vec<RcStr>, AllocError> {
    let mut words = Vec::new(alloc);
    for text in texts {
        words.push(RcStr::from_str(alloc, text)?)?;
    }
    Ok(words)
}

/// A call over these devices came to what it is to.
fn expect_end<R: Abort + AllocGlobal>(
    rt: &R,
    call: &Call,
    ended: Ended<Note>,
    outside: &Outside,
) -> Result<(), Fail> {
    expect_texts(
        rt,
        call,
        ended.status,
        outside.out.bytes(),
        outside.log.bytes(),
    );
    expect_reads(rt, call, outside);
    expect_notes(rt, call.notes, ended.notes)
}

/// A call came to what it is to: what the output and the log hold, and the status.
fn expect_texts(rt: &impl Abort, call: &Call, status: u8, out: &[u8], log: &[u8]) {
    let (words, is, expected) = (call.words, text_of(log), call.log.text());
    assert!(rt;
        call.log.is_met(log),
        "the log of {words:?} is {is}and not {expected}"
    );
    let (is, expected) = (text_of(out), call.out.text());
    assert!(rt;
        call.out.is_met(out),
        "the output of {words:?} is {is}and not {expected}"
    );
    assert_eq!(rt; status, call.status, "the status of {words:?}");
}

/// The same, where memory sufficed to keep what was written.
fn expect_kept(rt: &impl Abort, call: &Call, status: u8, out: Option<&[u8]>, log: Option<&[u8]>) {
    assert!(rt;
        out.is_some() && log.is_some(),
        "memory for what was written"
    );
    expect_texts(rt, call, status, out.unwrap_or(b""), log.unwrap_or(b""));
}

/// Nothing was read that the call may not read.
fn expect_reads(rt: &impl Abort, call: &Call, outside: &Outside) {
    let (source, files) = (outside.source.plan.calls, outside.files.plan.calls);
    let fits = match call.reads {
        Reads::SourceAndFiles => true,
        Reads::FilesAlone => source == 0,
        Reads::Nothing => source == 0 && files == 0,
    };
    assert!(rt; fits, "{source} reads of the source, {files} of files");
}

/// Each note came back, and heard what it was told.
fn expect_notes<R: Abort + AllocGlobal>(
    rt: &R,
    outcomes: &[Option<Outcome>],
    notes: Notes<Note>,
) -> Result<(), Fail> {
    let notes = notes.into_vec(rt.alloc())?;
    assert_eq!(rt; notes.len(), outcomes.len());
    assert!(rt;
        were_told(notes.as_slice(), outcomes),
        "a note heard something else"
    );
    Ok(())
}

/// Whether each note stands in its place, and was told its outcome.
fn were_told(notes: &[Noted<Note>], outcomes: &[Option<Outcome>]) -> bool {
    let mut number = 0;
    for (noted, outcome) in notes.iter().zip(outcomes) {
        if !was_told(noted, number, *outcome) {
            return false;
        }
        number = number.wrapping_add(1);
    }
    true
}

/// Whether the note of this number was told this, or nothing where it is none, and has heard just that.
fn was_told(noted: &Noted<Note>, number: u32, outcome: Option<Outcome>) -> bool {
    let (note, told) = match noted {
        Noted::Fired(note) => (note, true),
        Noted::Unfired(note) => (note, false),
    };
    note.number == number && note.outcome == outcome && told == outcome.is_some()
}
