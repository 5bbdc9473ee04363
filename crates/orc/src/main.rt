//! The program `orc`: it calls the top call of `orc_cli` with the real outside, and ends with its
//! status. The source is standard input, files are those of the current folder, the output is
//! standard output and the log standard error. Nothing is proved of what these hold; what the top
//! call does with them is stated in `orc_cli`, which to read next.
#![tactic(auto)]

use answers::{Answer, end_line};
use command_line::UsageKind;
use orc_cli::orc;
use orc_io::{Files, FolderFiles, Note, OpenGate, Sink, Source, StdSink, StdSource, write_all};
use std::alloc::Global;
use std::io::ErrorKind;
use std::process::ExitCode;
use std::random::RandomSource;
use std::rc::RcStr;
use std::rt::Env;
use std::sync::Wait;
use std::thread::Threads;
use std::{env, io};

/// How many notifiers a call is handed.
const NOTES: u32 = 16;

fn main(rt: HostRuntime) -> ExitCode {
    let alloc = rt.alloc();
    let mut log = StdSink::new(rt.stderr());
    let words = match words_of(&rt) {
        Ok(words) => words,
        Err(answer) => return refuse(alloc, &mut log, answer),
    };
    let runtime: Result<_, _> = rt.clone();
    let Ok(runtime) = runtime else {
        return refuse(alloc, &mut log, Answer::NoMemory);
    };
    end_of_call(
        &rt,
        alloc,
        words.as_slice(),
        &mut StdSource::new(rt.stdin()),
        &mut FolderFiles::new(runtime),
        &mut StdSink::new(rt.stdout()),
        &mut log,
    )
}

/// Makes the call of these words over this outside, and ends with its status.
fn end_of_call<R: Threads + Wait + Sync + RandomSource, S: Source, F: Files, O: Sink, L: Sink>(
    rt: &R,
    alloc: Global,
    words: &[RcStr],
    source: &mut S,
    files: &mut F,
    out: &mut O,
    log: &mut L,
) -> ExitCode {
    let Ok(notes) = Note::numbered(alloc, NOTES) else {
        return refuse(alloc, log, Answer::NoMemory);
    };
    let ended = orc(rt, alloc, words, source, files, out, log, &OpenGate, notes);
    ExitCode::from(ended.status)
}

/// The words of the command line.
fn words_of<R: Env + AllocGlobal>(rt: &R) -> Result<Vec<RcStr>, Answer> {
    let args = match env::args(rt) {
        Ok(args) => args,
        Err(error) => return Err(without_words(&error)),
    };
    let mut words = Vec::new(rt.alloc());
    for arg in args {
        let Ok(word) = RcStr::from_string(arg) else {
            return Err(Answer::NoMemory);
        };
        if words.push(word).is_err() {
            return Err(Answer::NoMemory);
        }
    }
    Ok(words)
}

/// What is answered where the words can't be had: memory is wanting, or one of them is no text, so that
/// they don't fit.
fn without_words(error: &io::Error) -> Answer {
    match error.kind() {
        ErrorKind::OutOfMemory => Answer::NoMemory,
        _ => Answer::Usage(UsageKind::BadWords),
    }
}

/// Ends with an answer that was found before the call; where there is no memory for its end line, with that.
fn refuse<L: Sink>(alloc: Global, log: &mut L, answer: Answer) -> ExitCode {
    match end_line(alloc, &answer) {
        Ok(line) => end_with(log, line.as_slice(), answer),
        Err(_) => end_with(log, b"end no memory\n", Answer::NoMemory),
    }
}

/// Writes the end line, and ends with the status of the answer.
fn end_with<L: Sink>(log: &mut L, line: &[u8], answer: Answer) -> ExitCode {
    match write_all(log, line) {
        Ok(()) => ExitCode::from(answer.status()),
        Err(_) => ExitCode::from(Answer::WriteFault.status()),
    }
}

#[cfg(test)]
mod tests;
