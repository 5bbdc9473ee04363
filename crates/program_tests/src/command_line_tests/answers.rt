//! Tables of command lines, and of what each asks for.
use command_line::{Command, CommandError, RunWords, UsageKind, read_command};
use std::alloc::{AllocError, Global};
use std::process::Abort;
use std::rc::RcStr;
use std::test::Fail;

/// A run that a line asks for.
#[derive(Clone, Copy)]
pub struct Run<'a> {
    pub files: &'a [&'a str],
    pub entry: &'a str,
    pub fuel: u64,
    pub workers: u32,
}

/// What a line asks for, or why it is refused.
#[derive(Clone, Copy)]
pub enum Answer<'a> {
    Run(Run<'a>),
    /// A session of so many workers.
    Session(u32),
    /// The assembly of a file.
    Assembly(&'a str),
    /// A generated session of so many objects.
    Generation(u32),
    Refused(UsageKind),
}

/// The words of a line, with one space between them, and then another word so many times.
fn words_in(alloc: Global, line: &str, last: &str, times: usize) -> Result<Vec<RcStr>, AllocError> {
    let mut words = Vec::new(alloc);
    for word in line.split(' ') {
        words.push(RcStr::from_str(alloc, word)?)?;
    }
    for _ in 0..times {
        words.push(RcStr::from_str(alloc, last)?)?;
    }
    Ok(words)
}

/// The run is that of the table.
fn is_run(asked: &RunWords<'_>, run: &Run<'_>) -> bool {
    asked.files.as_slice() == run.files
        && asked.entry == run.entry
        && asked.fuel == run.fuel
        && asked.workers == run.workers
}

/// The command is that of the table.
fn is_asked(command: &Command<'_>, answer: &Answer<'_>) -> bool {
    match (command, answer) {
        (Command::Run(asked), Answer::Run(run)) => is_run(asked, run),
        (Command::Session(asked), Answer::Session(workers)) => asked.workers == *workers,
        (Command::Assembly(asked), Answer::Assembly(file)) => asked.file == *file,
        (Command::Generation(asked), Answer::Generation(objects)) => asked.objects == *objects,
        _ => false,
    }
}

/// The reason is that of the table.
fn is_refused(kind: UsageKind, answer: &Answer<'_>) -> bool {
    match answer {
        Answer::Refused(other) => kind == *other,
        _ => false,
    }
}

/// The words are answered as the table says.
pub fn are_answered(
    alloc: Global,
    words: &[RcStr],
    answer: &Answer<'_>,
) -> Result<bool, AllocError> {
    match read_command(alloc, words) {
        Ok(command) => Ok(is_asked(&command, answer)),
        Err(CommandError::Usage(kind)) => Ok(is_refused(kind, answer)),
        Err(CommandError::NoMemory) => Err(AllocError),
    }
}

/// The words of a line, and then another word so many times, are answered as the table says.
pub fn are_answered_after(
    alloc: Global,
    line: &str,
    last: &str,
    times: usize,
    answer: &Answer<'_>,
) -> Result<bool, AllocError> {
    let words = words_in(alloc, line, last, times)?;
    are_answered(alloc, words.as_slice(), answer)
}

/// Each line is answered as the table says.
pub fn expect(rt: &impl Abort, alloc: Global, rows: &[(&str, Answer<'_>)]) -> Result<(), Fail> {
    for (line, answer) in rows {
        assert!(rt; are_answered_after(alloc, line, "", 0, answer)?, "{line}");
    }
    Ok(())
}

/// Each line is refused for this reason.
pub fn expect_refused(
    rt: &impl Abort,
    alloc: Global,
    kind: UsageKind,
    lines: &[&str],
) -> Result<(), Fail> {
    for line in lines {
        let answer = Answer::Refused(kind);
        assert!(rt; are_answered_after(alloc, line, "", 0, &answer)?, "{line}");
    }
    Ok(())
}
