//! What was found of many scripts.
ghost use Rattle.std.specs.Prelude.{◌<◌};

use crate::replay::LabEntry;
use exec_run::RunEnd;
use script_model::LineEnd;
use session_model::{Event, LookEnd, Peek, Reply, Why};
use std::io::{self, Print};

/// What was found of one script.
#[derive(Clone, Copy)]
pub struct Findings {
    /// The number, from 0, of the first entry of the journal whose reply isn't a right one.
    pub wrong: Option<usize>,
    /// Each line ended as the journal says.
    pub results_agree: bool,
    /// Each notifier was told what the journal says.
    pub notes_agree: bool,
}

/// How lines may end.
const ENDS: [&str; 15] = [
    "replied",
    "found",
    "failed",
    "in error",
    "missing",
    "no dylib",
    "exited",
    "trapped",
    "otherwise",
    "unfound",
    "stopped",
    "skipped",
    "peeked at none",
    "not yet",
    "ready",
];

/// The number of a lookup's end.
fn look_number(end: &LookEnd) -> usize
    ensures { result < 12 }
{
    match end {
        LookEnd::Found(_) => 1,
        LookEnd::Failed(_) => 2,
        LookEnd::InError(_) => 3,
        LookEnd::Missing(_) => 4,
        LookEnd::NoDylib(_) => 5,
        LookEnd::JournalFull(_) | LookEnd::NoMemory => 8,
    }
}

/// The number of a run's end.
fn run_number(end: RunEnd) -> usize
    ensures { result < 12 }
{
    match end {
        RunEnd::Exited(_) => 6,
        RunEnd::Trap(_, _) => 7,
        RunEnd::OutOfFuel | RunEnd::OutputFull => 8,
    }
}

/// The number of what a peek told.
fn peek_number(told: Peek) -> usize
    ensures { result < 15 }
{
    match told {
        Peek::Unfound => 12,
        Peek::NotYet => 13,
        Peek::Ready(_) => 14,
    }
}

/// The number of a line's end.
fn end_number(end: &LineEnd) -> usize
    ensures { result < 15 }
{
    match end {
        LineEnd::Replied(_) => 0,
        LineEnd::Looked(end) => look_number(end),
        LineEnd::Ran(end, _) => run_number(*end),
        LineEnd::Unfound => 9,
        LineEnd::Stopped(_) => 10,
        LineEnd::Skipped => 11,
        LineEnd::Peeked(told) => peek_number(*told),
    }
}

/// Why units are given up.
const CAUSES: [&str; 8] = [
    "refused",
    "missing",
    "in error",
    "alias cycle",
    "bad dep",
    "no room",
    "no memory",
    "full",
];

/// The number of a cause.
fn cause_number(why: Why) -> usize
    ensures { result < 8 }
{
    match why {
        Why::Refused(_, _, _) => 0,
        Why::Missing(_) => 1,
        Why::InError(_) => 2,
        Why::AliasCycle(_) => 3,
        Why::BadDep(_) => 4,
        Why::NoRoom(_) => 5,
        Why::NoMemory => 6,
        Why::Full => 7,
    }
}

/// The sums over many scripts.
#[derive(Drop)]
pub struct Counts {
    scripts: u64,
    lines: u64,
    workers: u64,
    entries: u64,
    by_workers: u64,
    crossings: u64,
    illegal: u64,
    results_differ: u64,
    notes_differ: u64,
    ends: [u64; 15],
    given_up: [u64; 8],
    generated: u64,
}

impl Counts {
    pub fn new() -> Counts {
        Counts {
            scripts: 0,
            lines: 0,
            workers: 0,
            entries: 0,
            by_workers: 0,
            crossings: 0,
            illegal: 0,
            results_differ: 0,
            notes_differ: 0,
            ends: [0; 15],
            given_up: [0; 8],
            generated: 0,
        }
    }

    /// Lines ended so.
    pub fn ended(&mut self, ends: &[LineEnd]) {
        for end in ends {
            let number = end_number(end);
            self.ends[number] = self.ends[number].wrapping_add(1);
            self.lines = self.lines.wrapping_add(1);
        }
    }

    /// A script was run by so many clients and workers, with this journal.
    pub fn ran(&mut self, clients: usize, workers: u32, journal: &[LabEntry]) {
        self.scripts = self.scripts.wrapping_add(1);
        self.workers = self.workers.wrapping_add(u64::from(workers));
        let mut last = 0;
        for e in journal {
            let seat = e.seat.0;
            let by_worker = seat as usize > clients;
            self.entries = self.entries.wrapping_add(1);
            self.by_workers = self.by_workers.wrapping_add(u64::from(by_worker));
            self.crossings = self.crossings.wrapping_add(u64::from(seat != last));
            self.came(e);
            last = seat;
        }
    }

    /// The entry is one of those that are counted by what they are.
    fn came(&mut self, e: &LabEntry) {
        match (&e.event, &e.reply) {
            (Event::Fail(_, why), Reply::Failed) => {
                let number = cause_number(*why);
                self.given_up[number] = self.given_up[number].wrapping_add(1);
            }
            (Event::Generate(_), Reply::Defined(_, _, _)) => {
                self.generated = self.generated.wrapping_add(1);
            }
            _ => {}
        }
    }

    /// This was found of it.
    pub fn found(&mut self, findings: Findings) {
        self.illegal = self
            .illegal
            .wrapping_add(u64::from(findings.wrong.is_some()));
        self.results_differ = self
            .results_differ
            .wrapping_add(u64::from(!findings.results_agree));
        self.notes_differ = self
            .notes_differ
            .wrapping_add(u64::from(!findings.notes_agree));
    }

    /// How many lines ended how, how many units were given up for which cause or were defined by generators, how many
    /// entries the journals have, and how many of these are of workers, or of another seat than the one before: this
    /// is up to the threads.
    pub fn print_ends(&self, rt: &impl Print) -> io::Result<()> {
        for (count, end) in self.ends.iter().zip(ENDS.as_slice()) {
            println!(rt; "{end} {count}")?;
        }
        for (count, cause) in self.given_up.iter().zip(CAUSES.as_slice()) {
            println!(rt; "given up: {cause} {count}")?;
        }
        println!(rt; "generated {}", self.generated)?;
        println!(rt; "entries {}", self.entries)?;
        println!(rt; "entries of workers {}", self.by_workers)?;
        println!(rt; "changes of seat {}", self.crossings)
    }

    /// What is the same however threads went, as long as nothing is wrong.
    pub fn print(&self, rt: &impl Print) -> io::Result<()> {
        println!(rt;
            "scripts {} lines {} workers {} illegal {} results_differ {} notes_differ {}",
            self.scripts,
            self.lines,
            self.workers,
            self.illegal,
            self.results_differ,
            self.notes_differ
        )
    }
}
