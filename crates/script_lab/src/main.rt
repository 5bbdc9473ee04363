//! A laboratory for the sessions of scripts: random scripts are run on threads, and each journal is judged by
//! the definitions.
//!
//! `script_lab NUMBER COUNT` makes the scripts of the COUNT numbers from NUMBER on, where without words they are
//! the 200 from 1 on. A script has one to four dylibs with trackers and orders, definitions and generators of
//! units that may fail to link, aliases, and one to three clients of up to eight lines (`set_up`, `units`,
//! `clients`). Each is run with 0 to 16 workers, in a journal of few places or many (`scripts`). Then
//!
//! - the journal is played on a plain session, and each entry has to be a right one (`replay`);
//! - each line has to have ended as the calls of its client say: a lookup by its ask and its collect, a run by
//!   the bytes that are in memory then (`lines`);
//! - each notifier has to have been told the end of its own query, at the call at which it settled (`notes`).
//!
//! One line says in how many scripts something differed; it is the same whatever the threads do. A line before
//! it names each such script. With a third word it also prints how many lines ended how, how many units were given
//! up for which cause, and how much the seats came between each other, which is all up to the threads.
//!
//! Read `script_session` for the session of a script, and `session_check` for the judge.
#![tactic(auto)]

mod asked;
mod call_list;
mod clients;
mod counts;
mod gate;
mod given;
mod lines;
mod lookups;
mod note;
mod notes;
mod plans;
mod random;
mod replay;
mod runs;
mod scripts;
mod set_up;
mod unit;
mod units;

use crate::counts::{Counts, Findings};
use std::alloc::Global;
use std::io::Print;
use std::sync::Wait;
use std::thread::Threads;
use std::{env, io};

/// Says what is wrong with a script.
fn report(rt: &impl Print, number: u32, findings: Findings) -> io::Result<()> {
    if let Some(k) = findings.wrong {
        println!(rt; "script {number}: the entry of index {k} isn't right")?;
    }
    if !findings.results_agree {
        println!(rt; "script {number}: a line ended otherwise than its calls")?;
    }
    if !findings.notes_agree {
        println!(rt; "script {number}: a notifier was told otherwise than its query ended")?;
    }
    Ok(())
}

/// Runs so many scripts from a number on.
fn run_scripts<R: Threads + Wait + Sync + Print>(
    rt: &R,
    alloc: Global,
    first: u32,
    count: u32,
) -> io::Result<Counts> {
    let mut counts = Counts::new();
    for k in 0..count {
        let number = first.wrapping_add(k);
        let findings = scripts::run_one(rt, alloc, number, &mut counts)?;
        counts.found(findings);
        report(rt, number, findings)?;
    }
    Ok(counts)
}

/// The number that a word says, or this one without a word.
fn number(word: Option<String>, without: u32) -> Option<u32> {
    match word {
        Some(word) => word.as_str().parse::<u32>().ok(),
        None => Some(without),
    }
}

fn main(rt: HostRuntime) -> io::Result<()> {
    let mut words = env::args(&rt)?;
    let _program = words.next();
    let first = number(words.next(), 1);
    let count = number(words.next(), 200);
    let (Some(first), Some(count)) = (first, count) else {
        return Ok(());
    };
    let counts = run_scripts(&rt, rt.alloc(), first, count)?;
    if words.next().is_some() {
        counts.print_ends(&rt)?;
    }
    counts.print(&rt)
}
