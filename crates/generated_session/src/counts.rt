//! What a session of generated objects came to.
ghost use Rattle.std.specs.Prelude.{◌≡◌, ◌<◌, ◌≤◌, ◌*◌, ◌^◌, ℕ, List, drop, length, sum_by, take};
ghost use Rattle.generated_session.specs.Counts.{counts_of, exit_code, how_many, is_found, is_gone, is_lost, is_missing, is_of};
ghost use Rattle.generated_session.specs.Scripts.{heads, removals};
ghost use Rattle.script_model.specs.declared.line_end.LineEnd.TheVariants.{Looked, Ran, Replied};

use crate::functions::{is_head, is_removed};
use exec_run::RunEnd;
use script_model::LineEnd;
use session_model::{LookEnd, Reply};

/// How many lines of the client ended how.
#[derive(Clone, Copy, Debug)]
pub struct Counts {
    /// How many objects there were.
    pub objects: u64,
    /// How many lookups of heads were found.
    pub heads: u64,
    /// The sum of the exit codes of their runs.
    pub sum: u128,
    /// How many trackers were removed.
    pub removed: u64,
    /// How many of the last lookups were found.
    pub found: u64,
    /// How many of them failed, or had failed before.
    pub failed: u64,
    /// How many of them had no match.
    pub missing: u64,
}

/// What a line's end may count as.
#[derive(Clone, Copy)]
pub(crate) enum EndKind {
    /// A lookup that was found.
    Found,
    /// A lookup that failed, or whose name had failed before.
    Lost,
    /// A lookup without a match.
    Missing,
    /// A removal.
    Gone,
}

#[tactic(auto, unfolding(crate::specs::Counts::is_found))]
fn end_is_found(end: &LookEnd) -> bool
    ensures { result ≡ is_found (Looked end.now) }
{
    matches!(end, LookEnd::Found(_))
}

#[tactic(auto, unfolding(crate::specs::Counts::is_lost))]
fn end_is_lost(end: &LookEnd) -> bool
    ensures { result ≡ is_lost (Looked end.now) }
{
    matches!(end, LookEnd::Failed(_) | LookEnd::InError(_))
}

#[tactic(auto, unfolding(crate::specs::Counts::is_missing))]
fn end_is_missing(end: &LookEnd) -> bool
    ensures { result ≡ is_missing (Looked end.now) }
{
    matches!(end, LookEnd::Missing(_))
}

#[tactic(auto, unfolding(crate::specs::Counts::is_gone))]
fn reply_is_gone(reply: &Reply) -> bool
    ensures { result ≡ is_gone (Replied reply.now) }
{
    matches!(reply, Reply::Removed)
}

/// A lookup was found.
#[tactic(auto, unfolding(crate::specs::Counts::is_found))]
fn is_found(end: &LineEnd) -> bool
    ensures { result ≡ is_found end.now }
{
    match end {
        LineEnd::Looked(end) => end_is_found(end),
        _ => false,
    }
}

/// A lookup failed, or its names had failed before.
#[tactic(auto, unfolding(crate::specs::Counts::is_lost))]
fn is_lost(end: &LineEnd) -> bool
    ensures { result ≡ is_lost end.now }
{
    match end {
        LineEnd::Looked(end) => end_is_lost(end),
        _ => false,
    }
}

/// A lookup had no match.
#[tactic(auto, unfolding(crate::specs::Counts::is_missing))]
fn is_missing(end: &LineEnd) -> bool
    ensures { result ≡ is_missing end.now }
{
    match end {
        LineEnd::Looked(end) => end_is_missing(end),
        _ => false,
    }
}

/// A tracker was removed.
#[tactic(auto, unfolding(crate::specs::Counts::is_gone))]
fn is_gone(end: &LineEnd) -> bool
    ensures { result ≡ is_gone end.now }
{
    match end {
        LineEnd::Replied(reply) => reply_is_gone(reply),
        _ => false,
    }
}

#[tactic(auto, unfolding(crate::specs::Counts::exit_code))]
fn code_of(end: RunEnd) -> u64
    ensures { (output : List ℕ) → result ≡ exit_code (Ran end output) }
{
    match end {
        RunEnd::Exited(code) => code,
        _ => 0,
    }
}

/// The exit code of a run, where it exited.
#[tactic(auto, unfolding(crate::specs::Counts::exit_code))]
fn exit_code(end: &LineEnd) -> u64
    ensures { result ≡ exit_code end.now }
{
    match end {
        LineEnd::Ran(end, _) => code_of(*end),
        _ => 0,
    }
}

/// A line ended so.
fn is_of(kind: EndKind, end: &LineEnd) -> bool
    ensures { result ≡ is_of kind end.now }
{
    match kind {
        EndKind::Found => is_found(end),
        EndKind::Lost => is_lost(end),
        EndKind::Missing => is_missing(end),
        EndKind::Gone => is_gone(end),
    }
}

/// How many lines ended so.
fn count(kind: EndKind, ends: &[LineEnd]) -> usize
    ensures { result ≡ how_many (is_of kind) ends.now }
{
    let mut count = 0;
    for end in ends {
        if is_of(kind, end) {
            count += 1;
        }
    }
    count
}

fn code_sum(ends: &[LineEnd]) -> u128
    requires { length ends.now < 2 ^ 64 }
    ensures { result ≡ sum_by exit_code ends.now }
{
    let mut sum = 0;
    for end in ends {
        sum += u128::from(exit_code(end));
    }
    sum
}

/// How many functions are run.
fn head_count(n: u32) -> usize
    ensures { result ≡ length (heads n) }
{
    (0..n).filter(|k| is_head(*k)).count()
}

/// How many trackers are removed.
fn removal_count(n: u32) -> usize
    ensures { result ≡ length (removals n) }
{
    (0..n).filter(|k| is_removed(*k)).count()
}

/// The first so many, and the others.
fn parted(ends: &[LineEnd], count: usize) -> (&[LineEnd], &[LineEnd])
    ensures first { result.0.now ≡ take count ends.now }
    ensures few { length result.0.now ≤ count }
    ensures others { result.1.now ≡ drop count ends.now }
{
    if count < ends.len() {
        ends.split_at(count)
    } else {
        (ends, &[])
    }
}

impl Counts {
    /// What the lines of the client of `n` objects came to, which ended so. The work is linear in both.
    #[tactic(auto, using(crate::proofs::Few::heads_few))]
    pub fn of(n: u32, ends: &[LineEnd]) -> Counts
        ensures { result ≡ counts_of n ends.now }
    {
        let runs = 2 * head_count(n);
        let (first, later) = parted(ends, runs);
        let (removals, last) = parted(later, removal_count(n));
        Counts {
            objects: u64::from(n),
            heads: count(EndKind::Found, first) as u64,
            sum: code_sum(first),
            removed: count(EndKind::Gone, removals) as u64,
            found: count(EndKind::Found, last) as u64,
            failed: count(EndKind::Lost, last) as u64,
            missing: count(EndKind::Missing, last) as u64,
        }
    }
}
