//! A script is run, and judged by its journal.
ghost use Rattle.std.specs.Prelude.{◌≤◌, length};
ghost use Rattle.execution_session.specs.declared.session.TheConstants.{JOURNAL_LIMIT};
ghost use Rattle.script_lab.specs.Plans.{IsRunnable};

use crate::asked::{Asked, asked_by_all};
use crate::call_list::does_jobs_alone;
use crate::counts::{Counts, Findings};
use crate::gate::LabGate;
use crate::lines::lines_agree;
use crate::note::LabNote;
use crate::notes::NoteEnds;
use crate::plans::{Made, make_plan};
use crate::random::Random;
use crate::replay::{LabEntry, Played, play_journal};
use crate::unit::LabUnit;
use orc_ids::Stop;
use orc_names::NameHasher;
use script_model::{LineEnd, ScriptEnd};
use script_session::{ScriptSession, run_script};
use std::alloc::{AllocError, Global};
use std::sync::Wait;
use std::thread::Threads;

/// What the judge keeps of a script.
#[derive(Drop)]
struct Facts {
    /// How many places its journal has.
    jmax: u64,
    /// How many calls its set-up has.
    calls: usize,
    /// What the lines of each client ask for.
    asked: Vec<Vec<Asked>>,
    workers: u32,
}

/// The first entries are so many calls of seat 0, unless a call was stopped, and the others are of clients and
/// workers.
fn set_up_agrees(facts: &Facts, journal: &[LabEntry], end: &ScriptEnd) -> bool {
    let first = journal.iter().take_while(|e| e.seat.0 == 0).count();
    let all = journal.iter().filter(|e| e.seat.0 == 0).count();
    let whole = match end.set_up {
        None => first == facts.calls,
        Some(_) => first < facts.calls && journal.len() == first,
    };
    whole && first == all
}

/// Whether the lines of each client ended as its calls say.
fn clients_agree(
    alloc: Global,
    facts: &Facts,
    journal: &[LabEntry],
    end: &ScriptEnd,
) -> Result<bool, AllocError> {
    let mut seat: u32 = 0;
    for (lines, ends) in facts.asked.iter().zip(end.clients.iter()) {
        seat = seat.saturating_add(1);
        if !lines_agree(alloc, facts.jmax, journal, seat, lines, ends)? {
            return Ok(false);
        }
    }
    Ok(facts.asked.len() == end.clients.len())
}

/// Whether each line was skipped.
fn all_skipped(end: &ScriptEnd) -> bool {
    end.clients.iter().all(|ends| ends.iter().all(|end| matches!(end, LineEnd::Skipped)))
}

/// Whether a line was stopped for want of memory.
fn memory_ran_out(end: &ScriptEnd) -> bool {
    end.clients.iter().any(|ends| {
        ends.iter()
            .any(|end| matches!(end, LineEnd::Stopped(Stop::NoMemory)))
    })
}

/// Whether each worker did jobs alone.
fn workers_agree(facts: &Facts, journal: &[LabEntry]) -> bool {
    let clients = u32::try_from(facts.asked.len()).unwrap_or(0);
    for worker in 0..facts.workers {
        if !does_jobs_alone(journal, clients.wrapping_add(worker).wrapping_add(1)) {
            return false;
        }
    }
    true
}

/// Whether the script ended as its journal says.
fn results_agree(
    alloc: Global,
    facts: &Facts,
    journal: &[LabEntry],
    end: &ScriptEnd,
) -> Result<bool, AllocError> {
    let began = set_up_agrees(facts, journal, end) && workers_agree(facts, journal);
    let ended = match end.set_up {
        None => clients_agree(alloc, facts, journal, end)?,
        Some(_) => all_skipped(end),
    };
    Ok(began && ended)
}

/// What is found of a script with this journal, which ended so.
fn judge(
    alloc: Global,
    facts: &Facts,
    journal: &[LabEntry],
    end: &ScriptEnd,
    notes: &NoteEnds,
) -> Result<Findings, AllocError> {
    let results_agree = results_agree(alloc, facts, journal, end)?;
    Ok(match play_journal(alloc, facts.jmax, journal)? {
        Played::Legal(replay) => Findings {
            wrong: None,
            results_agree,
            notes_agree: notes.agree(journal, replay.ends.as_slice(), memory_ran_out(end)),
        },
        Played::WrongAt(k) => Findings {
            wrong: Some(k),
            results_agree,
            notes_agree: true,
        },
    })
}

/// Counts how the lines of a script ended.
fn count(counts: &mut Counts, workers: u32, journal: &[LabEntry], end: &ScriptEnd) {
    counts.ran(end.clients.len(), workers, journal);
    for ends in end.clients.iter() {
        counts.ended(ends);
    }
}

/// Runs a plan with so many workers, in a journal of so many places, and judges it.
fn run_in<R: Threads + Wait + Sync, const JMAX: usize>(
    rt: &R,
    alloc: Global,
    made: Made,
    gate: &LabGate,
    workers: u32,
    counts: &mut Counts,
) -> Result<Findings, AllocError>
    requires limit { JMAX ≤ JOURNAL_LIMIT }
    requires few { workers ≤ 16 }
    requires clients { length made.plan.clients.items ≤ 3 }
    requires can { IsRunnable made.plan }
{
    let Made { plan, notes } = made;
    let facts = Facts {
        jmax: JMAX as u64,
        calls: plan.set_up.len(),
        asked: asked_by_all(alloc, plan.clients.as_slice())?,
        workers,
    };
    let mut notes = NoteEnds::new(alloc, notes)?;
    let ScriptSession {
        session,
        end,
        notified,
    } = run_script::<LabUnit, LabNote, LabGate, R, JMAX>(
        rt,
        alloc,
        NameHasher::Fixed,
        plan,
        gate,
        workers,
    )?;
    let mut session = session;
    notes.gather(&mut session, notified);
    count(counts, workers, session.journal(), &end);
    let findings = judge(alloc, &facts, session.journal(), &end, &notes);
    session.end();
    findings
}

/// How often a job lets others go first, at most: mostly not at all or seldom, and once in a while often.
fn gate_times(random: &mut Random) -> u32 {
    match random.below(4) {
        0 => 1,
        1 => 10,
        2 => 100,
        _ => 600,
    }
}

/// Makes the script of this number and runs it, in a journal of few places or many.
pub fn run_one<R: Threads + Wait + Sync>(
    rt: &R,
    alloc: Global,
    number: u32,
    counts: &mut Counts,
) -> Result<Findings, AllocError> {
    let mut random = Random::new(number);
    let made = make_plan(alloc, &mut random)?;
    let workers = random.below(17);
    let gate = LabGate {
        most: gate_times(&mut random),
    };
    match random.below(16) {
        0 => run_in::<R, 20>(rt, alloc, made, &gate, workers, counts),
        1 => run_in::<R, 40>(rt, alloc, made, &gate, workers, counts),
        2 => run_in::<R, 60>(rt, alloc, made, &gate, workers, counts),
        3 => run_in::<R, 80>(rt, alloc, made, &gate, workers, counts),
        _ => run_in::<R, 1000>(rt, alloc, made, &gate, workers, counts),
    }
}
