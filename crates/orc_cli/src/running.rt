//! The session of a run, and the run itself.
ghost use Rattle.std.specs.Prelude.{◌≡◌, ◌≢◌, ◌≤◌, IfOk};
ghost use Rattle.session_model.specs.State.{plain_history};
ghost use Rattle.session_units.specs.Units.{meaning_of};
ghost use Rattle.journal_text.specs.Journal.{AreKnown, text_of_history};
ghost use Rattle.command_line.specs.Words.{request};
ghost use Rattle.object_files.specs.Files.{AreNumbered, Told, distinct};
ghost use Rattle.run_answers.specs.Answered.{HasSession};
ghost use Rattle.orc_cli.specs.Loading.{IsLoaded};
ghost use Rattle.run_answers.specs.Lost.{lost_answer};
ghost use Rattle.run_answers.specs.Sessions.{HasRun, IsAnswerOf, IsWordOf, answer_of};

use crate::loading::Loaded;
use crate::lost::lost_answer;
use answers::Answer;
use code_memory::Image;
use command_line::RunWords;
use exec_run::{Ran, RunEnd, run};
use execution_session::{JOURNAL_LIMIT, Session};
use journal_text::text_of;
use linked_program::{LinkedProgram, link};
use orc_ids::{Bytes, InstId, Stop};
use orc_io::{Gate, Note};
use orc_names::Names;
use run_laws::Linked;
use session_model::{Entry, UnitKind};
use session_units::ObjectUnit;
use std::alloc::{AllocError, Global};
use std::sync::Wait;
use std::thread::Threads;

/// What was found, before anything is written: the answer, the output of a run, and the text of its
/// session's journal.
#[derive(Drop)]
pub(crate) struct Found {
    pub(crate) answer: Answer,
    pub(crate) output: Bytes,
    pub(crate) journal: Bytes,
}

/// An answer and its output.
#[derive(Drop)]
struct Answered {
    answer: Answer,
    output: Bytes,
}

/// The answer that a run's end is.
fn answer_of(end: RunEnd) -> Answer
    ensures { result ≡ answer_of end }
{
    match end {
        RunEnd::Exited(code) => Answer::Exited(code),
        RunEnd::Trap(pc, cause) => Answer::Trap(pc, cause),
        RunEnd::OutOfFuel => Answer::OutOfFuel,
        RunEnd::OutputFull => Answer::OutputFull,
    }
}

/// Runs a memory from an address.
fn run_memory(
    alloc: Global,
    address: u64,
    memory: &Image,
    fuel: u64,
) -> Result<Answered, AllocError>
    ensures { IfOk result (λ a. HasRun address memory.now fuel a.answer a.output) }
{
    let Ran { end, output } = run(alloc, memory, address, &[], fuel)?;
    Ok(Answered {
        answer: answer_of(end),
        output,
    })
}

/// The answer of a program whose lookup was lost; none for want of memory.
fn answer_lost<U: UnitKind>(journal: &[Entry<U>], instance: InstId) -> Result<Answer, AllocError>
    ensures { IfOk result (λ a. (a ≡ lost_answer (plain_history U.meaning journal.now) instance) × (a ≢ Answer.NoMemory)) }
{
    match lost_answer(journal, instance) {
        Answer::NoMemory => Err(AllocError),
        answer => Ok(answer),
    }
}

/// What the end of a program's session answers, by its journal; `files` has the number of each word's file.
fn answer_end<U: UnitKind>(
    alloc: Global,
    journal: &[Entry<U>],
    end: Linked,
    files: &[u32],
    words: &RunWords<'_>,
) -> Result<Answered, AllocError>
    requires files { AreNumbered (distinct (request words.now).files) (request words.now).files files.now }
    requires refused { IsWordOf files.now end }
    ensures { IfOk result (λ a. IsAnswerOf (request words.now) (plain_history U.meaning journal.now) end a.answer a.output) }
{
    let answer = match end {
        Linked::Found(address, memory) => {
            return run_memory(alloc, address, &memory, words.fuel);
        }
        Linked::Missing => Answer::Missing(Bytes::copy_of(alloc, words.entry.as_bytes())?),
        Linked::Failed(instance) => answer_lost(journal, instance)?,
        Linked::Refused(word) => Answer::DefineRefused(files[word]),
        Linked::Stopped(Stop::JournalFull(len)) => Answer::JournalFull(len),
        Linked::Stopped(Stop::NoMemory) => return Err(AllocError),
    };
    let output = Bytes::new(alloc);
    Ok(Answered { answer, output })
}

/// The text of a journal, beside what it answers.
fn conclude(
    alloc: Global,
    journal: &[Entry<ObjectUnit>],
    end: Linked,
    names: &Names,
    files: &[u32],
    words: &RunWords<'_>,
) -> Result<Found, AllocError>
    requires known { AreKnown names.now (plain_history meaning_of journal.now) }
    requires files { AreNumbered (distinct (request words.now).files) (request words.now).files files.now }
    requires refused { IsWordOf files.now end }
    ensures text { IfOk result (λ f. f.journal ≡ text_of_history names.now (plain_history meaning_of journal.now)) }
    ensures answers { IfOk result (λ f.
        IsAnswerOf (request words.now) (plain_history meaning_of journal.now) end f.answer f.output) }
{
    let text = text_of(alloc, journal, names)?;
    let Answered { answer, output } = answer_end(alloc, journal, end, files, words)?;
    Ok(Found {
        answer,
        output,
        journal: text,
    })
}

/// Gives up a session, with the notifiers that nobody was told by.
fn end_session<const JMAX: usize>(session: Session<ObjectUnit, Note, JMAX>) {
    let mut session = session;
    while let Some(armed) = session.give_back() {
        let _object = armed.back();
    }
    session.end();
}

/// What a program's session answers: it is run through, and what it found is run.
pub(crate) fn run_loaded<G: Gate + Sync, R: Threads + Wait + Sync, const JMAX: usize>(
    rt: &R,
    alloc: Global,
    gate: &G,
    loaded: Loaded,
    words: &RunWords<'_>,
) -> Result<Found, AllocError>
    requires limit { JMAX ≤ JOURNAL_LIMIT }
    requires few { words.now.workers ≤ 16 }
    requires loaded { (told : Told) × IsLoaded told (request words.now) loaded }
    ensures { (told : Told) → IsLoaded told (request words.now) loaded →
        IfOk result (λ f. HasSession JMAX told (request words.now) f.answer f.output f.journal) }
{
    let Loaded {
        names,
        program,
        files,
    } = loaded;
    let LinkedProgram { end, session } = link::<ObjectUnit, G, R, JMAX>(
        rt,
        alloc,
        program,
        gate,
        words.workers,
    )?;
    let found = conclude(
        alloc,
        session.journal(),
        end,
        &names,
        files.as_slice(),
        words,
    );
    end_session(session);
    found
}
