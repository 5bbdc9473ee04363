//! What the words of a call ask for, and what is found.
ghost use Rattle.std.specs.Prelude.{◌≡◌, ◌≤◌, ◌∷◌, [], length, map, All, None, Ok};
ghost use Rattle.command_line.specs.Words.{Assembly, Generation, Session, asked_by};
ghost use Rattle.as_command.specs.Found.{IsFound as IsAssemblyFound};
ghost use Rattle.gen_command.specs.Found.{IsFound as IsSummaryFound};
ghost use Rattle.notifiers.specs.Heard.{AllHaveHeard};
ghost use Rattle.orc_io.specs.Numbers.{AreNumberedFrom};
ghost use Rattle.run_answers.specs.Answered.{IsFound};
ghost use Rattle.session_command.specs.Found.{IsFound as IsSessionFound};
ghost use Rattle.object_files.specs.Reads.{AreReadIn, use_of};
ghost use Rattle.answers.specs.Reads.{AreReadFor};
ghost use Rattle.session_command.specs.Reads.{AreScriptRead, IsSourceEndFor, IsSourceReadFor};
ghost use Rattle.session_command.specs.Texts.{counted};
ghost use Rattle.orc_cli.specs.Asking.{ButForSession, ForAssembly, ForGeneration, ForRun, ForSession, files_of};

use crate::finding::{find_run, silent};
use crate::generating::of_summary;
use crate::running::Found;
use answers::Answer;
use as_command::{AssemblyFound, find_assembly};
use command_line::{
    AssemblyWords, Command, CommandError, GenerationWords, RunWords, SessionWords, read_command,
};
use execution_session::JOURNAL_LIMIT;
use gen_command::find_summary;
use notifiers::{Noted, Notes};
use orc_ids::Bytes;
use orc_io::{Files, Gate, Notify, Source};
use orc_names::NameHasher;
use session_command::{SessionFound, find_session};
use std::alloc::Global;
use std::rc::RcStr;
use std::sync::Wait;
use std::thread::Threads;

/// What was found, and the notifiers that were handed in.
#[derive(Drop)]
pub(crate) struct Asked<N: Notify> {
    pub(crate) found: Found,
    pub(crate) notes: Notes<N>,
}

/// What was found by a call that tells nobody.
fn untold<N: Notify>(found: Found, notes: Vec<N>) -> Asked<N>
    requires { All (λ n. N.heard n ≡ None) notes.items }
    ensures found { result.found ≡ found }
    ensures notes { result.notes ≡ map Noted.Unfired notes.items }
    ensures heard { AllHaveHeard N.heard result.notes }
{
    Asked {
        found,
        notes: Notes::unfired(notes),
    }
}

/// What a session found: all of its text is output, and the log has the end line alone.
fn of_session<N: Notify>(alloc: Global, session: SessionFound<N>) -> Asked<N>
    ensures answer { result.found.answer ≡ session.answer }
    ensures output { result.found.output ≡ session.output }
    ensures journal { result.found.journal ≡ [] }
    ensures notes { result.notes ≡ session.notes }
{
    Asked {
        found: Found {
            answer: session.answer,
            output: session.output,
            journal: Bytes::new(alloc),
        },
        notes: session.notes,
    }
}

/// What an assembly found: the object's file is output, and the log has the end line alone.
fn of_assembly(alloc: Global, assembly: AssemblyFound) -> Found
    ensures answer { result.answer ≡ assembly.answer }
    ensures output { result.output ≡ assembly.output }
    ensures journal { result.journal ≡ [] }
{
    Found {
        answer: assembly.answer,
        output: assembly.output,
        journal: Bytes::new(alloc),
    }
}

/// What the words ask for is found.
pub(crate) fn ask<
    S: Source,
    F: Files,
    G: Gate + Sync,
    N: Notify + Send,
    R: Threads + Wait + Sync,
    const JMAX: usize,
>(
    rt: &R,
    alloc: Global,
    hasher: NameHasher,
    words: &[RcStr],
    source: &mut S,
    files: &mut F,
    gate: &G,
    notes: Vec<N>,
) -> Asked<N>
    requires journal { JMAX ≤ JOURNAL_LIMIT }
    requires unheard { All (λ n. N.heard n ≡ None) notes.items }
    requires numbered { AreNumberedFrom N.number 0 notes.items }
    ensures run { ForRun (asked_by words.now) (λ asked. IsFound JMAX asked
        (F.holds files.old) (F.faults files.old) (F.faults files.new)
        result.found.answer result.found.output result.found.journal) }
    ensures session { ForSession (asked_by words.now) (λ workers. IsSessionFound N.heard N.number JMAX workers notes.items
        (S.left source.old) (S.faults source.old) (S.faults source.new)
        (F.holds files.old) (F.faults files.old) (F.faults files.new)
        result.found.answer result.found.output result.notes) }
    ensures session_log { ForSession (asked_by words.now) (λ workers. result.found.journal ≡ []) }
    ensures assembly { ForAssembly (asked_by words.now) (λ file. IsAssemblyFound file
        (F.holds files.old) (F.faults files.old) (F.faults files.new)
        result.found.answer result.found.output) }
    ensures assembly_log { ForAssembly (asked_by words.now) (λ file. result.found.journal ≡ []) }
    ensures generation { ForGeneration (asked_by words.now) (λ objects. IsSummaryFound JOURNAL_LIMIT objects
        result.found.answer result.found.output) }
    ensures generation_log { ForGeneration (asked_by words.now) (λ objects. result.found.journal ≡ []) }
    ensures run_read { ForRun (asked_by words.now) (λ asked. AreReadFor (files_of asked)
        (use_of (F.reads files.old) (F.faults files.old)) (use_of (F.reads files.new) (F.faults files.new)) result.found.answer) }
    ensures session_read { ForSession (asked_by words.now) (λ workers. AreScriptRead
        (S.left source.old) (counted (length notes.items))
        (use_of (F.reads files.old) (F.faults files.old)) (use_of (F.reads files.new) (F.faults files.new)) result.found.answer) }
    ensures source_read { ForSession (asked_by words.now) (λ workers. IsSourceReadFor
        (S.faults source.old) (S.faults source.new) result.found.answer) }
    ensures source_end { ForSession (asked_by words.now) (λ workers. IsSourceEndFor (S.left source.new) result.found.answer) }
    ensures assembly_read { ForAssembly (asked_by words.now) (λ file. AreReadFor (file ∷ [])
        (use_of (F.reads files.old) (F.faults files.old)) (use_of (F.reads files.new) (F.faults files.new)) result.found.answer) }
    ensures generation_read { ForGeneration (asked_by words.now) (λ objects. AreReadIn []
        (use_of (F.reads files.old) (F.faults files.old)) (use_of (F.reads files.new) (F.faults files.new))) }
    ensures heard { AllHaveHeard N.heard result.notes }
    ensures notes { ButForSession (asked_by words.now) (result.notes ≡ map Noted.Unfired notes.items) }
    ensures source_left { ButForSession (asked_by words.now) (S.left source.new ≡ S.left source.old) }
    ensures source_quiet { ButForSession (asked_by words.now) (S.faults source.new ≡ S.faults source.old) }
    ensures source_counted { S.faults source.old ≤ S.faults source.new }
    ensures counted { F.faults files.old ≤ F.faults files.new }
    ensures same { F.holds files.new ≡ F.holds files.old }
{
    match read_command(alloc, words) {
        Ok(Command::Run(run)) => {
            let found = find_run::<F, G, R, JMAX>(rt, alloc, hasher, &run, files, gate);
            untold(found, notes)
        }
        Ok(Command::Session(SessionWords { workers })) => {
            let found = find_session::<S, F, G, N, R, JMAX>(
                rt, alloc, hasher, workers, source, files, gate, notes,
            );
            of_session(alloc, found)
        }
        Ok(Command::Assembly(AssemblyWords { file })) => {
            let found = find_assembly(alloc, files, file);
            untold(of_assembly(alloc, found), notes)
        }
        Ok(Command::Generation(GenerationWords { objects })) => {
            let found = find_summary(rt, alloc, hasher, objects);
            untold(of_summary(alloc, found), notes)
        }
        Err(CommandError::Usage(kind)) => untold(silent(alloc, Answer::Usage(kind)), notes),
        Err(CommandError::NoMemory) => untold(silent(alloc, Answer::NoMemory), notes),
    }
}
