ghost use Rattle.std.specs.Prelude.{◌≡◌, ◌≢◌, ◌≤◌, ◌∷◌, [], ℕ, length, map, All, None, Ok};
ghost use Rattle.command_line.specs.Words.{asked_by};
ghost use Rattle.answers.specs.Answers.{status_of};
ghost use Rattle.answers.specs.Written.{held_by};
ghost use Rattle.as_command.specs.Clauses.{AsAnswers, as_call};
ghost use Rattle.gen_command.specs.Clauses.{GenAnswers, gen_call};
ghost use Rattle.object_files.specs.Reads.{AreReadIn, use_of};
ghost use Rattle.notifiers.specs.Heard.{AllHaveHeard};
ghost use Rattle.orc_io.specs.Numbers.{AreNumberedFrom};
ghost use Rattle.run_answers.specs.Clauses.{Answers, call_of};
ghost use Rattle.session_command.specs.Clauses.{SessionAnswers, session_call};
ghost use Rattle.orc_cli.specs.Asking.{ButForSession, ForAssembly, ForGeneration, ForRun, ForSession, ReadsFiles, ReadsScript, files_of};

use crate::asking::{Asked, ask};
use crate::writing::write_found;
use answers::Answer;
use execution_session::JOURNAL_LIMIT;
use notifiers::{Noted, Notes};
use orc_io::{Files, Gate, Notify, Sink, Source};
use orc_names::NameHasher;
use std::alloc::Global;
use std::collections::hash_map::RandomState;
use std::random::RandomSource;
use std::rc::RcStr;
use std::sync::Wait;
use std::thread::Threads;

/// How a call of `orc` ended.
#[derive(Drop)]
pub struct Ended<N: Notify> {
    pub answer: Answer,
    /// The exit status of the program.
    pub status: u8,
    /// The notifiers that were handed in.
    pub notes: Notes<N>,
}

/// Does what the words ask, and answers.
///
/// `run` reads the files, links their objects in a session, runs the program from the entry, writes the run's
/// output on `out`, and on `log` the session's journal and the end line. `session` reads the script on the source
/// and its files, runs its session, writes on `out` the journal and the result of each line, and on `log` the end
/// line. `as` reads the file, assembles its text, writes on `out` the object, and on `log` the end line. `gen` makes
/// the session of generated objects, writes on `out` what it came to, and on `log` the end line.
///
/// Word 0 is the program's name, word 1 the command. The runtime gives the threads of clients and workers, and the
/// seed by which names are hashed. The notifiers are for the watch lines of a script.
pub fn orc<
    S: Source,
    F: Files,
    O: Sink,
    L: Sink,
    G: Gate + Sync,
    N: Notify + Send,
    R: Threads + Wait + Sync + RandomSource,
>(
    rt: &R,
    alloc: Global,
    words: &[RcStr],
    source: &mut S,
    files: &mut F,
    out: &mut O,
    log: &mut L,
    gate: &G,
    notes: Vec<N>,
) -> Ended<N>
    requires unheard { All (λ n. N.heard n ≡ None) notes.items }
    requires numbered { AreNumberedFrom N.number 0 notes.items }
    ensures status { result.status ≡ status_of result.answer }
    // What a run, or words that ask for nothing, are answered.
    ensures run { ForRun (asked_by words.now) (λ asked. Answers JOURNAL_LIMIT (call_of asked
        (F.holds files.old) (F.faults files.old) (F.faults files.new)
        (held_by (O.held out.old) (O.faults out.old)) (held_by (O.held out.new) (O.faults out.new))
        (held_by (L.held log.old) (L.faults log.old)) (held_by (L.held log.new) (L.faults log.new))) result.answer) }
    // The journal of as many places as one can have has more than a run has entries.
    ensures never_full { ForRun (asked_by words.now) (λ asked. (len : ℕ) → result.answer ≢ Answer.JournalFull len) }
    // What the session of a script is answered, by so many workers.
    ensures session { ForSession (asked_by words.now) (λ workers. SessionAnswers N.heard N.number JOURNAL_LIMIT
        (session_call workers notes.items result.notes
        (held_by (S.left source.old) (S.faults source.old)) (held_by (S.left source.new) (S.faults source.new))
        (F.holds files.old) (F.faults files.old) (F.faults files.new)
        (held_by (O.held out.old) (O.faults out.old)) (held_by (O.held out.new) (O.faults out.new))
        (held_by (L.held log.old) (L.faults log.old)) (held_by (L.held log.new) (L.faults log.new))) result.answer) }
    // What the assembly of a file is answered.
    ensures assembly { ForAssembly (asked_by words.now) (λ file. AsAnswers (as_call file
        (F.holds files.old) (F.faults files.old) (F.faults files.new)
        (held_by (O.held out.old) (O.faults out.old)) (held_by (O.held out.new) (O.faults out.new))
        (held_by (L.held log.old) (L.faults log.old)) (held_by (L.held log.new) (L.faults log.new))) result.answer) }
    // What the session of so many generated objects is answered. Its journal has as many places as one can have.
    ensures generation { ForGeneration (asked_by words.now) (λ objects. GenAnswers JOURNAL_LIMIT (gen_call objects
        (held_by (O.held out.old) (O.faults out.old)) (held_by (O.held out.new) (O.faults out.new))
        (held_by (L.held log.old) (L.faults log.old)) (held_by (L.held log.new) (L.faults log.new))) result.answer) }

    // Of the files just those were read, each once and in order, that were read for what was found: those of the words, or of the
    // script on the source, up to the first that isn't taken in. Only the last may have been a fault, and that is told. A session of
    // generated objects reads none.
    ensures run_reads { ForRun (asked_by words.now) (λ asked. ReadsFiles (files_of asked)
        (use_of (F.reads files.old) (F.faults files.old)) (use_of (F.reads files.new) (F.faults files.new)) result.answer) }
    ensures session_reads { ForSession (asked_by words.now) (λ workers. ReadsScript (S.left source.old) (length notes.items)
        (use_of (F.reads files.old) (F.faults files.old)) (use_of (F.reads files.new) (F.faults files.new)) result.answer) }
    ensures assembly_reads { ForAssembly (asked_by words.now) (λ file. ReadsFiles (file ∷ [])
        (use_of (F.reads files.old) (F.faults files.old)) (use_of (F.reads files.new) (F.faults files.new)) result.answer) }
    ensures generation_reads { ForGeneration (asked_by words.now) (λ objects. AreReadIn []
        (use_of (F.reads files.old) (F.faults files.old)) (use_of (F.reads files.new) (F.faults files.new))) }

    // But for a session the source is not read. The files hold what they held. No count falls.
    ensures source_left { ButForSession (asked_by words.now) (S.left source.new ≡ S.left source.old) }
    ensures source_quiet { ButForSession (asked_by words.now) (S.faults source.new ≡ S.faults source.old) }
    ensures source_counted { S.faults source.old ≤ S.faults source.new }
    ensures files_same { F.holds files.new ≡ F.holds files.old }
    ensures files_counted { F.faults files.old ≤ F.faults files.new }
    ensures out_counted { O.faults out.old ≤ O.faults out.new }
    ensures log_counted { L.faults log.old ≤ L.faults log.new }

    // A notifier that was told has heard how its lookup ended, and any other one nothing. Only a session tells any: else all come back in
    // their order.
    ensures heard { AllHaveHeard N.heard result.notes }
    ensures notes { ButForSession (asked_by words.now) (result.notes ≡ map Noted.Unfired notes.items) }
{
    orc_sized::<S, F, O, L, G, N, R, JOURNAL_LIMIT>(
        rt, alloc, words, source, files, out, log, gate, notes,
    )
}

/// `orc` with a journal of at most `JMAX` entries.
pub fn orc_sized<
    S: Source,
    F: Files,
    O: Sink,
    L: Sink,
    G: Gate + Sync,
    N: Notify + Send,
    R: Threads + Wait + Sync + RandomSource,
    const JMAX: usize,
>(
    rt: &R,
    alloc: Global,
    words: &[RcStr],
    source: &mut S,
    files: &mut F,
    out: &mut O,
    log: &mut L,
    gate: &G,
    notes: Vec<N>,
) -> Ended<N>
    requires unheard { All (λ n. N.heard n ≡ None) notes.items }
    requires numbered { AreNumberedFrom N.number 0 notes.items }
    requires journal { JMAX ≤ JOURNAL_LIMIT }
    ensures status { result.status ≡ status_of result.answer }
    // What a run, or words that ask for nothing, are answered.
    ensures run { ForRun (asked_by words.now) (λ asked. Answers JMAX (call_of asked
        (F.holds files.old) (F.faults files.old) (F.faults files.new)
        (held_by (O.held out.old) (O.faults out.old)) (held_by (O.held out.new) (O.faults out.new))
        (held_by (L.held log.old) (L.faults log.old)) (held_by (L.held log.new) (L.faults log.new))) result.answer) }
    // The journal of as many places as one can have has more than a run has entries.
    ensures never_full { JMAX ≡ JOURNAL_LIMIT → ForRun (asked_by words.now) (λ asked. (len : ℕ) → result.answer ≢ Answer.JournalFull len) }
    // What the session of a script is answered, by so many workers.
    ensures session { ForSession (asked_by words.now) (λ workers. SessionAnswers N.heard N.number JMAX
        (session_call workers notes.items result.notes
        (held_by (S.left source.old) (S.faults source.old)) (held_by (S.left source.new) (S.faults source.new))
        (F.holds files.old) (F.faults files.old) (F.faults files.new)
        (held_by (O.held out.old) (O.faults out.old)) (held_by (O.held out.new) (O.faults out.new))
        (held_by (L.held log.old) (L.faults log.old)) (held_by (L.held log.new) (L.faults log.new))) result.answer) }
    // What the assembly of a file is answered.
    ensures assembly { ForAssembly (asked_by words.now) (λ file. AsAnswers (as_call file
        (F.holds files.old) (F.faults files.old) (F.faults files.new)
        (held_by (O.held out.old) (O.faults out.old)) (held_by (O.held out.new) (O.faults out.new))
        (held_by (L.held log.old) (L.faults log.old)) (held_by (L.held log.new) (L.faults log.new))) result.answer) }
    // What the session of so many generated objects is answered. Its journal has as many places as one can have.
    ensures generation { ForGeneration (asked_by words.now) (λ objects. GenAnswers JOURNAL_LIMIT (gen_call objects
        (held_by (O.held out.old) (O.faults out.old)) (held_by (O.held out.new) (O.faults out.new))
        (held_by (L.held log.old) (L.faults log.old)) (held_by (L.held log.new) (L.faults log.new))) result.answer) }

    // Of the files just those were read, each once and in order, that were read for what was found: those of the words, or of the
    // script on the source, up to the first that isn't taken in. Only the last may have been a fault, and that is told. A session of
    // generated objects reads none.
    ensures run_reads { ForRun (asked_by words.now) (λ asked. ReadsFiles (files_of asked)
        (use_of (F.reads files.old) (F.faults files.old)) (use_of (F.reads files.new) (F.faults files.new)) result.answer) }
    ensures session_reads { ForSession (asked_by words.now) (λ workers. ReadsScript (S.left source.old) (length notes.items)
        (use_of (F.reads files.old) (F.faults files.old)) (use_of (F.reads files.new) (F.faults files.new)) result.answer) }
    ensures assembly_reads { ForAssembly (asked_by words.now) (λ file. ReadsFiles (file ∷ [])
        (use_of (F.reads files.old) (F.faults files.old)) (use_of (F.reads files.new) (F.faults files.new)) result.answer) }
    ensures generation_reads { ForGeneration (asked_by words.now) (λ objects. AreReadIn []
        (use_of (F.reads files.old) (F.faults files.old)) (use_of (F.reads files.new) (F.faults files.new))) }

    // But for a session the source is not read. The files hold what they held. No count falls.
    ensures source_left { ButForSession (asked_by words.now) (S.left source.new ≡ S.left source.old) }
    ensures source_quiet { ButForSession (asked_by words.now) (S.faults source.new ≡ S.faults source.old) }
    ensures source_counted { S.faults source.old ≤ S.faults source.new }
    ensures files_same { F.holds files.new ≡ F.holds files.old }
    ensures files_counted { F.faults files.old ≤ F.faults files.new }
    ensures out_counted { O.faults out.old ≤ O.faults out.new }
    ensures log_counted { L.faults log.old ≤ L.faults log.new }

    // A notifier that was told has heard how its lookup ended, and any other one nothing. Only a session tells any: else all come back in
    // their order.
    ensures heard { AllHaveHeard N.heard result.notes }
    ensures notes { ButForSession (asked_by words.now) (result.notes ≡ map Noted.Unfired notes.items) }
{
    let hasher = name_hasher(rt);
    let Asked { found, notes } = ask::<S, F, G, N, R, JMAX>(
        rt, alloc, hasher, words, source, files, gate, notes,
    );
    let answer = write_found(alloc, found, out, log);
    Ended {
        status: answer.status(),
        answer,
        notes,
    }
}

/// How names are hashed: by a seed of the runtime, so that strangers can't choose names that collide;
/// where it gives none, by the fixed one. No answer depends on it.
fn name_hasher<R: RandomSource>(rt: &R) -> NameHasher {
    match RandomState::new(rt) {
        Ok(state) => NameHasher::Seeded(state),
        Err(_) => NameHasher::Fixed,
    }
}
