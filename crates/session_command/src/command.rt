//! The whole command.
ghost use Rattle.std.specs.Prelude.{◌≡◌, ◌≢◌, ◌≤◌, ℕ, List, [], All, Option, None, length, map, IfErr, IfOk, OnOk, IsTrue};
ghost use Rattle.std.specs.Io.KnownBytes.{IsAtEnd};
ghost use Rattle.execution_session.specs.declared.session.TheConstants.{JOURNAL_LIMIT};
ghost use Rattle.notifiers.specs.Heard.{AllHaveHeard};
ghost use Rattle.orc_io.specs.Numbers.{AreNumberedFrom};
ghost use Rattle.object_files.specs.Files.{Told};
ghost use Rattle.object_files.specs.Reads.{AreReadIn, use_of};
ghost use Rattle.answers.specs.Reads.{AreReadFor};
ghost use Rattle.session_command.specs.Found.{HasSession, IsFound};
ghost use Rattle.session_command.specs.Reads.{AreScriptRead, IsReadWhole, IsSourceEndFor, IsSourceReadFor};
ghost use Rattle.session_command.specs.Texts.{counted};
ghost use Rattle.session_command.specs.Loading.{HasStoppedAt, HasStoppedIn, HasUnits, IsLoaded};

use crate::answer::session_answer;
use crate::loading::load_units;
use crate::notes::put_in_order;
use crate::reading::read_asked;
use crate::texts::{session_text, wanted_by_all};
use answers::Answer;
use execution_session::JOURNAL_LIMIT;
use notifiers::{NotePlaces, Noted, Notes};
use orc_ids::Bytes;
use orc_io::{Files, Gate, Notify, Source};
use orc_names::NameHasher;
use script_plan::{Planned, plan_of};
use script_session::{ScriptSession, run_script};
use session_script::Script;
use session_units::ObjectUnit;
use std::alloc::{AllocError, Global};
use std::sync::Wait;
use std::thread::Threads;

/// What was found, before anything is written: the answer, the text of the session, and the notifiers that were
/// handed in.
#[derive(Drop)]
pub struct SessionFound<N: Notify> {
    pub answer: Answer,
    pub output: Bytes,
    pub notes: Notes<N>,
}

/// What was found with these notifiers, if all are back. One that is missing was lost where memory ran out to arm it.
fn of_all<N: Notify>(
    answer: Answer,
    output: Bytes,
    notes: Notes<N>,
    handed: usize,
) -> Result<SessionFound<N>, AllocError>
    ensures answer { IfOk result (λ f. f.answer ≡ answer) }
    ensures output { IfOk result (λ f. f.output ≡ output) }
    ensures notes { IfOk result (λ f. f.notes ≡ notes) }
    ensures all { IfOk result (λ f. answer ≢ Answer.NoMemory → length notes ≡ handed) }
{
    if notes.len() == handed || is_for_memory(&answer) {
        Ok(SessionFound {
            answer,
            output,
            notes,
        })
    } else {
        Err(AllocError)
    }
}

/// It is the answer where memory ran out.
fn is_for_memory(answer: &Answer) -> bool
    ensures { IsTrue result → answer.now ≡ Answer.NoMemory }
{
    matches!(answer, Answer::NoMemory)
}

/// An answer without a session: nothing was told to the notifiers.
fn silent<N: Notify>(alloc: Global, answer: Answer, notes: Vec<N>) -> SessionFound<N>
    requires { All (λ n. N.heard n ≡ None) notes.items }
    ensures answer { result.answer ≡ answer }
    ensures output { result.output ≡ [] }
    ensures notes { result.notes ≡ map Noted.Unfired notes.items }
    ensures heard { AllHaveHeard N.heard result.notes }
{
    SessionFound {
        answer,
        output: Bytes::new(alloc),
        notes: Notes::unfired(notes),
    }
}

/// Memory ran out.
fn wanting<N: Notify>(alloc: Global) -> SessionFound<N>
    ensures answer { result.answer ≡ Answer.NoMemory }
    ensures output { result.output ≡ [] }
    ensures heard { AllHaveHeard N.heard result.notes }
{
    SessionFound {
        answer: Answer::NoMemory,
        output: Bytes::new(alloc),
        notes: Notes::new(alloc),
    }
}

/// As many of the notes as a script can name.
fn counted(notes: usize) -> u32
    ensures { result ≡ counted notes }
{
    u32::try_from(notes).unwrap_or(u32::MAX)
}

/// A script with a unit for each of its files.
#[derive(Drop)]
pub(crate) struct Loaded {
    pub(crate) script: Script,
    pub(crate) units: Vec<ObjectUnit>,
}

/// Reads the script on the source, and its files; or what is answered where they aren't taken in.
fn load<S: Source, F: Files>(
    alloc: Global,
    hasher: NameHasher,
    source: &mut S,
    files: &mut F,
    notes: u32,
) -> Result<Loaded, Answer>
    ensures loaded { IfOk result (IsLoaded (S.left source.old) notes (F.holds files.old)) }
    ensures stopped { IfErr result (HasStoppedIn (S.left source.old) notes (S.faults source.old) (S.faults source.new)
        (F.holds files.old) (F.faults files.old) (F.faults files.new)) }
    ensures read { OnOk result (IsReadWhole (S.left source.old) notes
        (use_of (F.reads files.old) (F.faults files.old)) (use_of (F.reads files.new) (F.faults files.new))) }
    ensures read_for { IfErr result (AreScriptRead (S.left source.old) notes
        (use_of (F.reads files.old) (F.faults files.old)) (use_of (F.reads files.new) (F.faults files.new))) }
    ensures end { OnOk result (IsAtEnd (S.left source.new)) }
    ensures source_quiet { OnOk result (S.faults source.new ≡ S.faults source.old) }
    ensures source_read { IfErr result (IsSourceReadFor (S.faults source.old) (S.faults source.new)) }
    ensures source_counted { S.faults source.old ≤ S.faults source.new }
    ensures counted { F.faults files.old ≤ F.faults files.new }
    ensures same { F.holds files.new ≡ F.holds files.old }
{
    match read_asked(alloc, hasher, source, notes) {
        Ok(script) => load_script(alloc, script, files),
        Err(answer) => Err(answer),
    }
}

/// Reads the files of a script.
fn load_script<F: Files>(alloc: Global, script: Script, files: &mut F) -> Result<Loaded, Answer>
    ensures loaded { IfOk result (HasUnits (F.holds files.old) script) }
    ensures stopped { IfErr result (HasStoppedAt (F.holds files.old) (F.faults files.old) (F.faults files.new) script) }
    ensures read { OnOk result (AreReadIn script.files
        (use_of (F.reads files.old) (F.faults files.old)) (use_of (F.reads files.new) (F.faults files.new))) }
    ensures read_for { IfErr result (AreReadFor script.files
        (use_of (F.reads files.old) (F.faults files.old)) (use_of (F.reads files.new) (F.faults files.new))) }
    ensures counted { F.faults files.old ≤ F.faults files.new }
    ensures same { F.holds files.new ≡ F.holds files.old }
{
    let mut script = script;
    let asked = &mut script;
    match load_units(alloc, &asked.files, &mut asked.names, files) {
        Ok(units) => Ok(Loaded { script, units }),
        Err(answer) => Err(answer),
    }
}

/// Runs a script, and has the text of its session.
fn run_loaded<G: Gate + Sync, N: Notify + Send, R: Threads + Wait + Sync, const JMAX: usize>(
    rt: &R,
    alloc: Global,
    hasher: NameHasher,
    gate: &G,
    loaded: Loaded,
    workers: u32,
    notes: Vec<N>,
) -> Result<SessionFound<N>, AllocError>
    requires limit { JMAX ≤ JOURNAL_LIMIT }
    requires few { workers ≤ 16 }
    requires loaded { (left : Option (List ℕ)) × (told : Told) × IsLoaded left (counted (length notes.items)) told loaded }
    requires unheard { All (λ n. N.heard n ≡ None) notes.items }
    requires numbered { AreNumberedFrom N.number 0 notes.items }
    ensures session { (left : Option (List ℕ)) (told : Told) → IsLoaded left (counted (length notes.items)) told loaded →
        IfOk result (λ f. HasSession N.heard N.number JMAX workers notes.items left told f.answer f.output f.notes) }
    ensures heard { IfOk result (λ f. AllHaveHeard N.heard f.notes) }
{
    let Loaded { script, units } = loaded;
    let count = notes.len();
    let places = NotePlaces::new(alloc, count)?;
    let wanted = wanted_by_all(alloc, script.clients.as_slice())?;
    let Planned { plan, unused } = plan_of(alloc, &script, units.as_slice(), notes)?;
    let first_unused = count - unused.len();
    let ScriptSession {
        session,
        end,
        notified,
    } = run_script::<ObjectUnit, N, G, R, JMAX>(rt, alloc, hasher, plan, gate, workers)?;
    let mut session = session;
    let text = session_text(
        alloc,
        session.journal(),
        &script.names,
        wanted.as_slice(),
        end.clients.as_slice(),
    );
    let answer = session_answer(session.journal(), &end);
    let notes = put_in_order(alloc, places, &mut session, notified, first_unused, unused);
    session.end();
    of_all(answer, text?, notes?, count)
}

/// What `orc session` finds, with so many workers.
pub fn find_session<
    S: Source,
    F: Files,
    G: Gate + Sync,
    N: Notify + Send,
    R: Threads + Wait + Sync,
    const JMAX: usize,
>(
    rt: &R,
    alloc: Global,
    hasher: NameHasher,
    workers: u32,
    source: &mut S,
    files: &mut F,
    gate: &G,
    notes: Vec<N>,
) -> SessionFound<N>
    requires limit { JMAX ≤ JOURNAL_LIMIT }
    requires few { workers ≤ 16 }
    requires unheard { All (λ n. N.heard n ≡ None) notes.items }
    requires numbered { AreNumberedFrom N.number 0 notes.items }
    ensures found { IsFound N.heard N.number JMAX workers notes.items (S.left source.old) (S.faults source.old) (S.faults source.new)
        (F.holds files.old) (F.faults files.old) (F.faults files.new) result.answer result.output result.notes }
    ensures read { AreScriptRead (S.left source.old) (counted (length notes.items))
        (use_of (F.reads files.old) (F.faults files.old)) (use_of (F.reads files.new) (F.faults files.new)) result.answer }
    ensures source_read { IsSourceReadFor (S.faults source.old) (S.faults source.new) result.answer }
    ensures source_end { IsSourceEndFor (S.left source.new) result.answer }
    ensures heard { AllHaveHeard N.heard result.notes }
    ensures source_counted { S.faults source.old ≤ S.faults source.new }
    ensures counted { F.faults files.old ≤ F.faults files.new }
    ensures same { F.holds files.new ≡ F.holds files.old }
{
    match load(alloc, hasher, source, files, counted(notes.len())) {
        Ok(loaded) => {
            match run_loaded::<G, N, R, JMAX>(rt, alloc, hasher, gate, loaded, workers, notes) {
                Ok(found) => found,
                Err(_) => wanting(alloc),
            }
        }
        Err(answer) => silent(alloc, answer, notes),
    }
}
