ghost use Rattle.std.specs.Prelude.{◌≡◌, ◌≤◌, [], IfErr, Ok};
ghost use Rattle.command_line.specs.Words.{request};
ghost use Rattle.object_files.specs.Files.{distinct};
ghost use Rattle.object_files.specs.Reads.{use_of};
ghost use Rattle.answers.specs.Reads.{AreReadFor};
ghost use Rattle.run_answers.specs.Answered.{IsFound};

use crate::loading::load;
use crate::running::{Found, run_loaded};
use answers::{Answer, file_answer};
use command_line::RunWords;
use execution_session::JOURNAL_LIMIT;
use orc_ids::Bytes;
use orc_io::{Files, Gate};
use orc_names::NameHasher;
use std::alloc::Global;
use std::sync::Wait;
use std::thread::Threads;

/// What a run of files answers, before anything is written.
pub(crate) fn find_run<F: Files, G: Gate + Sync, R: Threads + Wait + Sync, const JMAX: usize>(
    rt: &R,
    alloc: Global,
    hasher: NameHasher,
    run: &RunWords<'_>,
    files: &mut F,
    gate: &G,
) -> Found
    requires limit { JMAX ≤ JOURNAL_LIMIT }
    requires few { run.now.workers ≤ 16 }
    ensures found { IsFound JMAX (Ok (request run.now))
        (F.holds files.old) (F.faults files.old) (F.faults files.new)
        result.answer result.output result.journal }
    ensures read { AreReadFor (distinct (request run.now).files)
        (use_of (F.reads files.old) (F.faults files.old)) (use_of (F.reads files.new) (F.faults files.new)) result.answer }
    ensures counted { F.faults files.old ≤ F.faults files.new }
    ensures same { F.holds files.new ≡ F.holds files.old }
{
    match load(alloc, hasher, run, files) {
        Ok(loaded) => match run_loaded::<G, R, JMAX>(rt, alloc, gate, loaded, run) {
            Ok(found) => found,
            Err(_) => silent(alloc, Answer::NoMemory),
        },
        Err(why) => silent(alloc, file_answer(why)),
    }
}

/// An answer without output, and without a session.
pub(crate) fn silent(alloc: Global, answer: Answer) -> Found
    ensures answer { result.answer ≡ answer }
    ensures output { result.output ≡ [] }
    ensures journal { result.journal ≡ [] }
{
    Found {
        answer,
        output: Bytes::new(alloc),
        journal: Bytes::new(alloc),
    }
}
