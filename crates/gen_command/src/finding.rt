//! The whole command.
ghost use Rattle.std.specs.Prelude.{◌≡◌, ◌≤◌};
ghost use Rattle.execution_session.specs.declared.session.TheConstants.{JOURNAL_LIMIT};
ghost use Rattle.gen_command.specs.Found.{IsFound};

use crate::session::summary;
use answers::Answer;
use execution_session::JOURNAL_LIMIT;
use orc_ids::{Bytes, Stop};
use orc_names::NameHasher;
use std::alloc::Global;
use std::sync::Wait;
use std::thread::Threads;

/// What was found, before anything is written: the answer, and the text of what the session came to.
#[derive(Drop)]
pub struct SummaryFound {
    pub answer: Answer,
    pub output: Bytes,
}

/// What is answered where a call was stopped.
fn stop_answer(stop: Stop) -> Answer
    ensures { stop ≡ Stop.NoMemory → result ≡ Answer.NoMemory }
{
    match stop {
        Stop::JournalFull(len) => Answer::JournalFull(len),
        Stop::NoMemory => Answer::NoMemory,
    }
}

/// What `orc gen` finds of so many objects. Its journal has as many places as one can have.
pub fn find_summary<R: Threads + Wait + Sync>(
    rt: &R,
    alloc: Global,
    hasher: NameHasher,
    objects: u32,
) -> SummaryFound
    requires { objects ≤ 4096 }
    ensures { IsFound JOURNAL_LIMIT objects result.answer result.output }
{
    match summary::<R, JOURNAL_LIMIT>(rt, alloc, hasher, objects) {
        Ok(output) => SummaryFound {
            answer: Answer::Done,
            output,
        },
        Err(stop) => SummaryFound {
            answer: stop_answer(stop),
            output: Bytes::new(alloc),
        },
    }
}
