use asm_lines::AsmWhy;
use command_line::UsageKind;
use object_files::ObjectWhy;
use orc_ids::{Bytes, InstId, Place};
use rv_hart::Cause;
use session_script::ScriptWhy;

/// How the program ended: its one answer. Each has an exit status and a last line on the log.
///
/// A file is numbered by its place among the distinct names of the command line or of the script, by first mention,
/// from 0.
#[derive(Drop)]
pub enum Answer {
    /// The session, or the assembled object, was written whole.
    Done,
    /// The run called exit with this code.
    Exited(u64),
    /// The words are no command line.
    Usage(UsageKind),
    /// Reading the source failed.
    ReadFault,
    /// Reading this file failed, or there is no such file.
    FileFault(u32),
    /// Writing the output or the log failed.
    WriteFault,
    /// This line of the script, counted from 1, is the first bad one.
    ScriptRefused(u32, ScriptWhy),
    /// This file is no object that can be linked.
    ObjectRefused(u32, ObjectWhy),
    /// This file has more than 16 MiB, or makes all together more than 256 MiB.
    TooLong(u32),
    /// No object defines a symbol of this name.
    Missing(Bytes),
    /// The edge at this place, of this kind and value, is out of range, in the unit of the entry.
    LinkRefused(Place, u32, i64),
    /// This instance couldn't be made ready, for another one that failed.
    DepFailed(InstId),
    /// The run trapped at this program counter.
    Trap(u64, Cause),
    /// The run spent all its fuel.
    OutOfFuel,
    /// The run wrote more than its output holds.
    OutputFull,
    /// The session's journal is full after so many entries.
    JournalFull(u64),
    /// Memory ran out.
    NoMemory,
    /// The names of this file's object clash with those of an object before it, or there are too many.
    DefineRefused(u32),
    /// This line of the assembly text, counted from 1, is the first bad one.
    AsmRefused(u32, AsmWhy),
}

impl Answer {
    ghost use Rattle.std.specs.Prelude.{◌≡◌};
    ghost use Rattle.answers.specs.Answers.{status_of};

    /// The exit status of the program.
    pub fn status(&self) -> u8
        ensures { result ≡ status_of self.now }
    {
        match self {
            Answer::Done => 0,
            Answer::Exited(code) => (code % 256) as u8,
            Answer::Usage(_) => 100,
            Answer::ReadFault => 101,
            Answer::FileFault(_) => 102,
            Answer::WriteFault => 103,
            Answer::ScriptRefused(_, _) => 104,
            Answer::ObjectRefused(_, _) => 105,
            Answer::TooLong(_) => 106,
            Answer::Missing(_) => 107,
            Answer::LinkRefused(_, _, _) => 108,
            Answer::DepFailed(_) => 109,
            Answer::Trap(_, _) => 110,
            Answer::OutOfFuel => 111,
            Answer::OutputFull => 112,
            Answer::JournalFull(_) => 113,
            Answer::NoMemory => 114,
            Answer::AsmRefused(_, _) => 115,
            Answer::DefineRefused(_) => 116,
        }
    }
}
