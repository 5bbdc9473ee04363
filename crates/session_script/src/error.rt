ghost use Rattle.std.specs.Prelude.{◌≡◌};
ghost use Rattle.session_script.specs.declared.error.Refusal.TheVariants.{NoMemory};
ghost use Rattle.session_script.specs.Refused.{why_word};

use std::alloc::{AllocError, AllocFailed};
use thiserror::Error;

/// Why a line is refused. Where several reasons apply to a line, it is the first of these.
#[derive(Clone, Copy, Debug, PartialEq, Eq)]
pub enum ScriptWhy {
    /// The line is past the last that a script may have, or a byte of it is.
    TooLong,
    /// A byte that no line has, or a space that parts no two words.
    Bytes,
    /// The first word names no line that may stand here.
    Word,
    /// The line has too few or too many words.
    Count,
    /// A word is no name of its kind.
    Name,
    /// A word is no number of its place.
    Number,
    /// An item of a search order, or a level, is malformed.
    Order,
    /// A dylib, a tracker or an absolute symbol is named a second time.
    Taken,
    /// A dylib or a tracker wasn't declared.
    Unknown,
    /// There are fewer notes than lines that watch.
    NoNote,
    /// A limit is passed.
    TooMany,
}

impl ScriptWhy {
    /// The word for it.
    pub fn word(self) -> &'static [u8]
        ensures { result.now ≡ why_word self }
    {
        match self {
            ScriptWhy::TooLong => b"toolong",
            ScriptWhy::Bytes => b"bytes",
            ScriptWhy::Word => b"word",
            ScriptWhy::Count => b"count",
            ScriptWhy::Name => b"name",
            ScriptWhy::Number => b"number",
            ScriptWhy::Order => b"order",
            ScriptWhy::Taken => b"taken",
            ScriptWhy::Unknown => b"unknown",
            ScriptWhy::NoNote => b"nonote",
            ScriptWhy::TooMany => b"toomany",
        }
    }
}

/// Why bytes gave no script.
#[derive(Clone, Copy, Debug, PartialEq, Eq, Error)]
pub enum ScriptError {
    /// The first bad line, counted from 1, and why it is refused.
    #[error("a line is refused")]
    BadLine(u32, ScriptWhy),
    #[error("out of memory")]
    NoMemory,
}

/// Why a line wasn't read.
#[derive(Clone, Copy)]
pub(crate) enum Refusal {
    Line(ScriptWhy),
    NoMemory,
}

impl From<ScriptWhy> for Refusal {
    ghost use Rattle.session_script.specs.declared.error.Refusal.TheVariants.{Line};

    ghost from_gives = { λ why refusal. refusal ≡ Line why };

    fn from(why: ScriptWhy) -> Refusal {
        Refusal::Line(why)
    }
}

impl From<AllocError> for Refusal {
    ghost from_gives = { λ _ refusal. refusal ≡ NoMemory };

    fn from(_: AllocError) -> Refusal {
        Refusal::NoMemory
    }
}

impl<T: Drop> From<AllocFailed<T>> for Refusal {
    ghost from_gives = { λ _ refusal. refusal ≡ NoMemory };

    fn from(_: AllocFailed<T>) -> Refusal {
        Refusal::NoMemory
    }
}
