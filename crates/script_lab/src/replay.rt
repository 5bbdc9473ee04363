//! A journal, played on a plain session and judged entry by entry.
ghost use Rattle.std.specs.Prelude.{[], ◌<◌, ◌^◌, length};

use crate::unit::LabUnit;
use session_check::{empty_session, play};
use session_model::Entry;
use session_past::Ends;
use session_plain::PlainSession;
use std::alloc::{AllocError, Global};

/// An entry of a session of the laboratory.
pub type LabEntry = Entry<LabUnit>;

/// The plain session that the first entries of a journal lead to, and the ends of its queries.
#[derive(Drop)]
pub struct Replay {
    pub plain: PlainSession<LabUnit>,
    pub ends: Ends,
}

/// What a journal leads to.
#[derive(Drop)]
pub enum Played {
    /// Each entry's reply is a right one.
    Legal(Replay),
    /// That of the entry of this number, from 0, is the first that isn't.
    WrongAt(usize),
}

impl Replay {
    ghost use Rattle.script_lab.specs.Played.{IsPlayed};

    /// Before the first entry.
    fn new(alloc: Global) -> Replay
        ensures { IsPlayed [] result }
    {
        Replay {
            plain: empty_session(alloc),
            ends: Vec::new(alloc),
        }
    }
}

/// Plays a journal of so many places.
fn play_all(alloc: Global, jmax: u64, journal: &[LabEntry]) -> Result<Played, AllocError>
    requires { length journal.now < 2 ^ 32 }
{
    let mut replay = Replay::new(alloc);
    for (k, e) in journal.iter().enumerate() {
        let past = &journal[..k];
        if !play(alloc, jmax, past, &mut replay.plain, &mut replay.ends, e)? {
            return Ok(Played::WrongAt(k));
        }
    }
    Ok(Played::Legal(replay))
}

/// Plays a journal of so many places. One of 2 ^ 32 entries isn't played.
pub fn play_journal(alloc: Global, jmax: u64, journal: &[LabEntry]) -> Result<Played, AllocError> {
    if journal.len() > u32::MAX as usize {
        return Ok(Played::WrongAt(0));
    }
    play_all(alloc, jmax, journal)
}
