//! What lookups gave to names.

use orc_ids::{InstId, Level, NameId, Wanted};
use session_model::Peek;
use std::alloc::{AllocError, Global};

/// A name's match.
#[derive(Clone, Copy)]
struct Match {
    address: u64,
    level: Level,
}

/// What lookups gave to names, the latest last.
#[derive(Drop)]
pub struct Given {
    names: Vec<(NameId, Option<Match>)>,
}

impl Given {
    pub fn new(alloc: Global) -> Given {
        Given {
            names: Vec::new(alloc),
        }
    }

    /// Adds what a lookup up to the level found; of equal names the first one counts.
    pub fn add(
        &mut self,
        level: Level,
        wanted: &[Wanted],
        matches: &[Option<(InstId, u64)>],
    ) -> Result<(), AllocError> {
        for place in (0..wanted.len().min(matches.len())).rev() {
            let found = matches[place].map(|found| Match {
                address: found.1,
                level,
            });
            self.names.push((wanted[place].name, found))?;
        }
        Ok(())
    }

    /// The match of a name, where the latest lookup that had it gave it one.
    fn match_of(&self, name: NameId) -> Option<Match> {
        for (given, found) in self.names.iter().rev() {
            if *given == name {
                return *found;
            }
        }
        None
    }

    /// Its address.
    pub fn address(&self, name: NameId) -> Option<u64> {
        self.match_of(name).map(|found| found.address)
    }

    /// Whether a peek at the name may tell this: an instance has one address, and is never not yet ready to
    /// a client that found it so.
    pub fn may_tell(&self, name: NameId, told: Peek) -> bool {
        match (self.match_of(name), told) {
            (None, Peek::Unfound) => true,
            (Some(found), Peek::NotYet) => found.level == Level::Resolved || found.address == 0,
            (Some(found), Peek::Ready(address)) => found.address == address,
            _ => false,
        }
    }
}
