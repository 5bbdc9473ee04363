ghost use Rattle.std.specs.Prelude.{◌≡◌, [], ◌∷◌, ◌++◌, OnOk, option_map};
ghost use Rattle.orc_ids.specs.declared.ids.NameId.{NameId};
ghost use Rattle.script_model.specs.Given.{address_of, given_match, given_names, match_of};

use indexmap::IndexMap;
use orc_ids::{InstId, Level, NameId, Wanted};
use orc_names::NameHasher;
use std::alloc::{AllocError, Global};
use std::marker::Model;

/// A name's match by a lookup that was found, and the level that the lookup waited for.
#[derive(Clone, Copy, PartialEq, Eq)]
pub struct GivenMatch {
    pub instance: InstId,
    pub address: u64,
    pub level: Level,
}

/// What lookups gave to names: a match, or none to a weakly referenced name without one.
/// Contracts see a list that gives each name what all the lookups gave it.
#[derive(Drop)]
pub struct GivenNames {
    matches: IndexMap<NameId, Option<GivenMatch>, NameHasher>,
}

impl Model for GivenNames {
    ghost use Rattle.script_model.specs.Given.{Given};

    ghost Value = { Given };

    ghost view = { λ g. g.matches.entries };
}

impl GivenNames {
    /// No lookups; takes no memory.
    pub fn new(alloc: Global, hasher: NameHasher) -> GivenNames
        ensures { result ≡ [] }
    {
        GivenNames {
            matches: IndexMap::with_hasher(alloc, hasher),
        }
    }

    /// Adds a lookup up to this level that was found, with the match of each name. Where memory runs
    /// out, some of its names may have been added.
    pub fn add(
        &mut self,
        level: Level,
        wanted: &[Wanted],
        matches: &[Option<(InstId, u64)>],
    ) -> Result<(), AllocError>
        ensures { OnOk result ((name : NameId) → match_of name self.new ≡ match_of name (given_names level wanted.now matches.now ++ self.old)) }
    {
        // From the end, so that the first of two equal names is the one that stays.
        for place in (0..wanted.len().min(matches.len())).rev() {
            self.give(wanted[place].name, given_match(level, matches[place]))?;
        }
        Ok(())
    }

    /// Gives a name a match, or none.
    fn give(&mut self, name: NameId, found: Option<GivenMatch>) -> Result<(), AllocError>
        ensures { OnOk result ((other : NameId) → match_of other self.new ≡ match_of other ((name, found) ∷ self.old)) }
    {
        self.matches.insert(name, found)?;
        Ok(())
    }

    /// The match of a name, where the latest lookup that had it gave it one.
    pub fn match_of(&self, name: NameId) -> Option<GivenMatch>
        ensures { result ≡ match_of name self.now }
    {
        self.matches.get(&name).copied().flatten()
    }

    /// Its address.
    pub fn address(&self, name: NameId) -> Option<u64>
        ensures { result ≡ address_of name self.now }
    {
        self.match_of(name).map(|found| found.address)
    }
}

/// A match of a lookup up to this level.
fn given_match(level: Level, found: Option<(InstId, u64)>) -> Option<GivenMatch>
    ensures { result ≡ option_map (given_match level) found }
{
    found.map(|(instance, address)| GivenMatch {
        instance,
        address,
        level,
    })
}
