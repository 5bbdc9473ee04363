ghost use Rattle.std.specs.Prelude.{◌≡◌, ◌<◌, [], ◌∷◌, IfSome, OnErr, OnOk, Some};
ghost use Rattle.orc_ids.specs.declared.ids.NameId.{NameId};
ghost use Rattle.ready_words.specs.Peeks.{IsPeek, instance_of};
ghost use Rattle.turn_lock.specs.Handles.{view, turn_id, post_count, IsReady};

use indexmap::IndexMap;
use orc_ids::{InstId, NameId};
use orc_io::Notify;
use orc_names::NameHasher;
use session_model::{Peek, UnitKind};
use shared_session::{Pass, Shared, ready_word};
use std::alloc::{AllocError, Global};
use std::marker::Model;

/// Which instance each name was last found to be, or none. Contracts see a list that gives each name
/// what all that was learnt gives it.
#[derive(Drop)]
pub struct Peeks {
    instances: IndexMap<NameId, Option<InstId>, NameHasher>,
}

impl Model for Peeks {
    ghost use Rattle.ready_words.specs.Peeks.{Learnt};

    ghost Value = { Learnt };

    ghost view = { λ p. p.instances.entries };
}

impl Peeks {
    /// Nothing learnt; takes no memory. Strangers choose the names, so the hasher's seed is the
    /// caller's to choose.
    pub fn new(alloc: Global, hasher: NameHasher) -> Peeks
        ensures { result ≡ [] }
    {
        Peeks {
            instances: IndexMap::with_hasher(alloc, hasher),
        }
    }

    /// Learns what a name was found to be: an instance, or none.
    pub fn learn(&mut self, name: NameId, i: Option<InstId>) -> Result<(), AllocError>
        ensures learnt { OnOk result ((other : NameId) → instance_of other self.new ≡ instance_of other ((name, i) ∷ self.old)) }
        ensures stays { OnErr result ((other : NameId) → instance_of other self.new ≡ instance_of other self.old) }
    {
        self.instances.insert(name, i)?;
        Ok(())
    }

    /// What the name was last learnt to be.
    fn instance(&self, name: NameId) -> Option<InstId>
        ensures { result ≡ instance_of name self.now }
    {
        self.instances.get(&name).copied().flatten()
    }

    /// Whether the instance that the name was last learnt to be is ready: two loads, which wait for
    /// nobody.
    pub fn peek<U: UnitKind, N: Notify, const JMAX: usize>(
        &self,
        shared: &Shared<U, N, JMAX>,
        pass: &mut Pass<U, N, JMAX>,
        name: NameId,
    ) -> Peek
        requires ready { IsReady (turn_id shared.now) pass.old }
        requires there { IfSome (instance_of name self.now) (λ i. i.0 < post_count shared.now) }
        ensures ready { IsReady (turn_id shared.now) pass.new }
        ensures peeked { IsPeek U.meaning JMAX (instance_of name self.now) (view pass.old) (view pass.new) result }
    {
        match self.instance(name) {
            Some(i) => peek_at(shared, pass, i),
            None => Peek::Unfound,
        }
    }
}

/// Whether an instance is ready: two loads, which wait for nobody.
pub fn peek_at<U: UnitKind, N: Notify, const JMAX: usize>(
    shared: &Shared<U, N, JMAX>,
    pass: &mut Pass<U, N, JMAX>,
    i: InstId,
) -> Peek
    requires ready { IsReady (turn_id shared.now) pass.old }
    requires there { i.0 < post_count shared.now }
    ensures ready { IsReady (turn_id shared.now) pass.new }
    ensures peeked { IsPeek U.meaning JMAX (Some i) (view pass.old) (view pass.new) result }
{
    match ready_word(shared, pass, i) {
        0 => Peek::NotYet,
        address => Peek::Ready(address),
    }
}
