//! Queries that are lodged: of a lookup, and of the externals of a unit.

ghost use Rattle.std.specs.Prelude.{◌≡◌, ◌⊎◌, ◌+◌, ◌^◌, ◌<◌, ℕ, true, None, length, slice_get, Some, IfOk, OnOk, OnErr};
ghost use Rattle.orc_ids.specs.declared.lookup.Level.TheVariants as level;
ghost use Rattle.session_model.specs.Plain.{Plain, UnitRow, is_alias, present_at};
ghost use Rattle.session_model.specs.Query.{stand_at};
ghost use Rattle.session_model.specs.Change.{lodged, linked};
ghost use Rattle.session_model.specs.declared.rows.UnitPhase.TheVariants as stage;
ghost use Rattle.session_laws.specs.Sound.{IsSound, AllMatched};
ghost use Rattle.instances.specs.Graph.{Tells};
ghost use Rattle.query_book.specs.Ledger as book;
ghost use Rattle.session_parts.specs.Lodged.{note_of, new_query};
ghost use Rattle.session_parts.specs.Parts.{AreParts};

use crate::parts::Parts;
use notifiers::Armed;
use orc_ids::{InstId, Items, Level, QueryId, UnitId};
use orc_io::Notify;
use session_model::{Matched, Query, UnitKind};
use std::alloc::{AllocError, Global};

/// The note of a notifier, if there is one.
pub fn note_of<N: Notify>(then: &Option<Armed<N>>) -> Option<u32>
    ensures { result ≡ note_of then.now }
{
    match then {
        Some(armed) => Some(armed.note()),
        None => None,
    }
}

/// Gives up a place for a notifier that holds none.
fn end_nobody<N: Notify>(nobody: Option<Armed<N>>) {
    match nobody {
        Some(armed) => {
            let _object = armed.back();
        }
        None => {}
    }
}

/// Another list of the same matches.
fn copy_matched(
    alloc: Global,
    matched: &[Option<InstId>],
) -> Result<Vec<Option<InstId>>, AllocError>
    ensures { IfOk result (λ copy. copy.items ≡ matched.now) }
{
    matched.to_vec(alloc)
}

impl<U: UnitKind, N: Notify> Parts<U, N> {
    /// The book has one query more; a refusal leaves the notifier where it was.
    fn lodge(&mut self, q: Query, then: &mut Option<Armed<N>>) -> Result<(), AllocError>
        requires { length self.old.book.queries + 1 < 2 ^ 32 }
        ensures ok { OnOk result (self.new.book ≡ book.lodged (stand_at self.old.graph.rows) q then.old self.old.book) }
        ensures current { OnOk result (book.IsCurrent (stand_at self.old.graph.rows) self.old.book → book.IsCurrent (stand_at self.old.graph.rows) self.new.book) }
        ensures taken { OnOk result (then.new ≡ None) }
        ensures err { OnErr result (self.new ≡ self.old) }
        ensures kept { OnErr result (then.new ≡ then.old) }
        ensures rest { self.new ≡ record self.old { book = self.new.book } }
    {
        self.book.lodge(q, &self.graph, then)
    }

    /// The number of the query that is lodged next.
    fn next_query(&self) -> QueryId
        requires { length self.now.book.queries < 2 ^ 32 }
        ensures { result.0 ≡ length self.now.book.queries }
    {
        QueryId(self.book.len() as u32)
    }

    /// A lookup that matched these has a query, with its notifier if it has one, and the units of what it
    /// matched are asked for. A refusal leaves the notifier where it was.
    pub fn ask(
        &mut self,
        asked: u64,
        matched: Matched,
        level: Level,
        then: &mut Option<Armed<N>>,
    ) -> Result<QueryId, AllocError>
        ghost m: { Plain }
        requires parts { AreParts U.meaning self.old m }
        requires sound { IsSound m }
        requires queries { self.old.book.queries ≡ m.queries }
        requires few { length m.queries + 1 < 2 ^ 32 }
        requires here { AllMatched (λ i. present_at m.rows i ≡ true) matched }
        requires asked { asked ≡ m.entries + 1 }
        ensures number { IfOk result (λ q. q.0 ≡ length m.queries) }
        ensures ok { OnOk result (AreParts U.meaning self.new (lodged matched level None (note_of then.old) m)) }
        ensures book { OnOk result (self.new.book ≡ book.lodged (stand_at m.rows) (new_query asked matched level None (note_of then.old)) then.old self.old.book) }
        ensures current { OnOk result (book.IsCurrent (stand_at m.rows) self.old.book → book.IsCurrent (stand_at m.rows) self.new.book) }
        ensures taken { OnOk result (then.new ≡ None) }
        ensures tells { Tells self.old.graph self.new.graph }
        ensures err { OnErr result (self.new ≡ self.old) }
        ensures kept { OnErr result (then.new ≡ then.old) }
        ensures rest { self.new ≡ record self.old { graph = self.new.graph; units = self.new.units; book = self.new.book } }
    {
        let q = self.next_query();
        let found = copy_matched(self.alloc, matched.as_slice())?;
        let note = note_of(then);
        self.lodge(
            Query {
                asked,
                matched,
                level,
                unit: None,
                note,
            },
            then,
        )?;
        self.claim_all(&found);
        Ok(q)
    }

    /// The query of a unit's externals, which matched these, is lodged.
    fn lodge_link(&mut self, q: Query) -> Result<(), AllocError>
        requires { length self.old.book.queries + 1 < 2 ^ 32 }
        ensures ok { OnOk result (self.new.book ≡ book.lodged (stand_at self.old.graph.rows) q None self.old.book) }
        ensures current { OnOk result (book.IsCurrent (stand_at self.old.graph.rows) self.old.book → book.IsCurrent (stand_at self.old.graph.rows) self.new.book) }
        ensures err { OnErr result (self.new ≡ self.old) }
        ensures rest { self.new ≡ record self.old { book = self.new.book } }
    {
        let mut nobody = None;
        let lodged = self.lodge(q, &mut nobody);
        end_nobody(nobody);
        lodged
    }

    /// A unit whose externals matched these waits for its link query, and the units of what it matched are
    /// asked for.
    pub fn link(&mut self, asked: u64, u: UnitId, matched: Matched) -> Result<QueryId, AllocError>
        ghost m: { Plain }
        requires parts { AreParts U.meaning self.old m }
        requires sound { IsSound m }
        requires queries { self.old.book.queries ≡ m.queries }
        requires few { length m.queries + 1 < 2 ^ 32 }
        requires here { AllMatched (λ i. present_at m.rows i ≡ true) matched }
        requires asked { asked ≡ m.entries + 1 }
        requires right { (x : UnitRow) × (slice_get m.units u.0 ≡ Some x) × ((x.phase ≡ stage.Linking) ⊎ ((x.phase ≡ stage.Started) × (is_alias x ≡ true))) }
        ensures number { IfOk result (λ q. q.0 ≡ length m.queries) }
        ensures ok { OnOk result (AreParts U.meaning self.new (linked u.0 matched m)) }
        ensures book { OnOk result (self.new.book ≡ book.lodged (stand_at m.rows) (new_query asked matched level.Resolved (Some u.0) None) None self.old.book) }
        ensures current { OnOk result (book.IsCurrent (stand_at m.rows) self.old.book → book.IsCurrent (stand_at m.rows) self.new.book) }
        ensures tells { Tells self.old.graph self.new.graph }
        ensures err { OnErr result (self.new ≡ self.old) }
        ensures rest { self.new ≡ record self.old { graph = self.new.graph; units = self.new.units; book = self.new.book } }
    {
        let q = self.next_query();
        let found = copy_matched(self.alloc, matched.as_slice())?;
        self.lodge_link(Query {
            asked,
            matched,
            level: Level::Resolved,
            unit: Some(u.0),
            note: None,
        })?;
        self.claim_all(&found);
        self.wait(u, q);
        Ok(q)
    }
}
