ghost use Rattle.std.specs.Prelude.{◌≡◌, ℕ, ◌+◌, ◌^◌, ◌<◌, ◌≤◌, ◌∷◌, [], Some, None, length, set, slice_get, OnOk, OnSome, IfSome, IfNone, option_and_then};
ghost use Rattle.query_book.specs.Counts.{total, list_at};
ghost use Rattle.query_book.specs.Lists.{HasLists};

use orc_ids::InstId;
use std::alloc::{AllocError, Global};
use std::marker::Model;

/// A query in the list of an instance, and the node behind it.
#[derive(Clone, Copy)]
pub(crate) struct Node {
    pub(crate) query: u32,
    pub(crate) next: Option<usize>,
}

/// For each instance a list of queries. The lists are chains of nodes in one vector.
#[derive(Drop)]
pub(crate) struct Lists {
    firsts: Vec<Option<usize>>,
    nodes: Vec<Node>,
}

impl Model for Lists {
    ghost use Rattle.std.specs.Prelude.{◌-◌, vec_len, vec_capacity};
    ghost use Rattle.query_book.specs.Lists.{Chains};

    ghost Value = { Chains };

    ghost use Rattle.query_book.specs.Lists.{walks, IsChained};

    ghost view = { λ l. record { lists = walks l.nodes.items l.firsts.items; spare = vec_capacity l.nodes - vec_len l.nodes } };

    ghost invariant = { λ l. IsChained l.nodes.items l.firsts.items };
}

/// Where the list of an instance begins.
fn first_at(firsts: &[Option<usize>], at: usize) -> Option<usize>
    ensures { result ≡ option_and_then (λ f. f) (slice_get firsts.now at) }
{
    match firsts.get(at) {
        Some(first) => *first,
        None => None,
    }
}

impl Lists {
    /// No lists; takes no memory.
    pub(crate) fn new(alloc: Global) -> Lists
        ensures { result.lists ≡ [] }
    {
        Lists {
            firsts: Vec::new(alloc),
            nodes: Vec::new(alloc),
        }
    }

    /// Makes the list of an instance, if there is none.
    fn grow(&mut self, at: usize) -> Result<(), AllocError>
        requires { at < 2 ^ 32 }
        ensures there { OnOk result (at < length self.new.lists) }
        ensures more { length self.old.lists ≤ length self.new.lists }
        ensures lists { (i : ℕ) → list_at self.new.lists i ≡ list_at self.old.lists i }
        ensures totals { (k : ℕ) → total k self.new.lists ≡ total k self.old.lists }
        ensures spare { self.new.spare ≡ self.old.spare }
    {
        if at >= self.firsts.len() {
            self.firsts.resize(at + 1, None)?;
        }
        Ok(())
    }

    /// Makes the list of what is matched, if there is none.
    fn make(&mut self, found: Option<InstId>) -> Result<(), AllocError>
        ensures there { OnOk result (HasLists self.new.lists (found ∷ [])) }
        ensures more { length self.old.lists ≤ length self.new.lists }
        ensures lists { (i : ℕ) → list_at self.new.lists i ≡ list_at self.old.lists i }
        ensures totals { (k : ℕ) → total k self.new.lists ≡ total k self.old.lists }
        ensures spare { self.new.spare ≡ self.old.spare }
    {
        match found {
            Some(i) => self.grow(i.0 as usize),
            None => Ok(()),
        }
    }

    /// Makes the lists of some instances, if there are none, and the room for a node of each.
    pub(crate) fn room(&mut self, matched: &[Option<InstId>]) -> Result<(), AllocError>
        ensures there { OnOk result (HasLists self.new.lists matched.now) }
        ensures room { OnOk result (length matched.now ≤ self.new.spare) }
        ensures lists { (i : ℕ) → list_at self.new.lists i ≡ list_at self.old.lists i }
        ensures totals { (k : ℕ) → total k self.new.lists ≡ total k self.old.lists }
    {
        self.nodes.reserve(matched.len())?;
        for found in matched {
            self.make(*found)?;
        }
        Ok(())
    }

    /// Adds a query to the list of an instance; takes no memory.
    pub(crate) fn add(&mut self, at: usize, query: u32)
        requires there { at < length self.old.lists }
        requires room { 0 < self.old.spare }
        ensures added { self.new.lists ≡ set self.old.lists at (query ∷ list_at self.old.lists at) }
        ensures spare { self.new.spare + 1 ≡ self.old.spare }
    {
        let node = self.nodes.len();
        let next = self.firsts[at];
        self.nodes.push_reserved(Node { query, next });
        self.firsts[at] = Some(node);
    }

    /// Takes a query out of the list of an instance.
    pub(crate) fn pop(&mut self, at: usize) -> Option<u32>
        ensures first { IfSome result (λ k. list_at self.old.lists at ≡ k ∷ list_at self.new.lists at) }
        ensures others { OnSome result (self.new.lists ≡ set self.old.lists at (list_at self.new.lists at)) }
        ensures empty { IfNone result (list_at self.old.lists at ≡ []) }
        ensures same { IfNone result (self.new.lists ≡ self.old.lists) }
    {
        let node = first_at(&self.firsts, at)?;
        let Node { query, next } = self.nodes[node];
        self.firsts[at] = next;
        Some(query)
    }
}
