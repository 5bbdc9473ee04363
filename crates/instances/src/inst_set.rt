ghost use Rattle.std.specs.Prelude.{◌≡◌, ◌≤◌, ◌<◌, ◌+◌, ◌&&◌, ◌==◌, [], ℕ, not, false, length, slice_get, vec_capacity, OnOk};
ghost use Rattle.std.specs.Option.{option_map_or};
ghost use Rattle.orc_ids.specs.declared.limits.TheConstants.{INSTANCE_LIMIT};
ghost use Rattle.instances.specs.Table.{is_among};
ghost use Rattle.instances.specs.Sets.{is_set, unset, AddsPlaced, AddsSpan};

use crate::Span;
use orc_ids::InstId;
use std::alloc::{AllocError, Global};
use std::marker::Model;

/// Some instances, each once, in the order in which they came, with the room for all that there are.
#[derive(Drop)]
pub(crate) struct InstSet {
    list: Vec<InstId>,
    flags: Vec<bool>,
}

impl Model for InstSet {
    ghost use Rattle.std.specs.Prelude.{length, vec_capacity};
    ghost use Rattle.instances.specs.Sets.{Members, AreFlagged};

    ghost Value = { Members };

    ghost view = { λ s. record { items = s.list.items; places = length s.flags.items } };

    ghost invariant = { λ s. AreFlagged s.list.items s.flags.items (vec_capacity s.list) };
}

/// Whether there is such a flag, and it isn't set.
fn is_open(flags: &[bool], k: usize) -> bool
    ensures { result ≡ option_map_or not (slice_get flags.now k) false }
{
    match flags.get(k) {
        Some(flag) => !*flag,
        None => false,
    }
}

/// Adds flags that are not set, up to a number of them.
fn grow(flags: &mut Vec<bool>, count: usize)
    requires { count ≤ vec_capacity flags.old }
    ensures same { (k : ℕ) → is_set flags.new.items k ≡ is_set flags.old.items k }
    ensures unset { unset flags.new.items + length flags.old.items ≡ unset flags.old.items + length flags.new.items }
    ensures count { count ≤ length flags.new.items }
    ensures longer { length flags.old.items ≤ length flags.new.items }
    ensures most { (n : ℕ) → length flags.old.items ≤ n → count ≤ n → length flags.new.items ≤ n }
{
    while flags.as_slice().len() < count {
        flags.push_reserved(false);
    }
}

/// Takes the flag of an instance back, if it has one.
fn lower(flags: &mut Vec<bool>, i: InstId)
    ensures flags { (k : ℕ) → is_set flags.new.items k ≡ (is_set flags.old.items k && not (i.0 == k)) }
    ensures length { length flags.new.items ≡ length flags.old.items }
{
    if (i.0 as usize) < flags.len() {
        flags[i.0 as usize] = false;
    }
}

/// Takes the flags of some instances back.
fn lower_all(flags: &mut Vec<bool>, list: &[InstId])
    ensures flags { (k : ℕ) → is_set flags.new.items k ≡ (is_set flags.old.items k && not (is_among list.now k)) }
    ensures length { length flags.new.items ≡ length flags.old.items }
{
    for i in list {
        lower(flags, *i);
    }
}

impl InstSet {
    /// None; takes no memory.
    pub(crate) fn new(alloc: Global) -> InstSet
        ensures items { result.items ≡ [] }
        ensures places { result.places ≡ 0 }
    {
        InstSet {
            list: Vec::new(alloc),
            flags: Vec::new(alloc),
        }
    }

    pub(crate) fn as_slice(&self) -> &[InstId]
        ensures { result.now ≡ self.now.items }
    {
        self.list.as_slice()
    }

    /// Makes the room for the instances below a number.
    pub(crate) fn room(&mut self, places: usize) -> Result<(), AllocError>
        ensures items { self.new.items ≡ self.old.items }
        ensures places { OnOk result (places ≤ self.new.places) }
        ensures kept { self.old.places ≤ self.new.places }
    {
        self.list.reserve(places)?;
        self.flags.reserve(places)?;
        grow(&mut self.flags, places);
        Ok(())
    }

    /// Adds an instance for which there is room, if it isn't in yet; takes no memory.
    pub(crate) fn add(&mut self, i: InstId)
        ensures added { AddsPlaced (λ k. i.0 == k) self.old self.new }
        ensures places { self.new.places ≡ self.old.places }
    {
        if is_open(&self.flags, i.0 as usize) {
            self.flags[i.0 as usize] = true;
            self.list.push_reserved(i);
        }
    }

    /// Adds those of these instances for which there is room; takes no memory.
    pub(crate) fn add_all(&mut self, list: &[InstId])
        ensures added { AddsPlaced (is_among list.now) self.old self.new }
        ensures places { self.new.places ≡ self.old.places }
    {
        for i in list {
            self.add(*i);
        }
    }

    /// Adds those instances of a span for which there is room; takes no memory.
    pub(crate) fn add_span(&mut self, span: Span)
        requires { span.first + span.count ≤ INSTANCE_LIMIT }
        ensures added { AddsSpan span.first span.count self.old self.new }
        ensures places { self.new.places ≡ self.old.places }
    {
        for i in span.first..span.first + span.count {
            self.add(InstId(i));
        }
    }

    /// Takes all out again; takes no memory.
    pub(crate) fn clear(&mut self)
        ensures items { self.new.items ≡ [] }
        ensures places { self.new.places ≡ self.old.places }
    {
        lower_all(&mut self.flags, self.list.as_slice());
        self.list.clear();
    }
}
