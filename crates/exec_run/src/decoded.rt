ghost use Rattle.std.specs.Prelude.{◌≡◌, ◌≤◌, ◌<◌, ◌+◌, ◌-◌, ◌%◌, ℕ, Some, None, IfOk, length};
ghost use Rattle.rv_insn.specs.declared.flat.FlatInsn.{FlatInsn};
ghost use Rattle.exec_run.specs.declared.host.TheConstants.{STACK_START};
ghost use Rattle.exec_run.specs.Decoded.{kept_at, place_of, IsKept, IsForgotten, AreForgotten};

use rv_insn::{FlatInsn, Kind};
use std::alloc::{AllocError, Global};
use std::marker::Model;

/// How many places there are at first.
const FEWEST: usize = 256;

/// How many places there are at most.
const MOST: usize = 65_536;

/// Where no instruction is kept.
const NOWHERE: u64 = 1;

/// A place for an instruction that was decoded, and the address that it stands at; an odd one where
/// there is none.
#[derive(Clone, Copy)]
pub(crate) struct Place {
    pub(crate) at: u64,
    pub(crate) insn: FlatInsn,
}

/// Instructions that were decoded, each at the place that its address names, which the last one
/// there has. Where as many were decoded as there are places, there are twice as many from then on,
/// if there is memory for them. Contracts see the places, and what they keep of an address.
#[derive(Drop)]
pub(crate) struct Decoded {
    alloc: Global,
    places: Vec<Place>,
    mask: u64,
    missed: usize,
}

impl Model for Decoded {
    ghost use Rattle.std.specs.Prelude.{◌≡◌, ◌+◌, List, length};
    ghost use Rattle.exec_run.specs.declared.decoded.Place.{Place};

    ghost Value = { List Place };

    ghost view = { λ d. d.places.items };

    ghost invariant = { λ d. length d.places.items ≡ d.mask + 1 };
}

impl Decoded {
    /// Nothing is kept.
    pub(crate) fn new(alloc: Global) -> Result<Decoded, AllocError>
        ensures { IfOk result (λ d. (at : ℕ) → at % 4 ≡ 0 → kept_at d at ≡ None) }
    {
        Ok(Decoded {
            alloc,
            places: empty(alloc, FEWEST)?,
            mask: FEWEST as u64 - 1,
            missed: 0,
        })
    }

    /// The instruction that is kept of an address.
    #[inline(always)]
    pub(crate) fn get(&self, at: u64) -> Option<FlatInsn>
        ensures { result ≡ kept_at self.now at }
    {
        let place = &self.places[place_of(self.mask, at)];
        if place.at == at {
            Some(place.insn)
        } else {
            None
        }
    }

    /// Keeps the instruction at an address.
    pub(crate) fn keep(&mut self, at: u64, insn: FlatInsn)
        ensures { IsKept self.old self.new at insn }
    {
        self.make_room();
        let place = place_of(self.mask, at);
        self.places[place] = Place { at, insn };
    }

    /// Twice as many places, which keep nothing, where as many instructions were decoded as there
    /// are places; or as before, where memory runs out.
    fn make_room(&mut self)
        ensures { (at : ℕ) (i : FlatInsn) → at % 4 ≡ 0 → kept_at self.new at ≡ Some i → kept_at self.old at ≡ Some i }
    {
        let count = self.places.len();
        if self.missed < count || count >= MOST {
            self.missed = self.missed.saturating_add(1);
            return;
        }
        self.missed = 0;
        if let Ok(places) = empty(self.alloc, 2 * count) {
            self.places = places;
            self.mask = 2 * count as u64 - 1;
        }
    }

    /// Forgets the instructions of the words that `width` bytes from the address on are in: three
    /// where eight bytes begin inside a word.
    #[inline(always)]
    pub(crate) fn forget(&mut self, at: u64, width: u8)
        requires below { at ≤ STACK_START }
        requires wide { width ≤ 8 }
        ensures { AreForgotten self.old self.new at width }
    {
        self.forget_word(at - at % 4);
        if width > 4 {
            self.forget_word(at - at % 4 + 4);
        }
        if at % 4 != 0 {
            let last = at + u64::from(width) - 1;
            self.forget_word(last - last % 4);
        }
    }

    #[inline(always)]
    fn forget_word(&mut self, word: u64)
        ensures { IsForgotten self.old self.new word }
    {
        let place = place_of(self.mask, word);
        if self.places[place].at == word {
            self.places[place] = nothing();
        }
    }
}

/// So many places, which keep nothing.
fn empty(alloc: Global, count: usize) -> Result<Vec<Place>, AllocError>
    requires { 0 < count }
    ensures long { IfOk result (λ places. length places.items ≡ count) }
    ensures nothing { IfOk result (λ places. (at : ℕ) → at % 4 ≡ 0 → kept_at places.items at ≡ None) }
{
    let mut places = Vec::with_capacity(alloc, count)?;
    places.resize(count, nothing())?;
    Ok(places)
}

/// A place where no instruction is kept.
fn nothing() -> Place
    ensures { result.at ≡ 1 }
{
    Place {
        at: NOWHERE,
        insn: FlatInsn {
            kind: Kind::Ecall,
            rd: 0,
            rs1: 0,
            rs2: 0,
            imm: 0,
        },
    }
}

/// The number of the place for an address.
#[inline(always)]
fn place_of(mask: u64, at: u64) -> usize
    ensures exact { result ≡ place_of (mask + 1) at }
    ensures within { result ≤ mask }
{
    (at / 4 & mask) as usize
}
