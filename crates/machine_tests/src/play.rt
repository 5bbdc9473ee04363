//! Calls of code memory and what is seen of it, as rows of tables.
ghost use Rattle.std.specs.Prelude.{◌≡◌, ◌<◌, true, None, IfSome, IsSome, IsSomeAnd, length};
ghost use Rattle.std.specs.Int.{IsPowerOfTwo};
ghost use Rattle.code_memory.specs.Places.{placement_of};
ghost use Rattle.machine_tests.specs.Needs.{Agree};

use code_memory::{Image, Space, SpaceError};
use orc_ids::{Bytes, Shape, UnitId};
use std::alloc::Global;

/// A range: its base, and its bytes.
pub type Range<'a> = (u64, &'a [u8]);

/// A call, or what is seen by then. Units have numbers below four.
#[derive(Clone, Copy)]
pub enum Step<'a> {
    /// The unit gets a range of this shape at this base.
    Place(u32, Shape, u64),
    /// The unit gets no range of this shape, since there is no room for so many bytes.
    NoRoom(u32, Shape, u64),
    /// The unit's range gets these bytes.
    Deposit(u32, &'a [u8]),
    /// The unit's range goes.
    Free(u32),
    /// An image that is asked for has these ranges.
    Shows(&'a [Range<'a>]),
    /// An image is asked for and held.
    Hold,
    /// The image that was held as this one, from 0 on, has these ranges.
    Held(usize, &'a [Range<'a>]),
}

/// Code memory, and of each unit that has a range of how many bytes it is.
#[derive(Drop)]
struct Memory {
    alloc: Global,
    space: Space,
    needs: [Option<u64>; 4],
    held: Vec<Image>,
    ghost agree: { Agree space needs },
}

#[tactic(auto, using(crate::proofs::Aligns::byte, crate::proofs::Aligns::sixteen, crate::proofs::Aligns::page))]
/// Whether it is an alignment that the tables have.
fn is_align(align: u64) -> bool
    ensures { result ≡ true → IsPowerOfTwo align }
{
    match align {
        1 => true,
        16 => true,
        4_096 => true,
        _ => false,
    }
}

/// Whether these are the ranges of an image.
fn has(image: &Image, ranges: &[Range<'_>]) -> bool {
    if image.count() as usize != ranges.len() {
        return false;
    }
    for k in 0..image.count() {
        let (base, bytes) = ranges[k as usize];
        if image.base(k) != base || image.bytes(k) != bytes {
            return false;
        }
    }
    true
}

impl Memory {
    fn new(alloc: Global) -> Memory {
        Memory {
            alloc,
            space: Space::new(alloc),
            needs: [None; 4],
            held: Vec::new(alloc),
        }
    }

    #[tactic(auto, using(crate::proofs::Needs::absent))]
    /// Whether it is a unit without a range.
    fn is_absent(&self, unit: u32) -> bool
        ensures within { result ≡ true → unit < length self.now.needs }
        ensures absent { result ≡ true → placement_of self.now.space (record { 0 = unit }) ≡ None }
    {
        matches!(self.needs.get(unit as usize), Some(None))
    }

    #[tactic(auto, using(crate::proofs::Needs::there, crate::proofs::Needs::found))]
    /// Of how many bytes the unit's range is, if it has one.
    fn need(&self, unit: u32) -> Option<u64>
        ensures within { IfSome result (λ n. unit < length self.now.needs) }
        ensures there { IfSome result (λ n. IsSomeAnd (placement_of self.now.space (record { 0 = unit })) (λ p. n ≡ p.shape.need)) }
        ensures some { IfSome result (λ _. IsSome (placement_of self.now.space (record { 0 = unit }))) }
    {
        match self.needs.get(unit as usize) {
            Some(need) => *need,
            None => None,
        }
    }

    #[tactic(auto, using(crate::proofs::Needs::placed))]
    /// What placing a unit answers; where the unit or the shape is none that may be placed, as if memory
    /// had run out.
    fn place(&mut self, unit: u32, shape: Shape) -> Result<u64, SpaceError> {
        if !self.is_absent(unit) || !is_align(shape.align) || shape.need == 0 {
            return Err(SpaceError::NoMemory);
        }
        let base = self.space.place(UnitId(unit), shape)?;
        self.needs[unit as usize] = Some(shape.need);
        Ok(base)
    }

    #[tactic(auto, using(crate::proofs::Needs::deposited))]
    fn deposit(&mut self, unit: u32, bytes: Bytes) -> bool {
        match self.need(unit) {
            Some(need) if need == bytes.len() as u64 => {
                self.space.deposit(UnitId(unit), bytes);
                true
            }
            _ => false,
        }
    }

    fn deposit_copy(&mut self, unit: u32, bytes: &[u8]) -> bool {
        match Bytes::copy_of(self.alloc, bytes) {
            Ok(copy) => self.deposit(unit, copy),
            Err(_) => false,
        }
    }

    #[tactic(auto, using(crate::proofs::Needs::freed))]
    fn free(&mut self, unit: u32) -> bool {
        match self.need(unit) {
            Some(_) => {
                self.space.free(UnitId(unit));
                self.needs[unit as usize] = None;
                true
            }
            None => false,
        }
    }

    fn shows(&mut self, ranges: &[Range<'_>]) -> bool {
        match self.space.image() {
            Ok(image) => has(&image, ranges),
            Err(_) => false,
        }
    }

    fn hold(&mut self) -> bool {
        match self.space.image() {
            Ok(image) => self.held.push(image).is_ok(),
            Err(_) => false,
        }
    }

    fn held(&self, k: usize, ranges: &[Range<'_>]) -> bool {
        match self.held.get(k) {
            Some(image) => has(image, ranges),
            None => false,
        }
    }

    /// Whether the call is answered so, or that is seen.
    fn answers(&mut self, step: Step<'_>) -> bool {
        match step {
            Step::Place(unit, shape, base) => is_base(self.place(unit, shape), base),
            Step::NoRoom(unit, shape, need) => has_no_room(self.place(unit, shape), need),
            Step::Deposit(unit, bytes) => self.deposit_copy(unit, bytes),
            Step::Free(unit) => self.free(unit),
            Step::Shows(ranges) => self.shows(ranges),
            Step::Hold => self.hold(),
            Step::Held(k, ranges) => self.held(k, ranges),
        }
    }
}

fn is_base(answer: Result<u64, SpaceError>, expected: u64) -> bool {
    match answer {
        Ok(base) => base == expected,
        Err(_) => false,
    }
}

fn has_no_room(answer: Result<u64, SpaceError>, expected: u64) -> bool {
    match answer {
        Err(SpaceError::NoRoom(need)) => need == expected,
        _ => false,
    }
}

/// The number of the first step that code memory doesn't answer so, from 0 on.
pub fn play(alloc: Global, steps: &[Step<'_>]) -> Option<usize> {
    let mut memory = Memory::new(alloc);
    for (at, step) in steps.iter().enumerate() {
        if !memory.answers(*step) {
            return Some(at);
        }
    }
    None
}
