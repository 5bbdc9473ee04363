ghost use Rattle.std.specs.Prelude.{◌≡◌, ◌+◌, ◌<◌, [], length, if◌then◌else◌, Some, None, IsSome, IfOk, IfErr, OnErr, IsSomeAnd};
ghost use Rattle.std.specs.Int.{IsPowerOfTwo};
ghost use Rattle.code_memory.specs.Places.{placement_of, IsLowestFree, IsRefused, with_range, with_bytes, without, deposits, AreLaidOut};

use crate::gaps::{Gap, find_fit, make_room};
use crate::image::Image;
use crate::last_image::LastImage;
use crate::placement::Placement;
use crate::ranges::{fill, give_back, record, take_at, take_out};
use crate::sharing::share_from;
use orc_ids::{Bytes, CODE_START, Shape, UnitId};
use std::alloc::{AllocError, Global};
use std::collections::{BTreeMap, HashMap, VecDeque};
use std::marker::Model;

/// Why a unit got no range: no base is free for that many bytes, or memory ran out.
#[derive(Drop)]
pub enum SpaceError {
    NoRoom(u64),
    NoMemory,
}

/// Code memory: which unit has which range, and the bytes of the deposited ones.
#[derive(Drop)]
pub struct Space {
    alloc: Global,
    placed: BTreeMap<u64, Placement>,
    bases: HashMap<u32, u64>,
    gaps: VecDeque<Gap>,
    last: u64,
    shown: LastImage,
}

impl Model for Space {
    ghost use Rattle.std.specs.Prelude.{List};
    ghost use Rattle.code_memory.specs.declared.placement.Placement.{Placement};

    ghost Value = { List Placement };

    ghost use Rattle.std.specs.VecDeque.{deque_capacity};
    ghost use Rattle.std.specs.BTreeMap.{values};
    ghost use Rattle.code_memory.specs.Kept.{IsSpace};

    ghost view = { λ s. values s.placed };

    ghost invariant = { λ s. IsSpace s.placed.entries s.bases s.gaps.items (deque_capacity s.gaps) s.last s.shown };
}

impl Space {
    /// Code memory without a range; takes no memory.
    pub fn new(alloc: Global) -> Space
        ensures { result ≡ [] }
    {
        Space {
            alloc,
            placed: BTreeMap::new(alloc),
            bases: HashMap::new(alloc),
            gaps: VecDeque::new(alloc),
            last: CODE_START,
            shown: LastImage::new(),
        }
    }

    /// Gives the unit the lowest free range of that shape, and makes the room for its bytes' deposit
    /// and for its end.
    pub fn place(&mut self, u: UnitId, shape: Shape) -> Result<u64, SpaceError>
        requires absent { placement_of self.old u ≡ None }
        requires need { 0 < shape.need }
        requires align { IsPowerOfTwo shape.align }
        ensures lowest { IfOk result (λ base. IsLowestFree self.old shape base) }
        ensures ok { IfOk result (λ base. self.new ≡ with_range self.old u shape base) }
        ensures refused { IfErr result (λ e. IsRefused self.old shape e) }
        ensures err { OnErr result (self.new ≡ self.old) }
        ensures laid_out { AreLaidOut self.new }
    {
        let Some((at, base)) = find_fit(&self.gaps, self.last, shape) else {
            return Err(SpaceError::NoRoom(shape.need));
        };
        if make_room(&mut self.gaps, self.placed.len()).is_err() {
            return Err(SpaceError::NoMemory);
        }
        let placement = Placement {
            unit: u,
            base,
            shape,
            bytes: None,
        };
        if record(&mut self.placed, &mut self.bases, placement).is_err() {
            return Err(SpaceError::NoMemory);
        }
        self.last = take_out(&mut self.gaps, self.last, at, base, base + shape.need);
        Ok(base)
    }

    /// Keeps the bytes of the unit's range, which is mapped from then on; takes no memory.
    pub fn deposit(&mut self, u: UnitId, bytes: Bytes)
        requires { IsSomeAnd (placement_of self.old u) (λ p. length bytes ≡ p.shape.need) }
        ensures { self.new ≡ with_bytes self.old u bytes }
    {
        if let Some(base) = self.bases.get(&u.0) {
            fill(&mut self.placed, *base, bytes);
            self.shown.touch(*base);
        }
    }

    /// Takes the unit's range away, which is free from then on; takes no memory.
    pub fn free(&mut self, u: UnitId)
        requires { IsSome (placement_of self.old u) }
        ensures { self.new ≡ without self.old u }
    {
        if let Some(base) = self.bases.remove(&u.0) {
            self.shown.leave(&self.placed, base);
            let need = take_at(&mut self.placed, base);
            self.last = give_back(&mut self.gaps, self.last, base, base + need);
        }
    }

    /// The deposited ranges, at the cost of those from the lowest on that changed since the last
    /// image. Only where that one is still held by somebody, and not all is as it was, is the whole
    /// list made anew. The bytes are shared, and none is copied.
    pub fn image(&mut self) -> Result<Image, AllocError>
        ensures image { IfOk result (λ image. image ≡ deposits self.old) }
        ensures same { self.new ≡ self.old }
        ensures laid_out { AreLaidOut self.old }
    {
        share_from(self.alloc, &mut self.placed, self.shown.unshared_from())?;
        self.shown.show(self.alloc, &self.placed)
    }
}
