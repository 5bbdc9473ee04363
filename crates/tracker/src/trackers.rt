ghost use Rattle.std.specs.Prelude.{◌≡◌, ◌<◌, length, option_map, Some, true, false, IsSome, IfOk, OnOk, IfErr, OnErr, IfSome, IfNone};
ghost use Rattle.orc_ids.specs.declared.limits.TheConstants.{TRACKER_LIMIT};
ghost use Rattle.tracker.specs.Owners.{nobody, owned_by, with_tracker, with_room, with_unit, with_generator, merged, without, owns_generator, IsRefused};

use crate::chains::{add_at, add_generator_at, can_merge, has_place, merge_in, take_at};
use crate::holders::Holders;
use crate::owned::Owned;
use orc_ids::{DylibId, GenId, TRACKER_LIMIT, TrackId, UnitId};
use std::alloc::{AllocError, Global};
use std::collections::LinkedList;
use std::marker::Model;

/// Why no tracker was made.
#[derive(Drop)]
pub enum TrackError {
    TooMany,
    NoMemory,
}

/// What each tracker owns: its dylib, its units and its generators.
#[derive(Drop)]
pub struct Trackers {
    alloc: Global,
    tracks: Vec<Option<Owned>>,
    spare: LinkedList<UnitId>,
    room: Option<TrackId>,
    holders: Holders,
}

impl Model for Trackers {
    ghost use Rattle.tracker.specs.Owners.{Owners};

    ghost Value = { Owners };

    ghost use Rattle.tracker.specs.Places.{HasPlace};
    ghost use Rattle.tracker.specs.Holders.{AreHeld};

    ghost view = { λ t. record { tracks = t.tracks.items; room = t.room } };

    ghost invariant = { λ t. HasPlace t.tracks.items t.spare t.room × AreHeld t.tracks.items t.holders.nodes.items t.holders.roots.items t.holders.homes.items };
}

impl Trackers {
    /// No tracker; takes no memory.
    pub fn new(alloc: Global) -> Trackers
        ensures { result ≡ nobody }
    {
        Trackers {
            alloc,
            tracks: Vec::new(alloc),
            spare: LinkedList::new(alloc),
            room: None,
            holders: Holders::new(alloc),
        }
    }

    /// How many trackers were made.
    pub fn len(&self) -> usize
        ensures { result ≡ length self.now.tracks }
    {
        self.tracks.len()
    }

    /// Makes the next tracker, which owns nothing yet.
    pub fn make(&mut self, d: DylibId) -> Result<TrackId, TrackError>
        ensures number { IfOk result (λ t. t.0 ≡ length self.old.tracks) }
        ensures few { OnOk result (length self.old.tracks < TRACKER_LIMIT) }
        ensures ok { OnOk result (self.new ≡ with_tracker self.old d) }
        ensures refused { IfErr result (λ e. IsRefused self.old e) }
        ensures err { OnErr result (self.new ≡ self.old) }
    {
        let number = self.tracks.len();
        if number >= TRACKER_LIMIT {
            return Err(TrackError::TooMany);
        }
        if self.tracks.reserve(1).is_err() || self.holders.make(number as u32).is_err() {
            return Err(TrackError::NoMemory);
        }
        self.room = None;
        self.tracks.push_reserved(Some(Owned {
            dylib: d,
            units: LinkedList::new(self.alloc),
            generators: LinkedList::new(self.alloc),
        }));
        Ok(TrackId(number as u32))
    }

    /// The tracker's dylib, if the tracker is there: made, and neither merged into another one nor
    /// taken.
    pub fn dylib(&self, t: TrackId) -> Option<DylibId>
        ensures { result ≡ option_map (λ o. o.dylib) (owned_by self.now t) }
    {
        match self.tracks.get(t.0 as usize) {
            Some(Some(owned)) => Some(owned.dylib),
            _ => None,
        }
    }

    /// What the tracker owns, if it is there.
    pub fn owned(&self, t: TrackId) -> Option<&Owned>
        ensures { option_map (λ o. o.now) result ≡ owned_by self.now t }
    {
        match self.tracks.get(t.0 as usize) {
            Some(Some(owned)) => Some(owned),
            _ => None,
        }
    }

    /// The tracker that has the generator now, in constant time, whatever moves there were.
    pub fn owner(&self, g: GenId) -> Option<TrackId>
        ensures owner { (t : TrackId) → owns_generator self.now t g ≡ true → result ≡ Some t }
        ensures nobody { IfNone result ((t : TrackId) → owns_generator self.now t g ≡ false) }
    {
        let t = self.holders.find(g.0)?;
        Some(TrackId(t))
    }

    /// Makes the room in the tracker for one more unit, which lasts until the next change.
    pub fn room(&mut self, t: TrackId) -> Result<(), AllocError>
        requires { IsSome (owned_by self.old t) }
        ensures ok { OnOk result (self.new ≡ with_room self.old t) }
        ensures err { OnErr result (self.new ≡ self.old) }
    {
        if !has_place(self.tracks.as_slice(), t.0 as usize) {
            return Err(AllocError);
        }
        if self.spare.is_empty() {
            self.spare.push_back(UnitId(0))?;
        }
        self.room = Some(t);
        Ok(())
    }

    /// Adds a unit to the tracker, behind those that it has; takes no memory.
    pub fn add_unit(&mut self, t: TrackId, u: UnitId)
        requires there { IsSome (owned_by self.old t) }
        requires room { self.old.room ≡ Some t }
        ensures { self.new ≡ with_unit self.old t u }
    {
        add_at(&mut self.tracks, t.0 as usize, &mut self.spare, u);
        self.room = None;
    }

    /// Adds a generator that no tracker has to the tracker, behind those that it has.
    pub fn add_generator(&mut self, t: TrackId, g: GenId) -> Result<(), AllocError>
        requires there { IsSome (owned_by self.old t) }
        requires fresh { (other : TrackId) → owns_generator self.old other g ≡ false }
        ensures ok { OnOk result (self.new ≡ with_generator self.old t g) }
        ensures err { OnErr result (self.new ≡ self.old) }
    {
        let root = self.holders.room(g.0, t.0)?;
        add_generator_at(&mut self.tracks, t.0 as usize, g)?;
        self.holders.settle(g.0, root);
        self.room = None;
        Ok(())
    }

    /// Makes all that `from` owns belong to `to`, in constant time; into itself nothing changes.
    pub fn merge(&mut self, from: TrackId, to: TrackId) -> Result<(), AllocError>
        requires from { IsSome (owned_by self.old from) }
        requires to { IsSome (owned_by self.old to) }
        ensures ok { OnOk result (IfSome (owned_by self.old from) (λ more. self.new ≡ merged self.old from more to)) }
        ensures err { OnErr result (self.new ≡ self.old) }
    {
        if from.0 == to.0 {
            return Ok(());
        }
        if !can_merge(self.tracks.as_slice(), from.0 as usize, to.0 as usize) {
            return Err(AllocError);
        }
        self.holders.join(from.0, to.0);
        merge_in(&mut self.tracks, from.0 as usize, to.0 as usize);
        self.room = None;
        Ok(())
    }

    /// Takes the tracker away, and gives what it owned; takes no memory.
    pub fn take(&mut self, t: TrackId) -> Owned
        requires { IsSome (owned_by self.old t) }
        ensures owned { owned_by self.old t ≡ Some result }
        ensures gone { self.new ≡ without self.old t }
    {
        self.room = None;
        take_at(&mut self.tracks, t.0 as usize)
    }
}
