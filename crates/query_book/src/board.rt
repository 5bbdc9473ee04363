ghost use Rattle.std.specs.Prelude.{◌≡◌, ℕ, ◌+◌, ◌^◌, ◌<◌, ◌≤◌, ◌++◌, ◌∷◌, [], List, true, false, filter_map, map, length, OnOk, if◌then◌else◌};
ghost use Rattle.orc_ids.specs.declared.lookup.Level.TheVariants.{Resolved, Ready};
ghost use Rattle.session_model.specs.declared.rows.Query.{Query};
ghost use Rattle.query_book.specs.Counts.{count, list_at};
ghost use Rattle.query_book.specs.Lists.{HasLists};
ghost use Rattle.query_book.specs.Marks.{left_at};
ghost use Rattle.query_book.specs.Stands.{at_level, is_lost, is_met, missing_of, missing};
ghost use Rattle.query_book.specs.Board.{waiting, listed, Arriving, Losing, Watches, IsHearing, IsHeard, AreHeard, HasRoom, IsSame, IsWaiting, IsWatched};

use crate::lists::Lists;
use crate::marks::Marks;
use crate::standing::{at_level, is_lost, lost_match};
use orc_ids::{InstId, Level};
use session_model::{Query, Standing};
use std::alloc::{AllocError, Global};

/// Which queries each instance has to do with, and what is known of each query.
#[derive(Drop)]
pub(crate) struct Board {
    /// The queries that wait for an instance to be resolved.
    pub(crate) resolved: Lists,
    /// The queries that wait for an instance to be ready.
    pub(crate) ready: Lists,
    /// The queries that are to hear of an instance that is lost.
    pub(crate) all: Lists,
    pub(crate) marks: Marks,
}

/// Each query in the list of an instance has one match less to wait for.
fn arrive(lists: &mut Lists, marks: &mut Marks, at: usize)
    requires { (k : ℕ) → count k (list_at lists.old.lists at) ≤ left_at marks.old.marks k }
    ensures arriving { Arriving at lists.old.lists lists.new.lists marks.old marks.new }
    ensures gone { list_at lists.new.lists at ≡ [] }
{
    while let Some(query) = lists.pop(at) {
        marks.one_less(query);
    }
}

/// Each query in the list of an instance is met.
fn lose(all: &mut Lists, marks: &mut Marks, at: usize)
    requires { (k : ℕ) → 0 < count k (list_at all.old.lists at) → k < length marks.old.marks }
    ensures losing { Losing at all.old.lists all.new.lists marks.old marks.new }
    ensures gone { list_at all.new.lists at ≡ [] }
{
    while let Some(query) = all.pop(at) {
        marks.mark(query);
    }
}

/// Adds a query to the list of an instance, if there is one.
fn list_one(lists: &mut Lists, query: u32, found: Option<InstId>)
    requires there { HasLists lists.old.lists (found ∷ []) }
    requires room { 0 < lists.old.spare }
    ensures listed { lists.new.lists ≡ listed query (found ∷ []) lists.old.lists }
    ensures spare { lists.old.spare ≤ lists.new.spare + 1 }
{
    if let Some(i) = found {
        lists.add(i.0 as usize, query);
    }
}

/// Adds a query to the lists of all that it matched.
fn list_all(lists: &mut Lists, query: u32, matched: &[Option<InstId>])
    requires there { HasLists lists.old.lists matched.now }
    requires room { length matched.now ≤ lists.old.spare }
    ensures { lists.new.lists ≡ listed query matched.now lists.old.lists }
{
    for found in matched {
        list_one(lists, query, *found);
    }
}

/// What is matched, if it isn't at the level.
fn missing_of<T: Standing>(standing: &T, level: Level, found: Option<InstId>) -> Option<InstId>
    ensures { result ≡ missing_of (T.stand standing.now) level found }
{
    match found {
        Some(i) => {
            if at_level(standing, level, i) {
                None
            } else {
                Some(i)
            }
        }
        None => None,
    }
}

/// Adds a query to the lists of all that it matched and that isn't at the level, and tells how many
/// these are.
fn list_missing<T: Standing>(
    lists: &mut Lists,
    query: u32,
    level: Level,
    matched: &[Option<InstId>],
    standing: &T,
) -> usize
    requires there { HasLists lists.old.lists matched.now }
    requires room { length matched.now ≤ lists.old.spare }
    ensures lists { lists.new.lists ≡ listed query (map (missing_of (T.stand standing.now) level) matched.now) lists.old.lists }
    ensures left { result ≡ length (filter_map (missing_of (T.stand standing.now) level) matched.now) }
{
    let mut left: usize = 0;
    for found in matched {
        let missing = missing_of(standing, level, *found);
        list_one(lists, query, missing);
        left += missing.is_some() as usize;
    }
    left
}

/// Whether a query is met that waits for so many of its matches.
fn is_met<T: Standing>(left: usize, q: &Query, standing: &T) -> bool
    requires { left ≡ length (missing (T.stand standing.now) q.now) }
    ensures { result ≡ is_met (T.stand standing.now) q.now }
{
    if left == 0 {
        return true;
    }
    lost_match(standing, q.matched.as_slice()).is_some()
}

impl Board {
    /// No queries; takes no memory.
    pub(crate) fn new(alloc: Global) -> Board
        ensures watches { Watches [] result }
        ensures met { result.marks.met ≡ [] }
    {
        Board {
            resolved: Lists::new(alloc),
            ready: Lists::new(alloc),
            all: Lists::new(alloc),
            marks: Marks::new(alloc),
        }
    }

    /// Where an instance is resolved, the queries that waited for that have one match less.
    fn come<T: Standing>(&mut self, i: InstId, standing: &T)
        requires { (qs : List Query) × Watches qs self.old }
        ensures hearing { (qs : List Query) → Watches qs self.old → IsHearing (T.stand standing.now) qs self.old self.new }
        ensures gone { at_level (T.stand standing.now) Resolved i.0 ≡ true → list_at self.new.resolved.lists i.0 ≡ [] }
    {
        if at_level(standing, Level::Resolved, i) {
            arrive(&mut self.resolved, &mut self.marks, i.0 as usize);
        }
    }

    /// Where an instance is ready, the queries that waited for that have one match less.
    fn finish<T: Standing>(&mut self, i: InstId, standing: &T)
        requires { (qs : List Query) × Watches qs self.old }
        ensures hearing { (qs : List Query) → Watches qs self.old → IsHearing (T.stand standing.now) qs self.old self.new }
        ensures gone { at_level (T.stand standing.now) Ready i.0 ≡ true → list_at self.new.ready.lists i.0 ≡ [] }
    {
        if at_level(standing, Level::Ready, i) {
            arrive(&mut self.ready, &mut self.marks, i.0 as usize);
        }
    }

    /// Where an instance is lost, the queries that matched it are met.
    fn drop_lost<T: Standing>(&mut self, i: InstId, standing: &T)
        requires { (qs : List Query) × Watches qs self.old }
        ensures hearing { (qs : List Query) → Watches qs self.old → IsHearing (T.stand standing.now) qs self.old self.new }
        ensures gone { is_lost (T.stand standing.now) i.0 ≡ true → list_at self.new.all.lists i.0 ≡ [] }
    {
        if is_lost(standing, i) {
            lose(&mut self.all, &mut self.marks, i.0 as usize);
        }
    }

    /// Tells the queries of an instance how it stands now.
    fn tell<T: Standing>(&mut self, i: InstId, standing: &T)
        requires { (qs : List Query) × Watches qs self.old }
        ensures hearing { (qs : List Query) → Watches qs self.old → IsHearing (T.stand standing.now) qs self.old self.new }
        ensures heard { (qs : List Query) → Watches qs self.old → IsHeard (T.stand standing.now) i.0 self.new }
    {
        self.come(i, standing);
        self.finish(i, standing);
        self.drop_lost(i, standing);
    }

    /// Tells the queries of some instances how these stand now.
    pub(crate) fn tell_all<T: Standing>(&mut self, changed: &[InstId], standing: &T)
        requires { (qs : List Query) × Watches qs self.old }
        ensures { (qs : List Query) → Watches qs self.old → AreHeard (T.stand standing.now) qs changed.now self.old self.new }
    {
        for i in changed {
            self.tell(*i, standing);
        }
    }

    /// Makes the room for a query that matched these.
    pub(crate) fn room(&mut self, matched: &[Option<InstId>]) -> Result<(), AllocError>
        ensures room { OnOk result (HasRoom matched.now self.new) }
        ensures same { IsSame self.old self.new }
    {
        self.resolved.room(matched)?;
        self.ready.room(matched)?;
        self.all.room(matched)?;
        self.marks.room()
    }

    /// Adds the next query to the lists of all that it waits for, and tells how many these are.
    fn wait<T: Standing>(&mut self, query: u32, q: &Query, standing: &T) -> usize
        requires { HasRoom q.now.matched self.old }
        ensures left { result ≡ length (missing (T.stand standing.now) q.now) }
        ensures waits { IsWaiting (T.stand standing.now) query q.now self.old self.new }
    {
        match q.level {
            Level::Resolved => list_missing(
                &mut self.resolved,
                query,
                q.level,
                q.matched.as_slice(),
                standing,
            ),
            Level::Ready => list_missing(
                &mut self.ready,
                query,
                q.level,
                q.matched.as_slice(),
                standing,
            ),
        }
    }

    /// Adds the next query, whose room was made; takes no memory.
    pub(crate) fn watch<T: Standing>(&mut self, query: u32, q: &Query, standing: &T)
        requires number { query ≡ length self.old.marks.marks }
        requires room { HasRoom q.now.matched self.old }
        ensures { IsWatched (T.stand standing.now) query q.now self.old self.new }
    {
        let left = self.wait(query, q, standing);
        list_all(&mut self.all, query, q.matched.as_slice());
        self.marks.add(left, is_met(left, q, standing));
    }
}
