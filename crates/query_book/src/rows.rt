ghost use Rattle.std.specs.Prelude.{◌≡◌, ◌≢◌, ℕ, ◌+◌, ◌<◌, ◌≤◌, ◌++◌, None, Some, length, slice_get, OnOk, OnErr, IfOk, IfSome, option_and_then, option_to_list, option_map};
ghost use Rattle.std.specs.Vec.{vec_len, vec_capacity};
ghost use Rattle.std.specs.VecDeque.{deque_len, deque_capacity};
ghost use Rattle.query_book.specs.Counts.{count};
ghost use Rattle.query_book.specs.Stands.{ending};
ghost use Rattle.query_book.specs.Ends.{collected_of, told_end};
ghost use Rattle.query_book.specs.Rows.{nobody, with_query, ended_one, fired_one, ended_all, fired_all, without_due, without_armed, first_armed, without_first, unit_of, notices};
ghost use Rattle.query_book.specs.States.{CanEnd, NoneBefore, end_of};
ghost use Rattle.query_book.specs.declared.rows.State.TheVariants.{Ended};

use crate::ends::{Collected, QueryEnd, copy_end, told_end};
use crate::standing::ending_of;
use notifiers::{Armed, Fires};
use orc_ids::{End, InstId, Outcome, QueryId, UnitId};
use orc_io::Notify;
use session_model::{Query, Standing};
use std::alloc::{AllocError, Global};
use std::collections::VecDeque;
use std::marker::Model;
use std::mem::replace;

/// A query that is open, with the room for its addresses, or its end.
#[derive(Drop)]
pub(crate) enum State {
    Open(Vec<Option<(InstId, u64)>>),
    Ended(QueryEnd),
}

/// The queries by number, with their ends and notifiers; they must be spent.
pub(crate) struct Rows<N: Notify> {
    alloc: Global,
    queries: Vec<Query>,
    states: Vec<State>,
    armed: Vec<Option<Armed<N>>>,
    /// No query below this number has a notifier.
    unarmed: usize,
    due: VecDeque<UnitId>,
}

impl<N: Notify> Model for Rows<N> {
    ghost use Rattle.std.specs.Prelude.{map};
    ghost use Rattle.std.specs.VecDeque.{deque_len, deque_capacity};
    ghost use Rattle.query_book.specs.Rows.{Account};

    ghost Value = { Account N };

    ghost use Rattle.query_book.specs.States.{end_of, IsSound};

    ghost view = { λ r. record { queries = r.queries.items; ends = map end_of r.states.items; armed = r.armed.items; due = r.due.items } };

    ghost invariant = { λ r. IsSound r.queries.items r.states.items r.armed.items r.unarmed (deque_len r.due) (deque_capacity r.due) };
}

/// The room that was kept for the end of a query.
fn take_room(alloc: Global, state: &mut State, count: usize) -> Vec<Option<(InstId, u64)>>
    requires { CanEnd count state.old }
    ensures { count ≤ vec_capacity result }
{
    match replace(state, State::Open(Vec::new(alloc))) {
        State::Open(room) => room,
        State::Ended(_) => Vec::new(alloc),
    }
}

/// What is known of a query's end.
fn copy_state(alloc: Global, state: &State) -> Result<Collected, AllocError>
    ensures collected { IfOk result (λ c. c ≡ collected_of (Some (end_of state.now))) }
    ensures ended { OnErr result (end_of state.now ≢ None) }
{
    match state {
        State::Open(_) => Ok(Collected::Open),
        State::Ended(e) => copy_end(alloc, e.at, &e.end),
    }
}

/// An open query ends, in the room that was kept for its end.
fn end_state<T: Standing>(alloc: Global, state: &mut State, q: &Query, at: u64, standing: &T) -> End
    requires { CanEnd (length q.now.matched) state.old }
    ensures state { state.new ≡ Ended (record { at = at; end = ending (T.stand standing.now) q.now }) }
    ensures told { result ≡ told_end at (ending (T.stand standing.now) q.now) }
{
    let room = take_room(alloc, state, q.matched.len());
    let end = ending_of(standing, q, room);
    let told = told_end(at, &end);
    *state = State::Ended(QueryEnd { at, end });
    told
}

/// The unit of an ended query, if it has one, is to be handed out.
fn add_due(due: &mut VecDeque<UnitId>, q: &Query)
    requires { deque_len due.old < deque_capacity due.old }
    ensures due { due.new.items ≡ due.old.items ++ option_to_list (unit_of q.now) }
    ensures len { deque_len due.new ≤ deque_len due.old + 1 }
    ensures room { deque_capacity due.new ≡ deque_capacity due.old }
{
    if let Some(u) = q.unit {
        due.push_back_reserved(UnitId(u));
    }
}

/// The notifier of an ended query, if it has one, is to be told.
fn fire<N: Notify>(armed: &mut Option<Armed<N>>, outcome: Outcome, fires: &mut Fires<N>)
    ensures armed { armed.new ≡ None }
    ensures fires { fires.new ≡ fires.old ++ notices armed.old outcome }
{
    if let Some(armed) = armed.take() {
        fires.add(armed, outcome);
    }
}

/// Makes the room for one more query, and for the units of all of them.
fn make_room<N: Notify>(
    queries: &mut Vec<Query>,
    states: &mut Vec<State>,
    armed: &mut Vec<Option<Armed<N>>>,
    due: &mut VecDeque<UnitId>,
) -> Result<(), AllocError>
    ensures queries { queries.new.items ≡ queries.old.items }
    ensures states { states.new.items ≡ states.old.items }
    ensures armed { armed.new.items ≡ armed.old.items }
    ensures due { due.new.items ≡ due.old.items }
    ensures len { deque_len due.new ≡ deque_len due.old }
    ensures more { deque_capacity due.old ≤ deque_capacity due.new }
    ensures query_room { OnOk result (vec_len queries.new < vec_capacity queries.new) }
    ensures state_room { OnOk result (vec_len states.new < vec_capacity states.new) }
    ensures armed_room { OnOk result (vec_len armed.new < vec_capacity armed.new) }
    ensures due_room { OnOk result (deque_len due.new + vec_len states.new + 1 ≤ deque_capacity due.new) }
{
    queries.reserve(1)?;
    states.reserve(1)?;
    armed.reserve(1)?;
    due.reserve(states.len() + 1)
}

/// Takes out the first notifier, and moves the number below which there is none past it.
fn take_first<N: Notify>(armed: &mut Vec<Option<Armed<N>>>, unarmed: &mut usize) -> Option<Armed<N>>
    requires below { NoneBefore unarmed.old armed.old.items }
    requires within { unarmed.old ≤ length armed.old.items }
    ensures first { result ≡ first_armed armed.old.items }
    ensures rest { armed.new.items ≡ without_first armed.old.items }
    ensures below { NoneBefore unarmed.new armed.new.items }
    ensures within { unarmed.new ≤ length armed.new.items }
{
    for at in *unarmed..armed.len() {
        *unarmed = at + 1;
        match armed[at].take() {
            Some(first) => return Some(first),
            None => {}
        }
    }
    None
}

/// Gives up a notifier that was never told.
fn let_go<N: Notify>(armed: Option<Armed<N>>) {
    match armed {
        Some(armed) => {
            let _object = armed.back();
        }
        None => {}
    }
}

impl<N: Notify> Rows<N> {
    /// No queries; takes no memory.
    pub(crate) fn new(alloc: Global) -> Rows<N>
        ensures { result ≡ nobody }
    {
        Rows {
            alloc,
            queries: Vec::new(alloc),
            states: Vec::new(alloc),
            armed: Vec::new(alloc),
            unarmed: 0,
            due: VecDeque::new(alloc),
        }
    }

    /// Adds an open query, with its notifier if there is one.
    pub(crate) fn add(&mut self, q: Query, then: &mut Option<Armed<N>>) -> Result<(), AllocError>
        ensures ok { OnOk result (self.new ≡ with_query self.old q then.old) }
        ensures taken { OnOk result (then.new ≡ None) }
        ensures err { OnErr result (self.new ≡ self.old) }
        ensures kept { OnErr result (then.new ≡ then.old) }
    {
        let room = Vec::with_capacity(self.alloc, q.matched.len())?;
        make_room(
            &mut self.queries,
            &mut self.states,
            &mut self.armed,
            &mut self.due,
        )?;
        self.queries.push_reserved(q);
        self.states.push_reserved(State::Open(room));
        self.armed.push_reserved(then.take());
        Ok(())
    }

    /// How many queries there are.
    pub(crate) fn len(&self) -> usize
        ensures { result ≡ length self.now.queries }
    {
        self.queries.len()
    }

    /// A query.
    pub(crate) fn query(&self, at: usize) -> &Query
        requires { at < length self.now.queries }
        ensures { slice_get self.now.queries at ≡ Some result.now }
    {
        &self.queries[at]
    }

    /// A query, if it is there.
    pub(crate) fn get(&self, at: usize) -> Option<&Query>
        ensures { option_map (λ x. x.now) result ≡ slice_get self.now.queries at }
    {
        self.queries.get(at)
    }

    /// An open query ends: its unit is to be handed out, and its notifier is to be told.
    fn end_one<T: Standing>(&mut self, query: u32, at: u64, standing: &T, fires: &mut Fires<N>)
        requires { slice_get self.old.ends query ≡ Some None }
        ensures rows { self.new ≡ ended_one at (T.stand standing.now) query self.old }
        ensures fires { fires.new ≡ fires.old ++ fired_one at (T.stand standing.now) query self.old }
    {
        let k = query as usize;
        let q = &self.queries[k];
        let end = end_state(self.alloc, &mut self.states[k], q, at, standing);
        add_due(&mut self.due, q);
        let query = QueryId(query);
        fire(&mut self.armed[k], Outcome { query, end }, fires);
    }

    /// Some open queries end, in this order.
    pub(crate) fn end_all<T: Standing>(
        &mut self,
        met: &[u32],
        at: u64,
        standing: &T,
        fires: &mut Fires<N>,
    )
        requires once { (k : ℕ) → count k met.now ≤ 1 }
        requires unended { (k : ℕ) → 0 < count k met.now → slice_get self.old.ends k ≡ Some None }
        ensures rows { self.new ≡ ended_all at (T.stand standing.now) met.now self.old }
        ensures fires { fires.new ≡ fires.old ++ fired_all at (T.stand standing.now) met.now self.old }
    {
        for query in met {
            self.end_one(*query, at, standing, fires);
        }
    }

    /// Hands out the first unit that is due.
    pub(crate) fn next_unit(&mut self) -> Option<UnitId>
        ensures unit { result ≡ slice_get self.old.due 0 }
        ensures rest { self.new ≡ without_due self.old }
    {
        self.due.pop_front()
    }

    /// What is known of a query's end. Only that of one that has ended takes memory.
    pub(crate) fn collect(&self, q: QueryId) -> Result<Collected, AllocError>
        ensures collected { IfOk result (λ c. c ≡ collected_of (slice_get self.now.ends q.0)) }
        ensures ended { OnErr result (slice_get self.now.ends q.0 ≢ Some None) }
    {
        match self.states.get(q.0 as usize) {
            None => Ok(Collected::Unknown),
            Some(state) => copy_state(self.alloc, state),
        }
    }

    /// Hands out the first notifier.
    pub(crate) fn give_back(&mut self) -> Option<Armed<N>>
        ensures first { result ≡ first_armed self.old.armed }
        ensures rest { self.new ≡ without_armed self.old }
    {
        take_first(&mut self.armed, &mut self.unarmed)
    }

    /// Gives up the rows.
    pub(crate) fn end(self) {
        let Rows {
            alloc: _,
            queries: _queries,
            states: _states,
            armed,
            unarmed: _,
            due: _due,
        } = self;
        let mut armed = armed;
        while let Some(left) = armed.pop() {
            let_go(left);
        }
        armed.destroy_empty();
    }
}
