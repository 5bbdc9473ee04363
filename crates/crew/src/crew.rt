//! Duties that are given seats, done, and handed back.
ghost use Rattle.std.specs.Prelude.{◌≡◌, ◌+◌, ◌≤◌, List, [], All, length, vec_capacity, IfOk};
ghost use Rattle.turn_lock.specs.Handles.{view, turn_id, post_count, IsReady};
ghost use Rattle.crew.specs.Crew.{AllServed, HasServed, HaveWorked, IsAble, MayBegin};

use crate::duty::Duty;
use crate::gathering::gather;
use crate::seating::{Member, new_seats, seat_duties};
use std::alloc::{AllocError, Global};
use std::marker::Model;
use std::sync::Wait;
use std::thread;
use std::thread::Threads;
use turn_lock::{Counted, Seat, Turn};

/// Duties, with the room that they take while seats do them. Contracts see the list of duties.
#[derive(Drop)]
pub struct Crew<S, D> {
    duties: Vec<D>,
    seats: Vec<S>,
    members: Vec<Member<S, D>>,
    done: Vec<D>,
    ghost no_seats: { (seats.items ≡ []) × (length duties.items ≤ vec_capacity seats) },
    ghost no_members: { (members.items ≡ []) × (length duties.items ≤ vec_capacity members) },
    ghost none_done: { (done.items ≡ []) × (length duties.items ≤ vec_capacity done) },
}

impl<S, D> Model for Crew<S, D> {
    ghost Value = { List D };

    ghost view = { λ crew. crew.duties.items };
}

impl<S: Drop, D: Drop> Crew<S, D> {
    /// Duties that no seat has yet; takes the memory that `work` needs.
    pub fn new(alloc: Global, duties: Vec<D>) -> Result<Crew<S, D>, AllocError>
        ensures { IfOk result (λ crew. crew ≡ duties.items) }
    {
        let count = duties.len();
        let seats = Vec::with_capacity(alloc, count)?;
        let members = Vec::with_capacity(alloc, count)?;
        let done = Vec::with_capacity(alloc, count)?;
        Ok(Crew {
            duties,
            seats,
            members,
            done,
        })
    }

    /// The duties, which nobody has done.
    pub fn into_duties(self) -> Vec<D>
        ensures { result.items ≡ self }
    {
        self.duties
    }
}

impl<T: Counted + Send, D: Duty<T> + Drop + Send> Crew<Seat<T, T::Entry>, D> {
    /// Gives each duty a new seat, lets all of them work at once, and takes their seats in. The last duty has
    /// the lowest number, and works first where there are no threads. Takes no memory but the threads'.
    pub fn work<R: Threads + Wait + Sync>(
        self,
        rt: &R,
        turn: &Turn<T>,
        first: &mut Seat<T, T::Entry>,
    ) -> Vec<D>
        requires ready { IsReady (turn_id turn.now) first.old }
        requires spare { (view first.old).spare_from + length self ≤ (view first.old).spare_to }
        requires may { MayBegin (D.may (post_count turn.now)) (view first.old) self }
        ensures ready { IsReady (turn_id turn.now) first.new }
        ensures worked { HaveWorked T.seat_of D.does (view first.old) (view first.new) self result.items }
    {
        let Crew {
            duties,
            seats,
            members,
            done,
        } = self;
        let seats = new_seats(turn, first, seats, duties.len());
        let mut members = seat_duties(seats, duties, members);
        serve_all(rt, turn, members.as_mut_slice());
        gather(turn, first, members, done)
    }
}

/// Sets the members to work, each on a thread of its own where there are threads; where there are none the
/// last one works first.
fn serve_all<T: Counted + Send, D: Duty<T> + Drop + Send, R: Threads + Wait + Sync>(
    rt: &R,
    turn: &Turn<T>,
    members: &mut [Member<Seat<T, T::Entry>, D>],
)
    requires able { All (IsAble (D.may (post_count turn.now)) (turn_id turn.now)) members.old }
    ensures served { AllServed D.does (turn_id turn.now) members.old members.new }
{
    let threads = members.len().max(1);
    thread::for_each_mut(
        rt,
        members,
        threads,
        &|_place: usize, member: &mut Member<Seat<T, T::Entry>, D>|
            requires { IsAble (D.may (post_count turn.now)) (turn_id turn.now) member.old }
            ensures { HasServed D.does (turn_id turn.entry.now) member.old member.new }
        { member.duty.serve(rt, turn, &mut member.seat) },
    );
}
