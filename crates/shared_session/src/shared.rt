//! How a shared session begins and ends.
ghost use Rattle.std.specs.Prelude.{◌≡◌, ◌≤◌, ◌<◌, [], IfOk};
ghost use Rattle.session_model.specs.State.{plain_history};
ghost use Rattle.execution_session.specs.declared.session.TheConstants.{JOURNAL_LIMIT};
ghost use Rattle.history_laws.specs.Notes.{AreNoted};
ghost use Rattle.shared_session.specs.Home.{IsLawful, IsPosted, seat_of};
ghost use Rattle.shared_session.specs.declared.posts.TheConstants.{POSTS};
ghost use Rattle.turn_lock.specs.Handles.{view, turn_of, turn_id, post_count, IsReady};
ghost use Rattle.turn_lock.specs.Told.{Shows};
ghost use Rattle.turn_lock.specs.Views.{first_view};

use crate::home::Home;
use crate::posts::POSTS;
use execution_session::Session;
use orc_io::Notify;
use session_model::{Entry, UnitKind};
use std::alloc::{AllocError, Global};
use std::sync::Wait;
use turn_lock::{Seat, Turn};

/// A session that seats share.
pub type Shared<U, N, const JMAX: usize> = Turn<Home<U, N, JMAX>>;

/// The right to make calls on a shared session, as one of its seats.
pub type Pass<U, N, const JMAX: usize> = Seat<Home<U, N, JMAX>, Entry<U>>;

/// A session with no entry yet, for so many seats, and its first pass, which has number 0 and spares
/// the others. It has no posts.
pub fn open<U: UnitKind, N: Notify, const JMAX: usize>(
    alloc: Global,
    seats: u32,
) -> Result<(Shared<U, N, JMAX>, Pass<U, N, JMAX>), AllocError>
    requires limit { JMAX ≤ JOURNAL_LIMIT }
    requires seats { 0 < seats }
    ensures opened { IfOk result (λ r. (turn_of r.1 ≡ turn_id r.0) × (view r.1 ≡ first_view (seats, 0))) }
    ensures posts { IfOk result (λ r. post_count r.0 ≡ 0) }
{
    open_with(alloc, seats, 0)
}

/// The same with a post for each instance that it may have, all of them empty.
pub fn open_posts<U: UnitKind, N: Notify, const JMAX: usize>(
    alloc: Global,
    seats: u32,
) -> Result<(Shared<U, N, JMAX>, Pass<U, N, JMAX>), AllocError>
    requires limit { JMAX ≤ JOURNAL_LIMIT }
    requires seats { 0 < seats }
    ensures opened { IfOk result (λ r. (turn_of r.1 ≡ turn_id r.0) × (view r.1 ≡ first_view (seats, POSTS))) }
    ensures posts { IfOk result (λ r. post_count r.0 ≡ POSTS) }
{
    open_with(alloc, seats, POSTS)
}

/// A session with no entry yet, for so many seats and with so many posts, and its first pass.
fn open_with<U: UnitKind, N: Notify, const JMAX: usize>(
    alloc: Global,
    seats: u32,
    posts: u64,
) -> Result<(Shared<U, N, JMAX>, Pass<U, N, JMAX>), AllocError>
    requires limit { JMAX ≤ JOURNAL_LIMIT }
    requires seats { 0 < seats }
    ensures opened { IfOk result (λ r. (turn_of r.1 ≡ turn_id r.0) × (view r.1 ≡ first_view (seats, posts))) }
    ensures posts { IfOk result (λ r. post_count r.0 ≡ posts) }
{
    let session = open_home(alloc)?;
    match Turn::open_posts(alloc, Home { session }, seats, posts) {
        Ok(opened) => Ok(opened),
        Err(refused) => {
            let Home { session } = refused.value;
            Box::into_inner(session).end();
            Err(AllocError)
        }
    }
}

/// Waits for the turn, ends it, and gives the session, which knows what the pass knows of the history.
pub fn close<U: UnitKind, N: Notify, const JMAX: usize, R: Wait>(
    rt: &R,
    shared: Shared<U, N, JMAX>,
    pass: Pass<U, N, JMAX>,
) -> Session<U, N, JMAX>
    requires { IsReady (turn_id shared) pass }
    ensures shows { Shows seat_of (IsLawful U.meaning JMAX) (IsPosted U.meaning) result.journal (view pass) }
    ensures noted { AreNoted (plain_history U.meaning result.journal) result.armed }
{
    let Home { session } = shared.close(rt, pass);
    Box::into_inner(session)
}

/// A session with no entry yet, on the heap.
fn open_home<U: UnitKind, N: Notify, const JMAX: usize>(
    alloc: Global,
) -> Result<Box<Session<U, N, JMAX>>, AllocError>
    requires { JMAX ≤ JOURNAL_LIMIT }
    ensures { IfOk result (λ home. (home.value.journal ≡ []) × (home.value.armed ≡ [])) }
{
    match Box::new(alloc, Session::open(alloc)?) {
        Ok(home) => Ok(home),
        Err(refused) => {
            refused.value.end();
            Err(AllocError)
        }
    }
}
