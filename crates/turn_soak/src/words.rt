//! Words that some threads read while one posts them.
ghost use Rattle.std.specs.Prelude.{◌≡◌, ◌+◌, ◌<◌, ◌≤◌, ◌^◌, true, length, All, IfOk};
ghost use Rattle.turn_lock.specs.Handles.{view, turn_id, post_count, IsReady};
ghost use Rattle.turn_soak.specs.Words.{IsAble};

use crate::roll::{Mark, Roll};
use crate::turns::take_turn;
use std::alloc::{AllocError, Global};
use std::sync::Wait;
use std::thread;
use std::thread::Threads;
use turn_lock::{Seat, Turn};

/// A seat at work on the first posts, so many of them: one that fills them, or one that counts how many of the words
/// that it reads are there.
#[derive(Drop)]
pub(crate) struct Watcher {
    pub(crate) seat: Seat<Roll, Mark>,
    pub(crate) fills: bool,
    pub(crate) posts: u32,
    pub(crate) found: u64,
}

/// Takes so many turns, and posts each.
fn post_turns<R: Wait>(rt: &R, turn: &Turn<Roll>, seat: &mut Seat<Roll, Mark>, posts: u32)
    requires ready { IsReady (turn_id turn.now) seat.old }
    requires there { posts ≤ post_count turn.now }
    ensures ready { IsReady (turn_id turn.now) seat.new }
{
    for nth in 0..posts {
        let post = nth as u64;
        if take_turn(rt, turn, seat, nth).is_ok() && turn.front(seat) > post {
            turn.post(seat, post, post + 1);
        }
    }
}

/// Reads a word, which is there only once its turn was taken.
fn is_there(turn: &Turn<Roll>, seat: &mut Seat<Roll, Mark>, post: u64) -> bool
    requires ready { IsReady (turn_id turn.now) seat.old }
    requires there { post < post_count turn.now }
    ensures ready { IsReady (turn_id turn.now) seat.new }
    ensures taken { result ≡ true → post < length (view seat.new).seen }
{
    turn.read_post(seat, post) != 0
}

/// Reads so many words, of each post in turn: how many were there.
fn read_words(turn: &Turn<Roll>, seat: &mut Seat<Roll, Mark>, reads: u32, posts: u32) -> u64
    requires ready { IsReady (turn_id turn.now) seat.old }
    requires some { 0 < posts }
    requires there { posts ≤ post_count turn.now }
    ensures ready { IsReady (turn_id turn.now) seat.new }
{
    let mut found = 0;
    for nth in 0..reads {
        if is_there(turn, seat, (nth % posts) as u64) {
            found += 1;
        }
    }
    found
}

/// Fills its posts, or reads so many words.
fn work<R: Wait>(rt: &R, turn: &Turn<Roll>, watcher: &mut Watcher, reads: u32)
    requires able { IsAble turn.now watcher.old }
    ensures ready { IsReady (turn_id turn.now) watcher.new.seat }
{
    let posts = watcher.posts;
    if watcher.fills {
        post_turns(rt, turn, &mut watcher.seat, posts);
    } else {
        watcher.found = read_words(turn, &mut watcher.seat, reads, posts);
    }
}

/// A reader for each number that the first seat spares, and then the first seat, which fills the posts.
fn watchers(
    alloc: Global,
    turn: &Turn<Roll>,
    first: Seat<Roll, Mark>,
    posts: u32,
) -> Result<Vec<Watcher>, AllocError>
    requires ready { IsReady (turn_id turn.now) first }
    requires some { 0 < posts }
    requires there { posts ≤ post_count turn.now }
    ensures { IfOk result (λ all. All (IsAble turn.now) all.items) }
{
    let mut first = first;
    let mut all = Vec::new(alloc);
    for _ in 0..first.spares() {
        if first.spares() > 0 {
            all.push(Watcher {
                seat: turn.split(&mut first),
                fills: false,
                posts,
                found: 0,
            })?;
        }
    }
    all.push(Watcher {
        seat: first,
        fills: true,
        posts,
        found: 0,
    })?;
    Ok(all)
}

/// What came of the words.
#[derive(Drop)]
pub struct Words {
    /// How many of the words that were read meanwhile were there.
    pub found: u64,
    /// How many are there in the end.
    pub standing: u64,
}

/// So many readers read so many words each, on threads of their own, while one more thread takes turns and
/// posts each.
pub fn run<R: Threads + Wait + Sync>(
    rt: &R,
    alloc: Global,
    readers: u32,
    reads: u32,
    posts: u32,
) -> Result<Words, AllocError>
    requires few { readers + 1 < 2 ^ 32 }
    requires some { 0 < posts }
{
    let opened = Turn::open_posts(alloc, Roll::new(alloc), readers + 1, posts as u64);
    let Ok((turn, first)) = opened else {
        return Err(AllocError);
    };
    let mut all = watchers(alloc, &turn, first, posts)?;
    let table = &turn;
    thread::for_each_mut(
        rt,
        all.as_mut_slice(),
        readers as usize + 1,
        &|_: usize, watcher: &mut Watcher|
            requires { IsAble table.now watcher.old }
            ensures { IsReady (turn_id table.entry.now) watcher.new.seat }
        { work(rt, table, watcher, reads) },
    );
    let found = all
        .iter()
        .fold(0, |sum: u64, watcher| sum.saturating_add(watcher.found));
    let Some(mut last) = all.pop() else {
        return Err(AllocError);
    };
    let standing = read_words(&turn, &mut last.seat, posts, posts);
    Ok(Words { found, standing })
}
