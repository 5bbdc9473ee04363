ghost use Rattle.std.specs.Prelude.{◌≡◌, ◌≢◌, ◌<◌, ◌+◌, ◌++◌, ◌∷◌, [], false, true, length, All, IfOk, OnOk, OnErr, refl};
ghost use Rattle.std.proofs.Common.{◌∙◌, ap, sym, subst, inl, inr, Ok, Err};
ghost use Rattle.std.proofs.Math.Nat.{lt_trans};
ghost use Rattle.std.proofs.Math.Numerals.{lt-add-one};
ghost use Rattle.std.proofs.lemmas.List.{length-append};
ghost use Rattle.std.proofs.lemmas.List.Elements.{filter-append};
ghost use Rattle.turn_lock.specs.Handles.{view, turn_id, post_count, IsReady};
ghost use Rattle.turn_lock.specs.Lists.{entries_of};
ghost use Rattle.turn_lock.specs.Views.{finds_taken};

use std::alloc::{AllocError, AllocFailed, Global};
use std::sync::Wait;
use std::thread;
use std::thread::Threads;
use turn_lock::{Call, Counted, Seat, Turn};

/// The numbers of the seats that took turns, in order.
#[derive(Drop)]
struct Roll {
    seats: Vec<u32>,
}

impl Counted for Roll {
    type Entry = u32;

    ghost history = { λ roll. roll.seats.items };

    ghost seat_of = { λ seat. seat };

    ghost lawful = { λ _. Unit {0} };

    // A history of more than `k` turns gives `k` the number `k + 1`.
    ghost posted = { λ log k v. (k < length log) × (v ≡ k + 1) };

    fn history_len(&self) -> u64 {
        self.seats.len() as u64
    }

    ghost lawful_before = { λ _ _ _. tt };

    ghost stays_posted = { λ before e k _ _ posted. (subst (λ n. k < n) (sym (length-append before (e ∷ []))) (lt_trans posted.0 (lt-add-one (length before))), posted.1) };

    ghost posted_once = { λ _ _ _ _ _ one other. one.1 ∙ sym other.1 };
}

impl Roll {
    /// No turns yet.
    fn new(alloc: Global) -> Roll
        ensures { result.seats.items ≡ [] }
    {
        Roll {
            seats: Vec::new(alloc),
        }
    }

    fn note(&mut self, seat: u32) -> Result<(), AllocFailed<u32>>
        ensures noted { OnOk result (self.new.seats.items ≡ self.old.seats.items ++ seat ∷ []) }
        ensures stays { OnErr result (self.new.seats.items ≡ self.old.seats.items) }
    {
        self.seats.push(seat)
    }
}

/// Notes a seat that has no entry yet.
#[derive(Drop)]
struct NoteOnce;

impl Call<Roll> for NoteOnce {
    type Answer = Result<(), AllocFailed<u32>>;

    ghost may = { λ _ seat log. entries_of (λ s. s) seat log ≡ [] };

    ghost does = { λ _ seat old new answer. OnOk answer (new ≡ old ++ seat ∷ []) × OnErr answer (new ≡ old) };

    fn make(self, value: &mut Roll, seat: u32) -> Result<(), AllocFailed<u32>> {
        value.note(seat)
    }

    ghost stays_allowed = { λ _ seat log more _ others before. filter-append _ log more ∙ (ap (λ l. l ++ entries_of (λ s. s) seat more) before ∙ others) };

    ghost one_at_most = { λ _ seat old new. elim [ Ok _ ↦ λ done. inr (seat, done.0, refl) | Err _ ↦ λ done. inl done.1 ] };
}

/// Makes one entry of the seat, if it is given the turn without waiting.
fn note_once(turn: &Turn<Roll>, seat: &mut Seat<Roll, u32>) -> Result<bool, AllocError>
    requires { IsReady (turn_id turn.now) seat.old }
    ensures ready { IsReady (turn_id turn.now) seat.new }
    ensures busy { IfOk result (λ noted. noted ≡ false → view seat.new ≡ finds_taken (view seat.old)) }
{
    let number = seat.number();
    let Ok(mut held) = seat.try_enter(turn) else {
        return Ok(false);
    };
    let entry = held.value().history_len();
    let noted = held.value().note(number);
    if noted.is_ok() {
        held.step(entry);
    }
    held.leave();
    noted?;
    Ok(true)
}

/// Whether the second seat finds the turn taken while the first has it.
fn is_busy_meanwhile(
    turn: &Turn<Roll>,
    first: &mut Seat<Roll, u32>,
    second: &mut Seat<Roll, u32>,
) -> Result<bool, AllocError>
    requires first { IsReady (turn_id turn.now) first.old }
    requires second { IsReady (turn_id turn.now) second.old }
    ensures first { IsReady (turn_id turn.now) first.new }
    ensures second { IsReady (turn_id turn.now) second.new }
{
    let Ok(held) = first.try_enter(turn) else {
        return Ok(false);
    };
    let free = note_once(turn, second);
    held.leave();
    Ok(!free?)
}

/// Whether the second seat gets its call back while the first has the turn.
fn is_handed_back_meanwhile(
    turn: &Turn<Roll>,
    first: &mut Seat<Roll, u32>,
    second: &mut Seat<Roll, u32>,
) -> bool
    requires first { IsReady (turn_id turn.now) first.old }
    requires second { IsReady (turn_id turn.now) second.old }
    requires fresh { entries_of (λ s. s) (view second.old).number (view second.old).seen ≡ [] }
    ensures first { IsReady (turn_id turn.now) first.new }
    ensures mine { ((view first.new).number ≡ (view first.old).number) × ((view first.new).mine ≡ (view first.old).mine) }
    ensures second { IsReady (turn_id turn.now) second.new }
    ensures back { result ≡ true → view second.new ≡ finds_taken (view second.old) }
{
    let Ok(held) = first.try_enter(turn) else {
        return false;
    };
    let back = turn.try_perform(second, NoteOnce).is_err();
    held.leave();
    back
}

/// Seats of one turn look at the history, each on a thread of its own. It stands here for its proof:
/// a turn and its seats cross threads where the value may.
fn look_at_once<T: Counted + Send, R: Threads + Sync>(
    rt: &R,
    turn: &Turn<T>,
    seats: &mut [Seat<T, T::Entry>],
)
    requires { All (λ seat. IsReady (turn_id turn.now) seat) seats.old }
    ensures { All (λ seat. IsReady (turn_id turn.now) seat) seats.new }
{
    thread::for_each_mut(
        rt,
        seats,
        2,
        &|_: usize, seat: &mut Seat<T, T::Entry>|
            requires { IsReady (turn_id turn.now) seat.old }
            ensures { IsReady (turn_id turn.entry.now) seat.new }
        {
            turn.front(seat);
        },
    );
}

/// How many entries there are, as the value says in a turn of the seat.
fn entries_in_turn<R: Wait>(rt: &R, turn: &Turn<Roll>, seat: &mut Seat<Roll, u32>) -> u64
    requires { IsReady (turn_id turn.now) seat.old }
    ensures { IsReady (turn_id turn.now) seat.new }
{
    let mut held = turn.enter(rt, seat);
    let len = held.value().history_len();
    held.leave();
    len
}

/// Two seats of one turn, which is busy until it is left. Whether the first has a spare number, whether
/// the second got it, whether the second finds the turn taken while the first has it and notes itself
/// then, whether the first sees that entry, and whether it is the only one. `None` where memory runs out.
fn two_seats<R: Wait>(rt: &R, alloc: Global) -> Option<[bool; 7]> {
    let Ok((turn, mut first)) = Turn::open(alloc, Roll::new(alloc), 2) else {
        return None;
    };
    let spare = first.number() == 0 && first.spares() == 1;
    let mut second = turn.split(&mut first);
    let given = second.number() == 1 && first.spares() == 0 && second.spares() == 0;
    let busy = is_busy_meanwhile(&turn, &mut first, &mut second);
    let noted = note_once(&turn, &mut second);
    let front = turn.front(&mut first);
    turn.meet(&mut second, &mut first);
    turn.join(&mut first, second);
    let entries = entries_in_turn(rt, &turn, &mut first);
    let roll = turn.close(rt, first);
    Some([
        spare,
        given,
        matches!(busy, Ok(true)),
        matches!(noted, Ok(true)),
        front == 1,
        entries == 1,
        roll.seats.as_slice() == [1].as_slice(),
    ])
}

#[test]
fn a_turn_is_busy_until_it_is_left(rt: HostRuntime) {
    assert_eq!(rt; two_seats(&rt, rt.alloc()), Some([true; 7]));
}

/// Two seats that make the same call once each, the second first. Whether no entry is there after the
/// second got its call back, whether both calls are made then, and whether the seats stand in that
/// order. `None` where the call isn't handed back, or memory runs out.
fn two_calls<R: Wait>(rt: &R, alloc: Global) -> Option<[bool; 4]> {
    let Ok((turn, mut first)) = Turn::open(alloc, Roll::new(alloc), 2) else {
        return None;
    };
    let mut second = turn.split(&mut first);
    if !is_handed_back_meanwhile(&turn, &mut first, &mut second) {
        return None;
    }
    let none = turn.front(&mut first) == 0;
    let tried = turn.try_perform(&mut second, NoteOnce);
    let performed = turn.perform(rt, &mut first, NoteOnce);
    let roll = turn.close(rt, first);
    Some([
        none,
        matches!(tried, Ok(Ok(()))),
        performed.is_ok(),
        roll.seats.as_slice() == [1, 0].as_slice(),
    ])
}

#[test]
fn a_call_is_made_once_the_turn_is_free(rt: HostRuntime) {
    assert_eq!(rt; two_calls(&rt, rt.alloc()), Some([true; 4]));
}

/// Posts the first turn, if the seat has seen one; whether it has.
fn post_first(turn: &Turn<Roll>, seat: &mut Seat<Roll, u32>) -> bool
    requires ready { IsReady (turn_id turn.now) seat.old }
    requires there { 0 < post_count turn.now }
    ensures ready { IsReady (turn_id turn.now) seat.new }
{
    let seen = turn.front(seat) > 0;
    if seen {
        turn.post(seat, 0, 1);
    }
    seen
}

/// What stands in a post. A seat that found it filled has seen the turn that it speaks of, and finds
/// what it filled it with itself.
fn word(turn: &Turn<Roll>, seat: &mut Seat<Roll, u32>, k: u64) -> u64
    requires ready { IsReady (turn_id turn.now) seat.old }
    requires there { k < post_count turn.now }
    ensures ready { IsReady (turn_id turn.now) seat.new }
    ensures seen { result ≢ 0 → k < length (view seat.new).seen }
    ensures own { All (λ p. p.0 ≡ k → result ≡ p.1) (view seat.old).noted }
{
    turn.read_post(seat, k)
}

/// Two seats of a turn with two posts. Whether both are empty at the opening, whether the second seat
/// posts nothing before a turn and does after it, and whether then both seats find the word in the
/// first post and none in the second. `None` where memory runs out.
fn two_posts(alloc: Global) -> Option<[bool; 5]> {
    let Ok((turn, mut first)) = Turn::open_posts(alloc, Roll::new(alloc), 2, 2) else {
        return None;
    };
    let mut second = turn.split(&mut first);
    let empty = word(&turn, &mut first, 0) == 0 && word(&turn, &mut first, 1) == 0;
    let early = post_first(&turn, &mut second);
    let Ok(true) = note_once(&turn, &mut second) else {
        return None;
    };
    let posted = post_first(&turn, &mut second);
    let found = word(&turn, &mut first, 0) == 1 && word(&turn, &mut first, 1) == 0;
    let own = word(&turn, &mut second, 0) == 1 && word(&turn, &mut second, 1) == 0;
    Some([empty, !early, posted, found, own])
}

#[test]
fn a_post_is_read_without_the_turn(rt: HostRuntime) {
    assert_eq!(rt; two_posts(rt.alloc()), Some([true; 5]));
}
