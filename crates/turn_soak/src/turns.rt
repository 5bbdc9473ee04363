//! The turns of one seat.
ghost use Rattle.std.specs.Prelude.{◌≡◌, ◌++◌, ◌∷◌, [], false, OnOk, OnErr, refl};
ghost use Rattle.std.proofs.Common.{inl, inr, Ok, Err};
ghost use Rattle.turn_lock.specs.Handles.{view, turn_id, IsReady};
ghost use Rattle.turn_soak.specs.Turns.{Took, mark, marks};

use crate::roll::{Mark, Roll};
use std::alloc::AllocError;
use std::sync::Wait;
use turn_lock::{Call, Seat, Turn};

/// A seat's mark of its turn with this number.
struct MarkTurn {
    turn: u32,
}

impl Call<Roll> for MarkTurn {
    type Answer = Result<(), AllocError>;

    ghost may = { λ _ _ _. Unit {0} };

    ghost does = { λ call seat old new answer. OnOk answer (new ≡ old ++ mark seat call.turn ∷ []) × OnErr answer (new ≡ old) };

    fn make(self, value: &mut Roll, seat: u32) -> Result<(), AllocError> {
        let MarkTurn { turn } = self;
        value.note(Mark { seat, turn })
    }

    ghost stays_allowed = { λ _ _ _ _ _ _ _. tt };

    ghost one_at_most = { λ call seat old new. elim [ Ok _ ↦ λ done. inr (mark seat call.turn, done.0, refl) | Err _ ↦ λ done. inl done.1 ] };
}

/// Takes one turn: the roll has one mark of this seat more, after all that the seat had seen.
pub fn take_turn<R: Wait>(
    rt: &R,
    turn: &Turn<Roll>,
    seat: &mut Seat<Roll, Mark>,
    nth: u32,
) -> Result<(), AllocError>
    requires { IsReady (turn_id turn.now) seat.old }
    ensures ready { IsReady (turn_id turn.now) seat.new }
    ensures number { (view seat.new).number ≡ (view seat.old).number }
    ensures took { OnOk result (Took nth (view seat.old) (view seat.new)) }
    ensures same { OnErr result ((view seat.new).mine ≡ (view seat.old).mine) }
{
    turn.perform(rt, seat, MarkTurn { turn: nth })
}

/// A seat at work, and whether it had the memory for all of its turns.
#[derive(Drop)]
pub struct Member {
    pub seat: Seat<Roll, Mark>,
    pub failed: bool,
}

/// Takes so many turns, from turn 0 on, unless memory runs out.
pub fn take_turns<R: Wait>(rt: &R, turn: &Turn<Roll>, member: &mut Member, turns: u32)
    requires ready { IsReady (turn_id turn.now) member.old.seat }
    requires fresh { (view member.old.seat).mine ≡ [] }
    ensures ready { IsReady (turn_id turn.now) member.new.seat }
    ensures number { (view member.new.seat).number ≡ (view member.old.seat).number }
    ensures took { member.new.failed ≡ false → (view member.new.seat).mine ≡ marks (view member.old.seat).number turns }
{
    member.failed = false;
    for nth in 0..turns {
        if take_turn(rt, turn, &mut member.seat, nth).is_err() {
            member.failed = true;
            return;
        }
    }
}
