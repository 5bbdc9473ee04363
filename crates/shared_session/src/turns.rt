//! What a turn or a post is to the seat that took it.
ghost use Rattle.shared_session.specs.Did.{PostIsNoCall, TurnIsACall, TurnIsNoCall, WordIsNoCall};

use session_model::UnitKind;

/// A turn in which an entry was made is one call.
pub fn turn_is_a_call<U: UnitKind>()
    ensures { TurnIsACall U.meaning }
{}

/// A turn in which no entry was made is none.
pub fn turn_is_no_call<U: UnitKind>()
    ensures { TurnIsNoCall U.meaning }
{}

/// Filling a post is no call.
pub fn post_is_no_call<U: UnitKind>()
    ensures { PostIsNoCall U.meaning }
{}

/// Reading a post is none.
pub fn word_is_no_call<U: UnitKind>()
    ensures { WordIsNoCall U.meaning }
{}
