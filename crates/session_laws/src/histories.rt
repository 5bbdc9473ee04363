//! Legal histories, and the session after one.

ghost use Rattle.session_laws.specs.Hello.{HelloIsLegal};
ghost use Rattle.session_laws.specs.Replies.{ReplyIsDetermined};
ghost use Rattle.session_laws.specs.Histories.{EmptyIsLegal, PrefixesAreLegal, OneMoreIsLegal, StateIsUnique};

/// The empty history is legal.
pub fn empty_is_legal()
    ensures { EmptyIsLegal }
{}

/// What a legal history begins with is legal.
pub fn prefixes_are_legal()
    ensures { PrefixesAreLegal }
{}

/// A right reply makes a legal history one entry longer, and the session takes one step.
pub fn one_more_is_legal()
    ensures { OneMoreIsLegal }
{}

/// Steps along a history lead to one session.
pub fn state_is_unique()
    ensures { StateIsUnique }
{}

/// The history of one whole lookup is legal: the definitions can be met.
pub fn hello_is_legal()
    ensures { HelloIsLegal }
{}

/// An event has at most one right reply, but for the base that a place chooses.
pub fn reply_is_determined()
    ensures { ReplyIsDetermined }
{}
