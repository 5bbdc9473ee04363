//! What was found has posts, and at Ready may be posted.
ghost use Rattle.ready_words.specs.Found.{FoundHavePosts, FoundMayBePosted};

use session_model::UnitKind;

/// What a lookup found are instances with posts, in such a session.
pub fn found_have_posts<U: UnitKind>()
    ensures { FoundHavePosts U.meaning }
{}

/// What a lookup at Ready found may be posted by each pass that has seen its end, in a session with a
/// post for each instance.
pub fn found_may_be_posted<U: UnitKind>()
    ensures { FoundMayBePosted U.meaning }
{}
