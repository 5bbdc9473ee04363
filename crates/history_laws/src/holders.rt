//! What a seat holds while other seats go on.
ghost use Rattle.history_laws.specs.Holders.{OthersGiveNone, LastRepliesStay};

/// What other seats do gives a seat no unit.
pub fn others_give_none()
    ensures { OthersGiveNone }
{}

/// The last replies about a unit that a seat holds stay the last, whatever other seats do.
pub fn last_replies_stay()
    ensures { LastRepliesStay }
{}
