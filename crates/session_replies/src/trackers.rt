//! Trackers that aren't made, moved or removed.

ghost use Rattle.std.specs.Prelude.{◌≡◌, length, IfSome, IfNone};
ghost use Rattle.session_model.specs.Lists.{only_if};
ghost use Rattle.session_model.specs.Plain.{Plain};
ghost use Rattle.session_model.specs.declared.entry.Event.TheVariants as event;
ghost use Rattle.session_model.specs.declared.entry.Reply.TheVariants as reply;
ghost use Rattle.session_parts.specs.Parts.{AreParts};
ghost use Rattle.session_parts.specs.Replies.{Refuses};
ghost use Rattle.session_replies.specs.Accepted.{AcceptsTracker, AcceptsMove, AcceptsRemove};
ghost use Rattle.session_replies.specs.Reasons.{home_of, gone, not_of, are_apart};

use crate::dylibs::{absent, too_many};
use orc_ids::{DylibId, TRACKER_LIMIT, TrackId};
use orc_io::Notify;
use session_model::{Reply, UnitKind};
use session_parts::Parts;
use tracker::Trackers;

/// The answer TrackerGone, where the tracker was never made or is gone.
fn gone(trackers: &Trackers, t: TrackId) -> Option<Reply>
    ensures { result ≡ gone (home_of trackers.now t) t }
{
    match trackers.dylib(t) {
        Some(_) => None,
        None => Some(Reply::TrackerGone(t)),
    }
}

/// The answer TrackerGone, where the tracker isn't there or isn't of this dylib.
pub(crate) fn not_of(trackers: &Trackers, d: DylibId, t: TrackId) -> Option<Reply>
    ensures { result ≡ not_of (home_of trackers.now t) d t }
{
    match trackers.dylib(t) {
        Some(home) if home.0 == d.0 => None,
        _ => Some(Reply::TrackerGone(t)),
    }
}

/// Whether two trackers are there, of two dylibs.
fn are_apart(trackers: &Trackers, t: TrackId, to: TrackId) -> bool
    ensures { result ≡ are_apart (home_of trackers.now t) (home_of trackers.now to) }
{
    match (trackers.dylib(t), trackers.dylib(to)) {
        (Some(home), Some(other)) => home.0 != other.0,
        _ => false,
    }
}

/// The answer OtherDylib, where two trackers are of two dylibs.
fn other_dylib(trackers: &Trackers, t: TrackId, to: TrackId) -> Option<Reply>
    ensures { result ≡ only_if (are_apart (home_of trackers.now t) (home_of trackers.now to)) reply.OtherDylib }
{
    if are_apart(trackers, t, to) {
        Some(Reply::OtherDylib)
    } else {
        None
    }
}

/// Why no tracker of the dylib is made, if none is.
pub fn refuse_tracker<U: UnitKind, N: Notify>(parts: &Parts<U, N>, d: DylibId) -> Option<Reply>
    ghost m: { Plain }
    requires parts { AreParts U.meaning parts.now m }
    ensures refused { IfSome result (Refuses m (event.Tracker d)) }
    ensures accepted { IfNone result (AcceptsTracker m d) }
{
    absent(&parts.dylibs, d).or(too_many(parts.trackers.len(), TRACKER_LIMIT))
}

/// Why what the first tracker has doesn't become the second's, if it doesn't.
pub fn refuse_move<U: UnitKind, N: Notify>(
    parts: &Parts<U, N>,
    t: TrackId,
    to: TrackId,
) -> Option<Reply>
    ghost m: { Plain }
    requires parts { AreParts U.meaning parts.now m }
    ensures refused { IfSome result (Refuses m (event.MoveTracker t to)) }
    ensures accepted { IfNone result (AcceptsMove m t to) }
{
    gone(&parts.trackers, t)
        .or(gone(&parts.trackers, to))
        .or(other_dylib(&parts.trackers, t, to))
}

/// Why the tracker isn't removed, if it isn't.
pub fn refuse_remove<U: UnitKind, N: Notify>(parts: &Parts<U, N>, t: TrackId) -> Option<Reply>
    ghost m: { Plain }
    requires parts { AreParts U.meaning parts.now m }
    ensures refused { IfSome result (Refuses m (event.Remove t)) }
    ensures accepted { IfNone result (AcceptsRemove m t) }
{
    gone(&parts.trackers, t)
}
