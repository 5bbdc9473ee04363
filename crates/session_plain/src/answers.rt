ghost use Rattle.std.specs.Prelude.{◌≡◌, ◌↔◌, ℕ, ◌<◌, length, slice_get, ◌==◌, IfSome, IsTrue};
ghost use Rattle.std.specs.List.{position_from};
ghost use Rattle.session_model.specs.Plain.{has_dylib, has_tracker, is_tracker_of, tracker_dylib};
ghost use Rattle.session_model.specs.Answer.{no_dylib, order_dylibs, answer_dylib, answer_set_order, answer_tracker, answer_move, answer_remove, answer_attach, HasSource};
ghost use Rattle.session_plain.specs.Meant.{meant, IsSmall};

use crate::plain::PlainSession;
use orc_ids::{
    DYLIB_LIMIT, DylibId, GENERATOR_LIMIT, GenId, NameId, OrderItem, TRACKER_LIMIT, TrackId,
};
use session_model::{Dylib, Reply, Track, UnitKind};

/// The number of the dylib of this name.
fn dylib_named(dylibs: &[Dylib], name: NameId) -> Option<usize>
    ensures first { result ≡ position_from (λ d. d.name == name.0) 0 dylibs.now }
    ensures within { IfSome result (λ d. d < length dylibs.now) }
{
    for (k, d) in dylibs.iter().enumerate() {
        if d.name == name.0 {
            return Some(k);
        }
    }
    None
}

/// What making a dylib is answered.
pub fn reply_dylib<U: UnitKind>(s: &PlainSession<U>, name: NameId) -> Reply
    requires { IsSmall s.now }
    ensures { result ≡ answer_dylib (meant U.meaning s.now) name }
{
    if let Some(d) = dylib_named(&s.dylibs, name) {
        return Reply::NameTaken(DylibId(d as u32));
    }
    if s.dylibs.len() >= DYLIB_LIMIT {
        return Reply::TooMany;
    }
    Reply::Made(DylibId(s.dylibs.len() as u32))
}

/// Whether the dylib exists.
pub fn dylib_known<U: UnitKind>(s: &PlainSession<U>, d: DylibId) -> bool
    ensures { result ≡ has_dylib (meant U.meaning s.now) d.0 }
{
    (d.0 as usize) < s.dylibs.len()
}

/// Whether the dylib exists in which an alias looks its target up.
pub fn source_known<U: UnitKind>(s: &PlainSession<U>, unit: &U) -> bool
    ensures { IsTrue result ↔ HasSource (meant U.meaning s.now) (U.meaning unit.now) }
{
    match unit.source() {
        Some(d) => dylib_known(s, d),
        None => true,
    }
}

/// The answer NoDylib for the first dylib of an order that doesn't exist.
pub fn order_unknown<U: UnitKind>(s: &PlainSession<U>, order: &[OrderItem]) -> Option<Reply>
    ensures { result ≡ no_dylib (meant U.meaning s.now) (order_dylibs order.now) }
{
    for item in order {
        if !dylib_known(s, item.dylib) {
            return Some(Reply::NoDylib(item.dylib));
        }
    }
    None
}

/// What setting a dylib's order is answered.
pub fn reply_set_order<U: UnitKind>(s: &PlainSession<U>, d: DylibId, order: &[OrderItem]) -> Reply
    ensures { result ≡ answer_set_order (meant U.meaning s.now) d order.now }
{
    if !dylib_known(s, d) {
        return Reply::NoDylib(d);
    }
    match order_unknown(s, order) {
        Some(reply) => reply,
        None => Reply::Set,
    }
}

/// What making a tracker is answered.
pub fn reply_tracker<U: UnitKind>(s: &PlainSession<U>, d: DylibId) -> Reply
    requires { IsSmall s.now }
    ensures { result ≡ answer_tracker (meant U.meaning s.now) d }
{
    if !dylib_known(s, d) {
        return Reply::NoDylib(d);
    }
    if s.trackers.len() >= TRACKER_LIMIT {
        return Reply::TooMany;
    }
    Reply::Tracker(TrackId(s.trackers.len() as u32))
}

fn tracker_there(trackers: &[Track], t: TrackId) -> Option<Track>
    ensures { result ≡ slice_get trackers.now t.0 }
{
    trackers.get(t.0 as usize).copied()
}

/// Whether the tracker is there, and not gone.
pub fn tracker_known<U: UnitKind>(s: &PlainSession<U>, t: TrackId) -> bool
    ensures { result ≡ has_tracker (meant U.meaning s.now) t.0 }
{
    match tracker_there(&s.trackers, t) {
        Some(tracker) => !tracker.gone,
        None => false,
    }
}

/// Whether the tracker is there, and of this dylib.
pub fn tracker_of<U: UnitKind>(s: &PlainSession<U>, d: DylibId, t: TrackId) -> bool
    ensures { result ≡ is_tracker_of (meant U.meaning s.now) d.0 t.0 }
{
    match tracker_there(&s.trackers, t) {
        Some(tracker) => !tracker.gone && tracker.dylib == d.0,
        None => false,
    }
}

fn dylib_of<U: UnitKind>(s: &PlainSession<U>, t: TrackId) -> u32
    ensures { result ≡ tracker_dylib (meant U.meaning s.now) t.0 }
{
    match tracker_there(&s.trackers, t) {
        Some(tracker) => tracker.dylib,
        None => 0,
    }
}

/// What moving a tracker is answered.
pub fn reply_move<U: UnitKind>(s: &PlainSession<U>, t: TrackId, to: TrackId) -> Reply
    ensures { result ≡ answer_move (meant U.meaning s.now) t to }
{
    if !tracker_known(s, t) {
        return Reply::TrackerGone(t);
    }
    if !tracker_known(s, to) {
        return Reply::TrackerGone(to);
    }
    if dylib_of(s, t) != dylib_of(s, to) {
        return Reply::OtherDylib;
    }
    Reply::Moved
}

/// What removing a tracker is answered.
pub fn reply_remove<U: UnitKind>(s: &PlainSession<U>, t: TrackId) -> Reply
    ensures { result ≡ answer_remove (meant U.meaning s.now) t }
{
    if !tracker_known(s, t) {
        return Reply::TrackerGone(t);
    }
    Reply::Removed
}

/// What making a generator is answered.
pub fn reply_attach<U: UnitKind>(s: &PlainSession<U>, d: DylibId, t: TrackId) -> Reply
    requires { IsSmall s.now }
    ensures { result ≡ answer_attach (meant U.meaning s.now) d t }
{
    if !dylib_known(s, d) {
        return Reply::NoDylib(d);
    }
    if !tracker_of(s, d, t) {
        return Reply::TrackerGone(t);
    }
    if s.generators.len() >= GENERATOR_LIMIT {
        return Reply::TooMany;
    }
    Reply::Generator(GenId(s.generators.len() as u32))
}
