ghost use Rattle.std.specs.Prelude.{◌≡◌, IfOk, option_map};
ghost use Rattle.session_model.specs.Match.{match_of};
ghost use Rattle.session_model.specs.Change.{matched, instance_of};
ghost use Rattle.session_model.specs.Answer.{error_of, refused_lookup, lodged_reply, answer_lookup, answer_ask};
ghost use Rattle.session_plain.specs.Meant.{meant, IsSmall};
ghost use Rattle.session_plain.specs.Lookups.{first_offer, first_in_error, first_missing};

use crate::answers::order_unknown;
use crate::find::find_match;
use crate::levels::all_are_at;
use crate::plain::PlainSession;
use crate::query::row_failed;
use crate::reach::unready;
use orc_ids::{InstId, Level, OrderItem, QueryId, Wanted};
use session_model::{Match, Reply, UnitKind};
use std::alloc::{AllocError, Global};

/// The answer Offer for the first wanted name that matches a generator.
fn offer_reply<U: UnitKind>(
    s: &PlainSession<U>,
    order: &[OrderItem],
    wanted: &[Wanted],
) -> Option<Reply>
    requires { IsSmall s.now }
    ensures { result ≡ first_offer (meant U.meaning s.now) order.now wanted.now }
{
    for w in wanted {
        if let Some(Match::Offered(g)) = find_match(s, order, w.name) {
            return Some(Reply::Offer(g));
        }
    }
    None
}

/// The answer InError for the first matched instance that is Failed.
fn error_reply<U: UnitKind>(
    s: &PlainSession<U>,
    order: &[OrderItem],
    wanted: &[Wanted],
) -> Option<Reply>
    requires { IsSmall s.now }
    ensures { result ≡ first_in_error (meant U.meaning s.now) order.now wanted.now }
{
    for w in wanted {
        if let Some(i) = match_failed(s, order, *w) {
            return Some(Reply::InError(i));
        }
    }
    None
}

/// The instance that a name matches, if it is Failed.
fn match_failed<U: UnitKind>(s: &PlainSession<U>, order: &[OrderItem], w: Wanted) -> Option<InstId>
    requires { IsSmall s.now }
    ensures { option_map Reply.InError result ≡ error_of (meant U.meaning s.now) (match_of (meant U.meaning s.now) order.now w.name.0) }
{
    match find_match(s, order, w.name) {
        Some(Match::Instance(i)) => {
            if row_failed(&s.rows, i) {
                Some(i)
            } else {
                None
            }
        }
        _ => None,
    }
}

/// The answer Missing for the first required name without a match.
fn missing_reply<U: UnitKind>(
    s: &PlainSession<U>,
    order: &[OrderItem],
    wanted: &[Wanted],
) -> Option<Reply>
    requires { IsSmall s.now }
    ensures { result ≡ first_missing (meant U.meaning s.now) order.now wanted.now }
{
    for w in wanted {
        if !w.weak && find_match(s, order, w.name).is_none() {
            return Some(Reply::Missing(w.name));
        }
    }
    None
}

/// The instance that a name matches.
fn instance_matched<U: UnitKind>(
    s: &PlainSession<U>,
    order: &[OrderItem],
    w: Wanted,
) -> Option<InstId>
    requires { IsSmall s.now }
    ensures { result ≡ instance_of (match_of (meant U.meaning s.now) order.now w.name.0) }
{
    match find_match(s, order, w.name) {
        Some(Match::Instance(i)) => Some(i),
        _ => None,
    }
}

/// The instance that each name matches.
pub fn matches<U: UnitKind>(
    alloc: Global,
    s: &PlainSession<U>,
    order: &[OrderItem],
    wanted: &[Wanted],
) -> Result<Vec<Option<InstId>>, AllocError>
    requires { IsSmall s.now }
    ensures { IfOk result (λ found. found.items ≡ matched (meant U.meaning s.now) order.now wanted.now) }
{
    let mut found = Vec::new(alloc);
    for w in wanted {
        found.push(instance_matched(s, order, *w))?;
    }
    Ok(found)
}

/// Why the names can't be asked for in this order, if they can't.
pub fn refusal<U: UnitKind>(
    s: &PlainSession<U>,
    order: &[OrderItem],
    wanted: &[Wanted],
) -> Option<Reply>
    requires { IsSmall s.now }
    ensures { result ≡ refused_lookup (meant U.meaning s.now) order.now wanted.now }
{
    let offer = offer_reply(s, order, wanted);
    if offer.is_some() {
        return offer;
    }
    let error = error_reply(s, order, wanted);
    if error.is_some() {
        return error;
    }
    missing_reply(s, order, wanted)
}

/// The answer Done where all matched instances are at the level, else Pending.
pub fn reply_lodged<U: UnitKind>(
    alloc: Global,
    s: &PlainSession<U>,
    level: Level,
    found: &[Option<InstId>],
) -> Result<Reply, AllocError>
    requires { IsSmall s.now }
    ensures { IfOk result (λ reply. reply ≡ lodged_reply (meant U.meaning s.now) level found.now) }
{
    let marks = unready(alloc, &s.rows)?;
    let q = QueryId(s.queries.len() as u32);
    if all_are_at(&s.rows, &marks, level, found) {
        Ok(Reply::Done(q))
    } else {
        Ok(Reply::Pending(q))
    }
}

/// What a lookup is answered, its order aside.
fn reply_lookup<U: UnitKind>(
    alloc: Global,
    s: &PlainSession<U>,
    order: &[OrderItem],
    wanted: &[Wanted],
    level: Level,
) -> Result<Reply, AllocError>
    requires { IsSmall s.now }
    ensures { IfOk result (λ reply. reply ≡ answer_lookup (meant U.meaning s.now) order.now wanted.now level) }
{
    if let Some(reply) = refusal(s, order, wanted) {
        return Ok(reply);
    }
    let found = matches(alloc, s, order, wanted)?;
    reply_lodged(alloc, s, level, &found)
}

/// What an ask is answered.
pub fn reply_ask<U: UnitKind>(
    alloc: Global,
    s: &PlainSession<U>,
    order: &[OrderItem],
    wanted: &[Wanted],
    level: Level,
) -> Result<Reply, AllocError>
    requires { IsSmall s.now }
    ensures { IfOk result (λ reply. reply ≡ answer_ask (meant U.meaning s.now) order.now wanted.now level) }
{
    if let Some(reply) = order_unknown(s, order) {
        return Ok(reply);
    }
    reply_lookup(alloc, s, order, wanted, level)
}
