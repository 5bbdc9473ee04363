//! Dylibs that aren't made, and link orders that aren't set.

ghost use Rattle.std.specs.Prelude.{◌≡◌, ◌≤◌, ◌<◌, length, IfSome, IfNone};
ghost use Rattle.orc_ids.specs.declared.limits.TheConstants.{DYLIB_LIMIT, ORDER_LIMIT};
ghost use Rattle.session_model.specs.Lists.{first_some};
ghost use Rattle.session_model.specs.Plain.{Plain};
ghost use Rattle.session_model.specs.Answer.{answer_dylib};
ghost use Rattle.session_model.specs.declared.entry.Event.TheVariants as event;
ghost use Rattle.session_model.specs.declared.entry.Reply.TheVariants as reply;
ghost use Rattle.session_parts.specs.Parts.{AreParts};
ghost use Rattle.session_parts.specs.Replies.{Refuses};
ghost use Rattle.session_replies.specs.Accepted.{AcceptsOrder};
ghost use Rattle.session_replies.specs.Reasons.{absent, name_taken, too_many};

use jit_dylib::Dylibs;
use orc_ids::{DYLIB_LIMIT, DylibId, NameId, OrderItem};
use orc_io::Notify;
use session_model::{Reply, UnitKind};
use session_parts::Parts;

/// The answer NoDylib, where there is no such dylib.
pub(crate) fn absent(dylibs: &Dylibs, d: DylibId) -> Option<Reply>
    ensures { result ≡ absent dylibs.now.dylibs d }
{
    if dylibs.has(d) {
        None
    } else {
        Some(Reply::NoDylib(d))
    }
}

/// The same of the first dylib in the order that isn't there.
fn absent_in(dylibs: &Dylibs, order: &[OrderItem]) -> Option<Reply>
    ensures { result ≡ first_some (λ item. absent dylibs.now.dylibs item.dylib) order.now }
{
    for item in order {
        let refusal = absent(dylibs, item.dylib);
        if refusal.is_some() {
            return refusal;
        }
    }
    None
}

/// The answer NameTaken, where a dylib has this name.
fn name_taken(dylibs: &Dylibs, name: NameId) -> Option<Reply>
    ensures { result ≡ name_taken dylibs.now.dylibs name }
{
    let d = dylibs.find(name)?;
    Some(Reply::NameTaken(d))
}

/// The answer TooMany, where there are as many as there may be.
pub(crate) fn too_many(count: usize, limit: usize) -> Option<Reply>
    ensures { result ≡ too_many count limit }
{
    if count >= limit {
        Some(Reply::TooMany)
    } else {
        None
    }
}

/// Why no dylib of this name is made, if none is.
pub fn refuse_dylib<U: UnitKind, N: Notify>(parts: &Parts<U, N>, name: NameId) -> Option<Reply>
    ghost m: { Plain }
    requires parts { AreParts U.meaning parts.now m }
    ensures refused { IfSome result (Refuses m (event.Dylib name)) }
    ensures made { IfNone result ((answer_dylib m name ≡ reply.Made (record { 0 = length m.dylibs })) × (length m.dylibs < DYLIB_LIMIT)) }
{
    name_taken(&parts.dylibs, name).or(too_many(parts.dylibs.len(), DYLIB_LIMIT))
}

/// Why the dylib isn't given this link order, if it isn't.
pub fn refuse_order<U: UnitKind, N: Notify>(
    parts: &Parts<U, N>,
    d: DylibId,
    order: &[OrderItem],
) -> Option<Reply>
    ghost m: { Plain }
    requires parts { AreParts U.meaning parts.now m }
    requires few { length order.now ≤ ORDER_LIMIT }
    ensures refused { IfSome result (Refuses m (event.SetOrder d order.now)) }
    ensures accepted { IfNone result (AcceptsOrder m d order.now) }
{
    absent(&parts.dylibs, d).or(absent_in(&parts.dylibs, order))
}
