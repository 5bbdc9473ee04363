//! The names of an ask.

ghost use Rattle.std.specs.Prelude.{◌≤◌, length, IfOk};
ghost use Rattle.orc_ids.specs.declared.limits.TheConstants.{ORDER_LIMIT, WANTED_LIMIT};
ghost use Rattle.session_model.specs.Plain.{Plain};
ghost use Rattle.session_parts.specs.Parts.{AreParts};
ghost use Rattle.session_replies.specs.Lookups.{IsAsked};

use crate::looked::Looked;
use crate::shown::Shown;
use link_order::match_all;
use orc_ids::{OrderItem, Wanted};
use orc_io::Notify;
use session_model::UnitKind;
use session_parts::Parts;
use std::alloc::AllocError;

/// What each name of an ask matches in its order, or why it is refused.
pub fn match_ask<U: UnitKind, N: Notify>(
    parts: &Parts<U, N>,
    order: &[OrderItem],
    wanted: &[Wanted],
) -> Result<Looked, AllocError>
    ghost m: { Plain }
    requires parts { AreParts U.meaning parts.now m }
    requires order { length order.now ≤ ORDER_LIMIT }
    requires wanted { length wanted.now ≤ WANTED_LIMIT }
    ensures { IfOk result (IsAsked m order.now wanted.now) }
{
    let shown = Shown::of(parts);
    Looked::of(match_all(parts.alloc, &shown, order, wanted))
}
