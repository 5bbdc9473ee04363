//! With which instances a failure begins.

ghost use Rattle.std.specs.Prelude.{◌≡◌, ◌+◌, ◌<◌, ◌≤◌, ◌&&◌, All, not, length};
ghost use Rattle.orc_ids.specs.declared.ids.UnitId.{UnitId};
ghost use Rattle.orc_ids.specs.declared.limits.TheConstants.{INSTANCE_LIMIT};
ghost use Rattle.session_model.specs.Plain.{is_owned_at};
ghost use Rattle.session_model.specs.Reach.{is_ready};
ghost use Rattle.instances.specs.Removal.{is_unready, roots, AddsUnready, AddsUnreadySpan};
ghost use Rattle.instances.specs.Sets.{Adds};
ghost use Rattle.instances.specs.Tied.{IsTied};

use crate::inst_set::InstSet;
use crate::standing::present_at;
use crate::{Instances, Span};
use dep_groups::Frontier;
use orc_ids::{InstId, UnitId};
use session_laws::ready_is_tested;
use session_model::InstRow;
use std::collections::LinkedList;

/// Whether the instance is present and not ready.
fn is_unready(rows: &[InstRow], frontier: &Frontier, i: InstId) -> bool
    requires { IsTied rows.now frontier.now.entries }
    ensures { result ≡ is_unready rows.now i.0 }
{
    // for its law
    ready_is_tested();
    present_at(rows, i) && !frontier.is_ready(i)
}

/// Adds the instance, if it is present and not ready.
fn add_root(into: &mut InstSet, rows: &[InstRow], frontier: &Frontier, i: InstId)
    requires { IsTied rows.now frontier.now.entries }
    ensures added { AddsUnready i.0 rows.now into.old into.new }
    ensures places { into.new.places ≡ into.old.places }
{
    if is_unready(rows, frontier, i) {
        into.add(i);
    }
}

/// Adds the instances of a span that are present and not ready.
pub(crate) fn add_roots(into: &mut InstSet, rows: &[InstRow], frontier: &Frontier, span: Span)
    requires tied { IsTied rows.now frontier.now.entries }
    requires few { span.first + span.count ≤ INSTANCE_LIMIT }
    ensures added { AddsUnreadySpan span.first span.count rows.now into.old into.new }
    ensures places { into.new.places ≡ into.old.places }
{
    for i in span.first..span.first + span.count {
        add_root(into, rows, frontier, InstId(i));
    }
}

/// Adds the instances of a unit that are present and not ready.
pub(crate) fn add_roots_of(
    into: &mut InstSet,
    instances: &Instances,
    frontier: &Frontier,
    u: UnitId,
)
    requires there { u.0 < instances.now.units }
    requires tied { IsTied instances.now.rows frontier.now.entries }
    requires room { length instances.now.rows ≤ into.old.places }
    ensures added { Adds (λ k. is_owned_at u.0 instances.now.rows k && not (is_ready instances.now.rows k)) into.old into.new }
    ensures places { into.new.places ≡ into.old.places }
{
    add_roots(into, instances.rows(), frontier, instances.span(u));
}

/// Adds the instances of some units that are present and not ready.
pub(crate) fn add_all_roots(
    into: &mut InstSet,
    instances: &Instances,
    frontier: &Frontier,
    gone: &LinkedList<UnitId>,
)
    requires there { All (λ (u : UnitId). u.0 < instances.now.units) gone.now }
    requires tied { IsTied instances.now.rows frontier.now.entries }
    requires room { length instances.now.rows ≤ into.old.places }
    ensures added { Adds (roots gone.now instances.now.rows) into.old into.new }
    ensures places { into.new.places ≡ into.old.places }
{
    for u in gone.iter() {
        add_roots_of(into, instances, frontier, *u);
    }
}
