//! Units and generators that aren't taken in.

ghost use Rattle.std.specs.Prelude.{◌≡◌, ◌+◌, ◌||◌, nat_le, nat_lt, length, IfSome, IfNone};
ghost use Rattle.orc_ids.specs.declared.limits.TheConstants.{UNIT_LIMIT, INSTANCE_LIMIT};
ghost use Rattle.session_model.specs.Lists.{only_if};
ghost use Rattle.session_model.specs.Meaning.{Meaning};
ghost use Rattle.session_model.specs.Plain.{Plain};
ghost use Rattle.session_model.specs.Answer.{HasSource};
ghost use Rattle.session_model.specs.declared.entry.Event.TheVariants as event;
ghost use Rattle.session_model.specs.declared.entry.Reply.TheVariants as reply;
ghost use Rattle.session_parts.specs.Parts.{AreParts};
ghost use Rattle.session_parts.specs.Replies.{Refuses};
ghost use Rattle.session_replies.specs.Accepted.{AcceptsAttach, AcceptsDefine, AcceptsGenerate};
ghost use Rattle.session_replies.specs.Reasons.{is_full, unusable};

use crate::dylibs::{absent, too_many};
use crate::trackers::not_of;
use generators::Generators;
use orc_ids::{DylibId, GENERATOR_LIMIT, GenId, INSTANCE_LIMIT, TrackId, UNIT_LIMIT};
use orc_io::Notify;
use session_model::{InstRow, Reply, UnitKind};
use session_parts::Parts;

/// Whether there are as many units as there may be, or so many instances more would be too many.
fn is_full(units: usize, rows: &[InstRow], count: u32) -> bool
    ensures { result ≡ is_full units (length rows.now) count }
{
    units >= UNIT_LIMIT || rows.len() + count as usize > INSTANCE_LIMIT
}

/// The answer TooMany, where one more unit with so many instances would be too many.
fn no_room(units: usize, rows: &[InstRow], count: u32) -> Option<Reply>
    ensures { result ≡ only_if (is_full units (length rows.now) count) reply.TooMany }
{
    if is_full(units, rows, count) {
        Some(Reply::TooMany)
    } else {
        None
    }
}

/// The answer of a generator that isn't there, or is spent.
fn unusable<U: UnitKind>(generators: &Generators<U>, g: GenId) -> Option<Reply>
    ensures { result ≡ unusable generators.now.rows g }
{
    match generators.get(g) {
        None => Some(Reply::NoGen(g)),
        Some(generator) if generator.spent => Some(Reply::Spent(g)),
        Some(_) => None,
    }
}

/// Whether the session has no room for one more unit, which offers so many names.
pub fn lacks_room<U: UnitKind, N: Notify>(parts: &Parts<U, N>, count: u32) -> bool
    ghost m: { Plain }
    requires parts { AreParts U.meaning parts.now m }
    ensures { result ≡ (nat_le UNIT_LIMIT (length m.units) || nat_lt INSTANCE_LIMIT (length m.rows + count)) }
{
    is_full(parts.units.len(), parts.graph.rows(), count)
}

/// Why no unit is attached to the dylib as a generator, if none is.
pub fn refuse_attach<U: UnitKind, N: Notify>(
    parts: &Parts<U, N>,
    d: DylibId,
    t: TrackId,
) -> Option<Reply>
    ghost m: { Plain }
    requires parts { AreParts U.meaning parts.now m }
    ensures refused { IfSome result (λ r. (u : Meaning) → HasSource m u → Refuses m (event.Attach d t u) r) }
    ensures accepted { IfNone result (AcceptsAttach m d t) }
{
    absent(&parts.dylibs, d)
        .or(not_of(&parts.trackers, d, t))
        .or(too_many(parts.generators.len(), GENERATOR_LIMIT))
}

/// Why no unit that offers so many names is defined in the dylib, whatever the names are. Where this
/// answers none, a unit is refused for a name that clashes alone.
pub fn refuse_define<U: UnitKind, N: Notify>(
    parts: &Parts<U, N>,
    d: DylibId,
    t: TrackId,
    count: u32,
) -> Option<Reply>
    ghost m: { Plain }
    requires parts { AreParts U.meaning parts.now m }
    ensures refused { IfSome result (λ r. (u : Meaning) → HasSource m u → length u.offers ≡ count → Refuses m (event.Define d t u) r) }
    ensures accepted { IfNone result (AcceptsDefine m d t count) }
{
    absent(&parts.dylibs, d)
        .or(not_of(&parts.trackers, d, t))
        .or(no_room(parts.units.len(), parts.graph.rows(), count))
}

/// Why the generator's unit isn't defined, whatever the names are that it offers.
pub fn refuse_generate<U: UnitKind, N: Notify>(parts: &Parts<U, N>, g: GenId) -> Option<Reply>
    ghost m: { Plain }
    requires parts { AreParts U.meaning parts.now m }
    ensures refused { IfSome result (Refuses m (event.Generate g)) }
    ensures accepted { IfNone result (AcceptsGenerate m g) }
{
    unusable(&parts.generators, g)
}
