//! Calls as plain data.

use orc_ids::{
    Bytes, DylibId, GenId, Items, Level, NameId, OrderItem, Place, QueryId, Scope, Shape, SymFlags,
    TrackId, UnitId, UnitName, Wanted,
};
use session_check::KnownUnit;
use session_model::Why;
use session_player::Call;
use std::alloc::{AllocError, Global};
use std::test::Fail;

/// A unit that is handed in. But for an alias it offers one strong name.
#[derive(Clone, Copy)]
pub(super) enum Unit {
    /// It needs this name, if any.
    Object(NameId, Option<NameId>),
    /// It takes so many bytes.
    Sized(NameId, u64),
    /// The edge at this place, of this kind and value, is out of range.
    Refused(NameId, Place, u32, i64),
    /// The number of an alias of one name for another of the first dylib.
    Alias(u32, NameId, NameId),
}

/// A call by its numbers.
#[derive(Clone, Copy)]
pub(super) enum Said {
    Dylib(NameId),
    /// The link order of a dylib is the exported names of another one.
    Order(u32, u32),
    Tracker(u32),
    Move(u32, u32),
    Remove(u32),
    Attach(u32, u32, Unit),
    Define(u32, u32, Unit),
    Generate(u32),
    /// The name is looked up in all of the dylib, at Ready.
    Ask(u32, NameId),
    Collect(u32),
    Take,
    Place(u32),
    Resolve(u32),
    Link(u32),
    /// The unit is emitted with its own groups and bytes.
    Emit(u32),
    Fail(u32, Why),
    Image,
}

/// What a unit needs of memory, where nothing else is said.
const SHAPE: Shape = Shape {
    need: 48,
    align: 16,
};

/// How names are offered.
const FLAGS: SymFlags = SymFlags {
    weak: false,
    common: false,
    exported: true,
    callable: true,
};

fn needs(name: NameId) -> Wanted {
    Wanted { name, weak: false }
}

fn list<T: Copy>(alloc: Global, items: &[T]) -> Result<Items<T>, AllocError> {
    Ok(Items::from_vec(items.to_vec(alloc)?))
}

fn externals_of(alloc: Global, wants: Option<NameId>) -> Result<Vec<Wanted>, AllocError> {
    match wants {
        Some(name) => [needs(name)].to_vec(alloc),
        None => Ok(Vec::new(alloc)),
    }
}

fn object_of(
    alloc: Global,
    name: NameId,
    wants: Option<NameId>,
    shape: Shape,
    refusal: Option<(Place, u32, i64)>,
) -> Result<KnownUnit, Fail> {
    let externals = externals_of(alloc, wants)?;
    let offers = [(name, FLAGS)].to_vec(alloc)?;
    let unit = KnownUnit::new(UnitName::Object(0), offers, Some(shape), externals, refusal);
    Ok(unit.ok_or("no unit")?)
}

fn sized_of(alloc: Global, name: NameId, need: u64) -> Result<KnownUnit, Fail> {
    object_of(alloc, name, None, Shape { need, align: 16 }, None)
}

fn alias_of(
    alloc: Global,
    number: u32,
    name: NameId,
    target: NameId,
) -> Result<KnownUnit, AllocError> {
    KnownUnit::alias(alloc, UnitName::Alias(number), name, DylibId(0), target)
}

fn unit_of(alloc: Global, unit: &Unit) -> Result<KnownUnit, Fail> {
    match unit {
        Unit::Object(name, wants) => object_of(alloc, *name, *wants, SHAPE, None),
        Unit::Sized(name, need) => sized_of(alloc, *name, *need),
        Unit::Refused(name, place, kind, value) => {
            object_of(alloc, *name, None, SHAPE, Some((*place, *kind, *value)))
        }
        Unit::Alias(number, name, target) => Ok(alias_of(alloc, *number, *name, *target)?),
    }
}

fn order_of(alloc: Global, d: u32, scope: Scope) -> Result<Items<OrderItem>, AllocError> {
    let dylib = DylibId(d);
    list(alloc, &[OrderItem { dylib, scope }])
}

fn ask_of(alloc: Global, d: u32, name: NameId) -> Result<Call<KnownUnit>, AllocError> {
    let order = order_of(alloc, d, Scope::All)?;
    Ok(Call::Ask(order, list(alloc, &[needs(name)])?, Level::Ready))
}

fn set_order_of(alloc: Global, d: u32, other: u32) -> Result<Call<KnownUnit>, AllocError> {
    Ok(Call::SetOrder(DylibId(d), order_of(alloc, other, Scope::Exported)?))
}

fn emit_of(alloc: Global, u: u32) -> Call<KnownUnit> {
    Call::Emit(UnitId(u), Items::new(alloc), Bytes::new(alloc))
}

/// The call.
pub(super) fn call_of(alloc: Global, said: &Said) -> Result<Call<KnownUnit>, Fail> {
    match said {
        Said::Dylib(name) => Ok(Call::Dylib(*name)),
        Said::Order(d, other) => Ok(set_order_of(alloc, *d, *other)?),
        Said::Tracker(d) => Ok(Call::Tracker(DylibId(*d))),
        Said::Move(t, to) => Ok(Call::MoveTracker(TrackId(*t), TrackId(*to))),
        Said::Remove(t) => Ok(Call::Remove(TrackId(*t))),
        Said::Attach(d, t, unit) => {
            Ok(Call::Attach(DylibId(*d), TrackId(*t), unit_of(alloc, unit)?))
        }
        Said::Define(d, t, unit) => {
            Ok(Call::Define(DylibId(*d), TrackId(*t), unit_of(alloc, unit)?))
        }
        Said::Generate(g) => Ok(Call::Generate(GenId(*g))),
        Said::Ask(d, name) => Ok(ask_of(alloc, *d, *name)?),
        Said::Collect(q) => Ok(Call::Collect(QueryId(*q))),
        Said::Take => Ok(Call::Take),
        Said::Place(u) => Ok(Call::Place(UnitId(*u), SHAPE)),
        Said::Resolve(u) => Ok(Call::Resolve(UnitId(*u))),
        Said::Link(u) => Ok(Call::Link(UnitId(*u))),
        Said::Emit(u) => Ok(emit_of(alloc, *u)),
        Said::Fail(u, why) => Ok(Call::Fail(UnitId(*u), *why)),
        Said::Image => Ok(Call::Image),
    }
}
